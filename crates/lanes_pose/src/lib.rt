// The public call `pose`: the place and the heading on a lane of a plan, from the file's bytes.
#![tactic(auto)]

ghost use Rattle.std.specs.Prelude.{◌≡◌, ◌*◌, take};
ghost use Rattle.plan_format.specs.Plan.{Decoded};
ghost use Rattle.pose.specs.Lanes.{pose_of, pose_row, posed_by};
ghost use Rattle.tables.specs.LaneTables.{Calls, lane_tables};
ghost use Rattle.lanes_pose.specs.Pose.{PoseFronts};

use geometry::Pose;
use plan_format::{LaneId, Refusal};
use pose::Lanes;
use tables::open;

// The pose from the front of each table, n lanes with m points.
// The tables one by one, as the call has them: a struct here would be made for one use.
fn pose_from<'a>(
    lane: LaneId,
    s: f32,
    n: usize,
    m: usize,
    lanes: &'a [usize],
    points: &'a [f32],
    cumulative: &'a [f32],
    tangents: &'a [f32],
) -> Result<Pose, Refusal>
    requires { PoseFronts n m lanes.now points.now cumulative.now tangents.now }
    ensures { posed_by result ≡ pose_row lane.0 s n (take (6 * n) lanes.now) (take (3 * m) points.now)
        (take m cumulative.now) (take (3 * m) tangents.now) }
{
    let rows = Lanes {
        lanes: branches::Lanes {
            rows: &lanes[..6 * n],
            count: n,
            points: &points[..3 * m],
            cumulative: &cumulative[..m],
        },
        tangents: &tangents[..3 * m],
    };
    rows.pose(lane, s)
}

// The place and the heading on a lane at the arc length s, which is clamped to the lane: numbers 1 to 8, and 12 for an unknown lane.
// The tables come one by one, as C lends them.
#[tactic(auto, using(calling::specs::Calling::calls_refused))]
pub fn pose(
    file: &[u8],
    lane: LaneId,
    s: f32,
    lanes: &mut [usize],
    points: &mut [f32],
    ends: &mut [f32],
    fans: &mut [usize],
    links: &mut [usize],
    sections: &mut [usize],
    bounds: &mut [f64],
    stations: &mut [f64],
    places: &mut [usize],
    cumulative: &mut [f32],
    tangents: &mut [f32],
) -> Result<Pose, Refusal>
    ensures { Calls (λ (d : Decoded). pose_of d lane.0 s) 0 file.now (posed_by result)
        (lane_tables lanes.old points.old ends.old fans.old links.old
        sections.old bounds.old stations.old places.old cumulative.old
        tangents.old)
        (lane_tables lanes.new points.new ends.new fans.new links.new
        sections.new bounds.new stations.new places.new cumulative.new
        tangents.new) }
{
    let counts = open(
        file, 0, lanes, points, ends, fans, links, sections, bounds, stations, places, cumulative,
        tangents,
    )?;
    let n = counts.lanes;
    let m = counts.points;
    pose_from(lane, s, n, m, lanes, points, cumulative, tangents)
}
