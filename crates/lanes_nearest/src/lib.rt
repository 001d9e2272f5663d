// The public call `nearest_lane`: the driving lane nearest to a point, from the file's bytes.
#![tactic(auto)]

ghost use Rattle.std.specs.Prelude.{◌≡◌, ◌*◌, take};
ghost use Rattle.plan_format.specs.Plan.{Decoded};
ghost use Rattle.tables.specs.LaneTables.{Calls, lane_tables};
ghost use Rattle.nearest.specs.Nearest.{nearest_among, nearest_by, nearest_from};
ghost use Rattle.network.specs.Tables.{lanes_from};
ghost use Rattle.calling.specs.Calling.{point};
ghost use Rattle.lanes_nearest.specs.Nearest.{NearestFronts};

use coords::Point;
use nearest::{Lanes, NearestLane};
use plan_format::Refusal;
use tables::open;

// The nearest lane from the front of each table, n lanes with m points.
fn nearest_from(
    p: Point,
    n: usize,
    m: usize,
    lanes: &[usize],
    points: &[f32],
    cumulative: &[f32],
) -> Result<NearestLane, Refusal>
    requires { NearestFronts n m lanes.now points.now cumulative.now }
    ensures { nearest_by result ≡ nearest_among (lanes_from (take (6 * n) lanes.now) (take (3 * m) points.now) n 0) p }
{
    let rows = Lanes {
        rows: &lanes[..6 * n],
        count: n,
        points: &points[..3 * m],
        cumulative: &cumulative[..m],
    };
    rows.nearest_lane(p)
}

// The driving lane nearest to a point, and the place on it: numbers 1 to 8, 9 where a coordinate is not finite, and 10 where no lane drives.
// The tables come one by one, as C lends them.
#[tactic(auto, using(calling::specs::Calling::calls_refused))]
pub fn nearest_lane(
    file: &[u8],
    x: f32,
    y: f32,
    z: f32,
    lanes: &mut [usize],
    points: &mut [f32],
    ends: &mut [f32],
    fans: &mut [usize],
    links: &mut [usize],
    sections: &mut [usize],
    bounds: &mut [f64],
    stations: &mut [f64],
    places: &mut [usize],
    cumulative: &mut [f32],
    tangents: &mut [f32],
) -> Result<NearestLane, Refusal>
    ensures { Calls (λ (d : Decoded). nearest_from d (point x y z)) 0 file.now (nearest_by result)
        (lane_tables lanes.old points.old ends.old fans.old links.old
        sections.old bounds.old stations.old places.old cumulative.old
        tangents.old)
        (lane_tables lanes.new points.new ends.new fans.new links.new
        sections.new bounds.new stations.new places.new cumulative.new
        tangents.new) }
{
    let counts = open(
        file, 0, lanes, points, ends, fans, links, sections, bounds, stations, places, cumulative,
        tangents,
    )?;
    let n = counts.lanes;
    let m = counts.points;
    let p = Point { x, y, z };
    nearest_from(p, n, m, lanes, points, cumulative)
}
