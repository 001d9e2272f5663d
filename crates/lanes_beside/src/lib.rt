// The public call `beside`: the lane on the left or the right of a position, from the file's bytes.
#![tactic(auto)]

ghost use Rattle.std.specs.Prelude.{◌≡◌, ◌*◌, take};
ghost use Rattle.plan_format.specs.Plan.{Decoded};
ghost use Rattle.tables.specs.LaneTables.{Calls, lane_tables};
ghost use Rattle.beside.specs.Beside.{answer_of, beside_rows};
ghost use Rattle.beside.specs.InPlan.{beside_of};
ghost use Rattle.lanes_beside.specs.Beside.{BesideFronts, centerline};

use beside::{LanePosition, Seats};
use plan_format::{Counts, LaneId, Refusal};
use tables::open;

// The lane beside from the front of each table, for a plan with these counts.
// The tables one by one, as the call has them: a struct here would be made for one use.
fn beside_from<'a>(
    at: LanePosition,
    side: usize,
    counts: Counts,
    lanes: &'a [usize],
    fans: &'a [usize],
    places: &'a [usize],
    bounds: &'a [f64],
) -> Result<LanePosition, Refusal>
    requires { BesideFronts counts lanes.now fans.now places.now bounds.now }
    ensures { answer_of result ≡ beside_rows (take (6 * counts.lanes) lanes.now) counts.lanes
        (take (5 * counts.lanes) fans.now) (take (3 * counts.places) places.now) counts.places
        (take (2 * counts.sections) bounds.now) at side }
{
    let seats = Seats {
        lanes: &lanes[..6 * counts.lanes],
        lane_count: counts.lanes,
        fans: &fans[..5 * counts.lanes],
        places: &places[..3 * counts.places],
        place_count: counts.places,
        bounds: &bounds[..2 * counts.sections],
    };
    beside::beside(seats, at, side)
}

// The lane beside a position at s on a lane: side 0 for the left of its traffic, 1 for the right. Numbers 1 to 8, where 5 is also another side;
// 12 and 15. The tables come one by one, as C lends them.
#[tactic(auto, using(calling::specs::Calling::calls_refused))]
pub fn beside(
    file: &[u8],
    lane: LaneId,
    s: f64,
    side: usize,
    lanes: &mut [usize],
    points: &mut [f32],
    ends: &mut [f32],
    fans: &mut [usize],
    links: &mut [usize],
    sections: &mut [usize],
    bounds: &mut [f64],
    stations: &mut [f64],
    places: &mut [usize],
    cumulative: &mut [f32],
    tangents: &mut [f32],
) -> Result<LanePosition, Refusal>
    ensures { Calls (λ (d : Decoded). beside_of d (centerline lane s) side) side file.now (answer_of result)
        (lane_tables lanes.old points.old ends.old fans.old links.old
        sections.old bounds.old stations.old places.old cumulative.old
        tangents.old)
        (lane_tables lanes.new points.new ends.new fans.new links.new
        sections.new bounds.new stations.new places.new cumulative.new
        tangents.new) }
{
    let counts = open(
        file, side, lanes, points, ends, fans, links, sections, bounds, stations, places,
        cumulative, tangents,
    )?;
    let at = LanePosition {
        lane,
        s,
        offset: 0.0,
    };
    beside_from(at, side, counts, lanes, fans, places, bounds)
}
