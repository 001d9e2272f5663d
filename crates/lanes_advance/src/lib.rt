// The public call `advance`: every place a distance on along the lanes, from the file's bytes.
#![tactic(auto)]

ghost use Rattle.std.specs.Prelude.{◌≡◌, ◌*◌, take};
ghost use Rattle.plan_format.specs.Plan.{Decoded};
ghost use Rattle.tables.specs.LaneTables.{Calls, lane_tables};
ghost use Rattle.advance.specs.Advance.{advance_rows, advanced_of};
ghost use Rattle.advance.specs.InPlan.{advance_of};
ghost use Rattle.lanes_advance.specs.Advance.{AdvanceFronts, cut, position, with_lists};

use advance::Advanced;
use beside::LanePosition;
use branches::{Lanes, Plan};
use plan_format::{Counts, LaneId, Refusal};
use tables::open;

// The positions moved on from the front of each table, for a plan with these counts.
// The tables one by one, as the call has them: a struct here would be made for one use.
fn advance_from<'a>(
    from: LanePosition,
    distance: f64,
    counts: Counts,
    lanes: &'a [usize],
    points: &'a [f32],
    cumulative: &'a [f32],
    fans: &'a [usize],
    links: &'a [usize],
    sections: &'a [usize],
    bounds: &'a [f64],
    stations: &'a [f64],
    places: &'a [usize],
    rows: &mut [usize],
    positions: &mut [f64],
) -> Result<Advanced, Refusal>
    requires { AdvanceFronts counts lanes.now points.now cumulative.now fans.now links.now sections.now bounds.now
        stations.now places.now }
    ensures { with_lists (advanced_of result) rows.new positions.new
        ≡ advance_rows (cut counts lanes.now points.now cumulative.now fans.now
        links.now sections.now stations.now places.now)
        (take (2 * counts.sections) bounds.now) from distance rows.old positions.old }
{
    let plan = Plan {
        lanes: Lanes {
            rows: &lanes[..6 * counts.lanes],
            count: counts.lanes,
            points: &points[..3 * counts.points],
            cumulative: &cumulative[..counts.points],
        },
        fans: &fans[..5 * counts.lanes],
        links: &links[..2 * counts.links],
        sections: &sections[..4 * counts.sections],
        stations: &stations[..counts.stations],
        places: &places[..3 * counts.places],
        place_count: counts.places,
    };
    advance::advance(
        &plan,
        &bounds[..2 * counts.sections],
        from,
        distance,
        rows,
        positions,
    )
}

// Every place `distance` metres on from a position along the lanes: a row of case and lane, and one of s, offset and metres short, for each.
// Numbers 1 to 8, 12, 13 and 14. The tables come one by one, as C lends them.
#[tactic(auto, using(calling::specs::Calling::calls_refused))]
pub fn advance(
    file: &[u8],
    lane: LaneId,
    s: f64,
    offset: f64,
    distance: f64,
    lanes: &mut [usize],
    points: &mut [f32],
    ends: &mut [f32],
    fans: &mut [usize],
    links: &mut [usize],
    sections: &mut [usize],
    bounds: &mut [f64],
    stations: &mut [f64],
    places: &mut [usize],
    cumulative: &mut [f32],
    tangents: &mut [f32],
    rows: &mut [usize],
    positions: &mut [f64],
) -> Result<Advanced, Refusal>
    ensures { Calls
        (λ (d : Decoded). advance_of d (position lane s offset) distance rows.old positions.old) 0 file.now
        (with_lists (advanced_of result) rows.new positions.new)
        (lane_tables lanes.old points.old ends.old fans.old links.old
        sections.old bounds.old stations.old places.old cumulative.old
        tangents.old)
        (lane_tables lanes.new points.new ends.new fans.new links.new
        sections.new bounds.new stations.new places.new cumulative.new
        tangents.new) }
{
    let counts = open(
        file, 0, lanes, points, ends, fans, links, sections, bounds, stations, places, cumulative,
        tangents,
    )?;
    let from = LanePosition { lane, s, offset };
    advance_from(
        from, distance, counts, lanes, points, cumulative, fans, links, sections, bounds, stations,
        places, rows, positions,
    )
}
