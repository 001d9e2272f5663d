// The public call `advance` for C or Rust to link, with its contract. c/build makes one library of it and the other four.
#![tactic(auto)]

ghost use Rattle.plan_format.specs.Plan.{Decoded};
ghost use Rattle.advance.specs.InPlan.{advance_of};
ghost use Rattle.tables.specs.LaneTables.{Calls, lane_tables};
ghost use Rattle.lanes_advance.specs.Advance.{position, with_lists};

use advance::Advanced;
use plan_format::LaneId;

// The tables come one by one, as C lends them.
#[unsafe(no_mangle)]
pub extern "C" fn kartsodi_advance(
    file: &[u8],
    lane: LaneId,
    s: f64,
    offset: f64,
    distance: f64,
    lanes: &mut [usize],
    points: &mut [f32],
    ends: &mut [f32],
    fans: &mut [usize],
    links: &mut [usize],
    sections: &mut [usize],
    bounds: &mut [f64],
    stations: &mut [f64],
    places: &mut [usize],
    cumulative: &mut [f32],
    tangents: &mut [f32],
    rows: &mut [usize],
    positions: &mut [f64],
) -> Advanced
    ensures { Calls
        (λ (d : Decoded). advance_of d (position lane s offset) distance rows.old positions.old) 0 file.now
        (with_lists result rows.new positions.new)
        (lane_tables lanes.old points.old ends.old fans.old links.old
        sections.old bounds.old stations.old places.old cumulative.old
        tangents.old)
        (lane_tables lanes.new points.new ends.new fans.new links.new
        sections.new bounds.new stations.new places.new cumulative.new
        tangents.new) }
{
    Advanced::from(lanes_advance::advance(
        file, lane, s, offset, distance, lanes, points, ends, fans, links, sections, bounds,
        stations, places, cumulative, tangents, rows, positions,
    ))
}
