// The public call `beside` for C or Rust to link, with its contract. c/build makes one library of it and the other four.
#![tactic(auto)]

ghost use Rattle.plan_format.specs.Plan.{Decoded};
ghost use Rattle.beside.specs.InPlan.{beside_of};
ghost use Rattle.tables.specs.LaneTables.{Calls, lane_tables};
ghost use Rattle.lanes_beside.specs.Beside.{centerline};

use beside::BesideAnswer;
use plan_format::LaneId;

// The tables come one by one, as C lends them.
#[unsafe(no_mangle)]
pub extern "C" fn kartsodi_beside(
    file: &[u8],
    lane: LaneId,
    s: f64,
    side: usize,
    lanes: &mut [usize],
    points: &mut [f32],
    ends: &mut [f32],
    fans: &mut [usize],
    links: &mut [usize],
    sections: &mut [usize],
    bounds: &mut [f64],
    stations: &mut [f64],
    places: &mut [usize],
    cumulative: &mut [f32],
    tangents: &mut [f32],
) -> BesideAnswer
    ensures { Calls (λ (d : Decoded). beside_of d (centerline lane s) side) side file.now result
        (lane_tables lanes.old points.old ends.old fans.old links.old
        sections.old bounds.old stations.old places.old cumulative.old
        tangents.old)
        (lane_tables lanes.new points.new ends.new fans.new links.new
        sections.new bounds.new stations.new places.new cumulative.new
        tangents.new) }
{
    BesideAnswer::from(lanes_beside::beside(
        file, lane, s, side, lanes, points, ends, fans, links, sections, bounds, stations, places,
        cumulative, tangents,
    ))
}
