// The public call `nearest_lane` for C or Rust to link, with its contract. c/build makes one library of it and the other four.
#![tactic(auto)]

ghost use Rattle.plan_format.specs.Plan.{Decoded};
ghost use Rattle.nearest.specs.Nearest.{nearest_from};
ghost use Rattle.tables.specs.LaneTables.{Calls, lane_tables};
ghost use Rattle.calling.specs.Calling.{point};

use nearest::NearestAnswer;

// The tables come one by one, as C lends them.
#[unsafe(no_mangle)]
pub extern "C" fn kartsodi_nearest_lane(
    file: &[u8],
    x: f32,
    y: f32,
    z: f32,
    lanes: &mut [usize],
    points: &mut [f32],
    ends: &mut [f32],
    fans: &mut [usize],
    links: &mut [usize],
    sections: &mut [usize],
    bounds: &mut [f64],
    stations: &mut [f64],
    places: &mut [usize],
    cumulative: &mut [f32],
    tangents: &mut [f32],
) -> NearestAnswer
    ensures { Calls (λ (d : Decoded). nearest_from d (point x y z)) 0 file.now result
        (lane_tables lanes.old points.old ends.old fans.old links.old
        sections.old bounds.old stations.old places.old cumulative.old
        tangents.old)
        (lane_tables lanes.new points.new ends.new fans.new links.new
        sections.new bounds.new stations.new places.new cumulative.new
        tangents.new) }
{
    NearestAnswer::from(lanes_nearest::nearest_lane(
        file, x, y, z, lanes, points, ends, fans, links, sections, bounds, stations, places,
        cumulative, tangents,
    ))
}
