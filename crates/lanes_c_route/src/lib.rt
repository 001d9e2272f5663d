// The public call `route` for C or Rust to link, with its contract, demand 3 included. c/build makes one library of it and the other four.
#![tactic(auto)]

ghost use Rattle.plan_format.specs.Plan.{Decoded};
ghost use Rattle.tables.specs.LaneTables.{Calls, lane_tables};
ghost use Rattle.calling.specs.Calling.{point};
ghost use Rattle.lanes_route.specs.Route.{lists_of, route_of};
ghost use Rattle.lanes_promise.specs.Promise.{Demand3};

use route::RouteAnswer;

// The tables come one by one, as C lends them.
#[unsafe(no_mangle)]
pub extern "C" fn kartsodi_route(
    file: &[u8],
    x: f32,
    y: f32,
    z: f32,
    u: f32,
    v: f32,
    w: f32,
    lanes: &mut [usize],
    points: &mut [f32],
    ends: &mut [f32],
    fans: &mut [usize],
    links: &mut [usize],
    sections: &mut [usize],
    bounds: &mut [f64],
    stations: &mut [f64],
    places: &mut [usize],
    cumulative: &mut [f32],
    tangents: &mut [f32],
    chain: &mut [usize],
    waypoints: &mut [f32],
) -> RouteAnswer
    ensures calls { Calls
        (λ (d : Decoded). route_of d (point x y z) (point u v w) chain.old waypoints.old) 0 file.now
        (lists_of result chain.new waypoints.new)
        (lane_tables lanes.old points.old ends.old fans.old links.old
        sections.old bounds.old stations.old places.old cumulative.old
        tangents.old)
        (lane_tables lanes.new points.new ends.new fans.new links.new
        sections.new bounds.new stations.new places.new cumulative.new
        tangents.new) }
    ensures promise { Demand3 file.now
        (lane_tables lanes.old points.old ends.old fans.old links.old
        sections.old bounds.old stations.old places.old cumulative.old
        tangents.old)
        (point x y z) (point u v w) chain.old waypoints.old result chain.new waypoints.new }
{
    RouteAnswer::from(lanes_promise::route(
        file, x, y, z, u, v, w, lanes, points, ends, fans, links, sections, bounds, stations,
        places, cumulative, tangents, chain, waypoints,
    ))
}
