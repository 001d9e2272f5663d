// The public call `route`: the route from one point to another, from the file's bytes.
#![tactic(auto)]

ghost use Rattle.std.specs.Prelude.{length};
ghost use Rattle.plan_format.specs.Plan.{Decoded};
ghost use Rattle.tables.specs.LaneTables.{Calls, lane_tables};
ghost use Rattle.route.specs.Route.{Routes, fitted, routed};
ghost use Rattle.route.specs.Structs.{answered};
ghost use Rattle.calling.specs.Calling.{point};
ghost use Rattle.lanes_route.specs.Route.{RouteFronts, cut, front_lanes, route_of, lists_of};

use coords::Point;
use plan_format::{Counts, Refusal};
use route::RouteAnswer;
use tables::open;

// The route from the front of each table, for a plan with these counts.
// The tables one by one, as the call has them: a struct here would be made for one use.
fn route_from(
    from: Point,
    to: Point,
    counts: Counts,
    lanes: &[usize],
    points: &[f32],
    cumulative: &[f32],
    fans: &[usize],
    links: &[usize],
    chain: &mut [usize],
    waypoints: &mut [f32],
) -> Result<RouteAnswer, Refusal>
    requires { RouteFronts counts lanes.now points.now cumulative.now fans.now links.now }
    ensures { Routes (fitted (length chain.old) (length waypoints.old)
        (routed (cut counts lanes.now points.now cumulative.now fans.now links.now)
        counts.lanes (front_lanes counts lanes.now points.now) from to))
        (answered result) chain.old chain.new waypoints.old waypoints.new }
{
    let n = counts.lanes;
    let q = counts.points;
    let v = counts.links;
    let a = 6 * n;
    let b = 3 * q;
    let d = 5 * n;
    let e = 2 * v;
    let ls = &lanes[..a];
    let xs = &points[..b];
    let cs = &cumulative[..q];
    let fs = &fans[..d];
    let ks = &links[..e];
    route::route(from, to, ls, n, xs, cs, fs, ks, chain, waypoints)
}

// The route from the point (x, y, z) to the point (u, v, w): the numbers of its lanes in `chain`, x y z of its points in `waypoints`.
// Numbers 1 to 8, 9 where a coordinate is not finite, 10 where no lane drives, 11 where the goal does not lie ahead on the same lane and no
// chain leads to it, 14 where the lists do not hold the answer.
// The tables come one by one, as C lends them.
pub fn route(
    file: &[u8],
    x: f32,
    y: f32,
    z: f32,
    u: f32,
    v: f32,
    w: f32,
    lanes: &mut [usize],
    points: &mut [f32],
    ends: &mut [f32],
    fans: &mut [usize],
    links: &mut [usize],
    sections: &mut [usize],
    bounds: &mut [f64],
    stations: &mut [f64],
    places: &mut [usize],
    cumulative: &mut [f32],
    tangents: &mut [f32],
    chain: &mut [usize],
    waypoints: &mut [f32],
) -> Result<RouteAnswer, Refusal>
    ensures { Calls
        (λ (d : Decoded). route_of d (point x y z) (point u v w) chain.old waypoints.old) 0 file.now
        (lists_of (answered result) chain.new waypoints.new)
        (lane_tables lanes.old points.old ends.old fans.old links.old
        sections.old bounds.old stations.old places.old cumulative.old
        tangents.old)
        (lane_tables lanes.new points.new ends.new fans.new links.new
        sections.new bounds.new stations.new places.new cumulative.new
        tangents.new) }
{
    let counts = open(
        file, 0, lanes, points, ends, fans, links, sections, bounds, stations, places, cumulative,
        tangents,
    )?;
    let from = Point { x, y, z };
    let to = Point { x: u, y: v, z: w };
    route_from(
        from, to, counts, lanes, points, cumulative, fans, links, chain, waypoints,
    )
}
