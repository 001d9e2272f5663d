// The queries over the rows of a loaded plan, for Rust or C to link, each with its contract: to time them apart from loading the file.
// The caller keeps what a `requires` says, by tables that `kartsodi_open` filled, cut to the plan's rows.
#![tactic(auto)]

ghost use Rattle.std.specs.Prelude.{◌≡◌, ◌*◌, ◌≤◌, length};
ghost use Rattle.advance.specs.Advance.{AnswerOf, advance_rows};
ghost use Rattle.beside.specs.Beside.{beside_rows};
ghost use Rattle.beside.specs.Seated.{Seated};
ghost use Rattle.branches.specs.Tables.{tables, Tabled, Bounded};
ghost use Rattle.network.specs.Lanes.{driving, drives_table};
ghost use Rattle.network.specs.Nearest.{grid_for, nearest_of};
ghost use Rattle.network.specs.Tables.{Built, Index, Room, Rows, lanes_from, span_list, told};
ghost use Rattle.plan_format.specs.Reading.{opened};
ghost use Rattle.route.specs.Route.{Routable, Routes, fitted, routed};
ghost use Rattle.sampling.specs.Sampling.{route_tables};
ghost use Rattle.queries_c.specs.Hit.{as_hit};
ghost use Rattle.tables.specs.LaneTables.{Opens, lane_tables, too_short};

use advance::Advanced;
use beside::{BesideAnswer, LanePosition, Seats};
use branches::{Lanes, Plan};
use coords::Point;
use geometry::Projection;
use network::{LaneIndex, Nearest, Spans};
use plan_format::Read;
use route::RouteAnswer;

// `Nearest` for C: zeros where nothing is found. `found` is a flag for C, which has no Option.
#[repr(C)]
#[derive(Clone, Copy, Default)]
pub struct Hit {
    pub found: bool,
    pub dist2: f32,
    pub span: usize,
    pub row: usize,
    pub projection: Projection,
}

impl From<Option<Nearest>> for Hit {
    ghost from_gives = { λ found hit. hit ≡ as_hit found };

    fn from(found: Option<Nearest>) -> Hit {
        match found {
            Some(nearest) => Hit {
                found: true,
                dist2: nearest.dist2,
                span: nearest.span,
                row: nearest.row,
                projection: nearest.projection,
            },
            None => Hit::default(),
        }
    }
}

// The tables come one by one, as C lends them, here and below.
#[unsafe(no_mangle)]
pub extern "C" fn kartsodi_open(
    file: &[u8],
    side: usize,
    lanes: &mut [usize],
    points: &mut [f32],
    ends: &mut [f32],
    fans: &mut [usize],
    links: &mut [usize],
    sections: &mut [usize],
    bounds: &mut [f64],
    stations: &mut [f64],
    places: &mut [usize],
    cumulative: &mut [f32],
    tangents: &mut [f32],
) -> Read
    ensures { Opens
        (opened
        (too_short
        (lane_tables lanes.old points.old ends.old fans.old links.old
        sections.old bounds.old stations.old places.old cumulative.old
        tangents.old))
        side file.now)
        result
        (lane_tables lanes.old points.old ends.old fans.old links.old
        sections.old bounds.old stations.old places.old cumulative.old
        tangents.old)
        (lane_tables lanes.new points.new ends.new fans.new links.new
        sections.new bounds.new stations.new places.new cumulative.new
        tangents.new) }
{
    Read::from(tables::open(
        file, side, lanes, points, ends, fans, links, sections, bounds, stations, places,
        cumulative, tangents,
    ))
}

#[unsafe(no_mangle)]
pub extern "C" fn kartsodi_driving(
    lanes: &[usize],
    n: usize,
    points: &[f32],
    spans: &mut [usize],
    boxes: &mut [f32],
    ranges: &mut [usize],
) -> LaneIndex
    requires { Rows lanes.now points.now drives_table n
        × Room (driving drives_table (lanes_from lanes.now points.now n 0)) 0 spans.old boxes.old
        × (4 * length (driving drives_table (lanes_from lanes.now points.now n 0)) ≤ length ranges.old) }
    ensures { Built (driving drives_table (lanes_from lanes.now points.now n 0)) result
        spans.old spans.new boxes.old boxes.new ranges.old ranges.new }
{
    network::driving(lanes, n, points, spans, boxes, ranges)
}

#[unsafe(no_mangle)]
pub extern "C" fn kartsodi_nearest_indexed(
    lanes: &[usize],
    points: &[f32],
    cumulative: &[f32],
    spans: &[usize],
    boxes: &[f32],
    ranges: &[usize],
    index: LaneIndex,
    p: Point,
) -> Hit
    requires { Index lanes.now points.now cumulative.now spans.now boxes.now ranges.now index
        × (index.grid ≡ grid_for (span_list lanes.now points.now spans.now boxes.now index.count 0)) }
    ensures { result ≡ as_hit (told (nearest_of
        (span_list lanes.now points.now spans.now boxes.now index.count 0) p)) }
{
    let spans = Spans {
        lanes,
        points,
        cumulative,
        spans,
        boxes,
        ranges,
        index,
    };
    Hit::from(spans.nearest_lane(p))
}

#[unsafe(no_mangle)]
pub extern "C" fn kartsodi_route_rows(
    from: Point,
    to: Point,
    lanes: &[usize],
    n: usize,
    points: &[f32],
    cumulative: &[f32],
    fans: &[usize],
    links: &[usize],
    chain: &mut [usize],
    waypoints: &mut [f32],
) -> RouteAnswer
    requires { Routable (route_tables lanes.now points.now cumulative.now fans.now links.now) n }
    ensures { Routes (fitted (length chain.old) (length waypoints.old)
        (routed (route_tables lanes.now points.now cumulative.now fans.now links.now)
        n (lanes_from lanes.now points.now n 0) from to)) result chain.old chain.new waypoints.old
        waypoints.new }
{
    RouteAnswer::from(route::route(
        from, to, lanes, n, points, cumulative, fans, links, chain, waypoints,
    ))
}

#[unsafe(no_mangle)]
pub extern "C" fn kartsodi_advance_rows<'a>(
    lanes: &'a [usize],
    n: usize,
    points: &'a [f32],
    cumulative: &'a [f32],
    fans: &'a [usize],
    links: &'a [usize],
    sections: &'a [usize],
    bounds: &[f64],
    stations: &'a [f64],
    places: &'a [usize],
    m: usize,
    from: LanePosition,
    distance: f64,
    rows: &mut [usize],
    positions: &mut [f64],
) -> Advanced
    requires { Tabled (tables lanes.now n points.now cumulative.now fans.now links.now sections.now stations.now
        places.now m) × Bounded fans.now places.now m bounds.now n }
    ensures { AnswerOf result rows.new positions.new
        (advance_rows (tables lanes.now n points.now cumulative.now fans.now links.now
        sections.now stations.now places.now m) bounds.now from distance
        rows.old positions.old) }
{
    let plan = Plan {
        lanes: Lanes {
            rows: lanes,
            count: n,
            points,
            cumulative,
        },
        fans,
        links,
        sections,
        stations,
        places,
        place_count: m,
    };
    Advanced::from(advance::advance(&plan, bounds, from, distance, rows, positions))
}

#[unsafe(no_mangle)]
pub extern "C" fn kartsodi_beside_rows<'a>(
    lanes: &'a [usize],
    n: usize,
    fans: &'a [usize],
    places: &'a [usize],
    m: usize,
    bounds: &'a [f64],
    at: LanePosition,
    side: usize,
) -> BesideAnswer
    requires { Seated lanes.now n fans.now places.now m bounds.now }
    ensures { result ≡ beside_rows lanes.now n fans.now places.now m bounds.now at side }
{
    let seats = Seats {
        lanes,
        lane_count: n,
        fans,
        places,
        place_count: m,
        bounds,
    };
    BesideAnswer::from(beside::beside(seats, at, side))
}
