// What `plan-run` prints of a file, piece by piece: the plan line, then the reply to each query in file order. Each query is answered by its public
// call, from the file's bytes, over tables that live for that call alone.
#![tactic(auto)]

ghost use Rattle.std.specs.Prelude.{◌≡◌, ◌+◌, ◌≤◌, length};
ghost use Rattle.arrayvec.specs.ArrayVec.{array_vec_len};
ghost use Rattle.plan_format.specs.declared.Query.TheVariants.{Advance, Beside, Route};
ghost use Rattle.text.specs.Page.{Adds};
ghost use Rattle.replies.specs.Lent.{lent, lent_from};
ghost use Rattle.replies.specs.Printed.{Writes, first_part, next_part, reply_to, room};

use advance::Advanced;
use arrayvec::ArrayVec;
use beside::BesideAnswer;
use plan_format::{LaneId, Query};
use plan_queries::next_query;
use plan_scan::RecordStarts;
use route::RouteAnswer;

// The tables of a call, on the stack and as long as the limits ask: there is no heap, and the C calls take the tables one by one.
#[derive(Drop)]
struct Tables {
    lanes: [usize; 1536],
    points: [f32; 12288],
    ends: [f32; 1536],
    fans: [usize; 1280],
    links: [usize; 4096],
    sections: [usize; 256],
    bounds: [f64; 128],
    stations: [f64; 4096],
    places: [usize; 768],
    cumulative: [f32; 4096],
    tangents: [f32; 12288],
}

impl Tables {
    fn new() -> Self
        ensures { lent_from result ≡ lent }
    {
        Tables {
            lanes: [0; 1536],
            points: [0.0; 12288],
            ends: [0.0; 1536],
            fans: [0; 1280],
            links: [0; 4096],
            sections: [0; 256],
            bounds: [0.0; 128],
            stations: [0.0; 4096],
            places: [0; 768],
            cumulative: [0.0; 4096],
            tangents: [0.0; 12288],
        }
    }
}

// A reply asks for room on the page, as those below do: a ghost field of the page would no longer hold once a reply stands there.
// The six floats are a query's, as the public call takes them. The lists are as long as document 01's limits ask.
fn route_reply<const N: usize>(
    file: &[u8],
    x: f32,
    y: f32,
    z: f32,
    u: f32,
    v: f32,
    w: f32,
    page: &mut ArrayVec<u8, N>,
)
    requires { array_vec_len page.old + room ≤ N }
    ensures { Adds (reply_to file.now (Route x y z u v w)) room page.old page.new }
{
    let mut t = Tables::new();
    let mut chain = [0usize; 257];
    let mut waypoints = [0f32; 12288];
    let answer = lanes::route(
        file,
        x,
        y,
        z,
        u,
        v,
        w,
        &mut t.lanes,
        &mut t.points,
        &mut t.ends,
        &mut t.fans,
        &mut t.links,
        &mut t.sections,
        &mut t.bounds,
        &mut t.stations,
        &mut t.places,
        &mut t.cumulative,
        &mut t.tangents,
        &mut chain,
        &mut waypoints,
    );
    // as C's struct, since the text has document 01's number, of a refusal too
    let a = RouteAnswer::from(answer);
    let lanes = &chain[..a.lanes];
    let points = &waypoints[..3 * a.points];
    text::route_text(page, a.number, a.length, lanes, points);
}

// The lists are as long as document 01's limits ask.
fn advance_reply<const N: usize>(
    file: &[u8],
    lane: LaneId,
    s: f64,
    offset: f64,
    distance: f64,
    page: &mut ArrayVec<u8, N>,
)
    requires { array_vec_len page.old + room ≤ N }
    ensures { Adds (reply_to file.now (Advance lane s offset distance)) room page.old page.new }
{
    let mut t = Tables::new();
    let mut rows = [0usize; 512];
    let mut metres = [0f64; 768];
    let answer = lanes::advance(
        file,
        lane,
        s,
        offset,
        distance,
        &mut t.lanes,
        &mut t.points,
        &mut t.ends,
        &mut t.fans,
        &mut t.links,
        &mut t.sections,
        &mut t.bounds,
        &mut t.stations,
        &mut t.places,
        &mut t.cumulative,
        &mut t.tangents,
        &mut rows,
        &mut metres,
    );
    // as C's struct, since the text has document 01's number, of a refusal too
    let a = Advanced::from(answer);
    let rows = &rows[..2 * a.positions];
    let metres = &metres[..3 * a.positions];
    text::advance_text(page, a.number, a.keys, rows, metres);
}

fn beside_reply<const N: usize>(
    file: &[u8],
    lane: LaneId,
    s: f64,
    side: usize,
    page: &mut ArrayVec<u8, N>,
)
    requires { array_vec_len page.old + room ≤ N }
    ensures { Adds (reply_to file.now (Beside lane s side)) room page.old page.new }
{
    let mut t = Tables::new();
    let answer = lanes::beside(
        file,
        lane,
        s,
        side,
        &mut t.lanes,
        &mut t.points,
        &mut t.ends,
        &mut t.fans,
        &mut t.links,
        &mut t.sections,
        &mut t.bounds,
        &mut t.stations,
        &mut t.places,
        &mut t.cumulative,
        &mut t.tangents,
    );
    // as C's struct, since the text has document 01's number, of a refusal too
    let a = BesideAnswer::from(answer);
    let at = a.at;
    let id = at.lane;
    text::beside_text(page, a.number, id.0, at.s, at.offset);
}

// The reply to one query.
fn reply<const N: usize>(file: &[u8], q: Query, page: &mut ArrayVec<u8, N>)
    requires { array_vec_len page.old + room ≤ N }
    ensures { Adds (reply_to file.now q) room page.old page.new }
{
    match q {
        Query::Route(x, y, z, u, v, w) => route_reply(file, x, y, z, u, v, w, page),
        Query::Advance(lane, s, offset, distance) => {
            advance_reply(file, lane, s, offset, distance, page)
        }
        Query::Beside(lane, s, side) => beside_reply(file, lane, s, side, page),
    }
}

// Leaves the plan line on the page, and answers from which place in the file on queries follow, where it is a plan.
pub fn first_piece<const N: usize>(file: &[u8], page: &mut ArrayVec<u8, N>) -> Option<usize>
    requires { room ≤ N }
    ensures { Writes (first_part file.now) result page.new }
{
    let mut starts = RecordStarts::new();
    // the row of each lane number, with an entry for every number
    let mut index = [0u16; 65536];
    page.clear();
    match plan::check(file, 0, &mut starts, &mut index) {
        Ok(c) => {
            text::plan_text(page, 0, c.lanes, c.links);
            Some(0)
        }
        Err(refusal) => {
            text::plan_text(page, refusal.number(), 0, 0);
            None
        }
    }
}

// Leaves the reply to the first query from `at` on, and answers from which place on more may follow; nothing where there is none.
pub fn next_piece<const N: usize>(
    file: &[u8],
    at: usize,
    page: &mut ArrayVec<u8, N>,
) -> Option<usize>
    requires { room ≤ N }
    ensures { Writes (next_part file.now at) result page.new }
{
    page.clear();
    match next_query(file, at) {
        Some((q, next)) => {
            reply(file, q, page);
            Some(next)
        }
        None => None,
    }
}
