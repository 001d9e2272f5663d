// advance.rs: branches in flight, the keys by which they are told apart, and where they go on. `specs/Branches.antt` and `specs/Front.antt` say
// what each function answers, `specs/Held.antt` how a `Front` holds branches and keys.
#![tactic(auto)]

ghost use Rattle.std.specs.Prelude.{◌≡◌, ◌+◌, ◌*◌, ◌<◌, ◌≤◌, Bool, false, ◌||◌, [], length, reverse, MatchOption};
ghost use Rattle.std.specs.List.{list_any};
ghost use Rattle.arrayvec.specs.ArrayVec.{array_vec_len};
ghost use Rattle.beside.specs.Sides.{direction_at};
ghost use Rattle.geometry.specs.Partition.{Rising};
ghost use Rattle.road.specs.Along.{Stationed};
ghost use Rattle.rows.specs.Rows.{arcs_of, direction_of, end_point, end_station, first_link, lane_number, length_of, place_of, placed_section};
ghost use Rattle.rows.specs.Rows.{points_of, predecessors, stations_of, successors};
ghost use Rattle.branches.specs.Tables.{AllLaid, Laid, Tabled, led_to, tables};
ghost use Rattle.branches.specs.Branches.{millimetres, side_of, room_of, exit_of, head_of, tail_of, away_from, at_end, is_next, up_on};
ghost use Rattle.branches.specs.Branches.{branch_onto};
ghost use Rattle.branches.specs.Branches.{key_of, link_end, link_count, same_key};
ghost use Rattle.branches.specs.Front.{enter};
ghost use Rattle.branches.specs.Links.{enter_link, enter_links};

use arrayvec::ArrayVec;
use beside::Direction;
use coords::Point;
use geometry::Polyline;

// One branch in flight: the row of its lane, how far along its centerline, which way it moves along it, its offset to the left of the traffic,
// and the distance still to go.
#[derive(Clone, Copy, Default)]
pub struct Branch {
    pub lane: usize,
    pub arc: f32,
    pub up: bool,
    pub left: f64,
    pub remaining: f64,
}

// A branch as it leaves its lane at `exit`.
#[derive(Clone, Copy)]
pub struct Leaving {
    pub lane: usize,
    pub up: bool,
    pub exit: Point,
    pub left: f64,
    pub remaining: f64,
}

// By what branches that enter a lane are told apart.
#[derive(Clone, Copy, Default, PartialEq, Eq)]
pub struct Key {
    pub lane: usize,
    pub arc: usize,
    pub remaining: usize,
    pub left: usize,
}

const MINUS_ONE: f64 = -1.0;

// Whole millimetres.
pub fn millimetres(m: f64) -> usize
    ensures { result ≡ millimetres m }
{
    float::saturating_f64_to_i64(float::round(m * 1000.0)).cast_unsigned() as usize
}

// Which way the traffic runs along the centerline, for a branch that moves `up` it: 1 along it.
pub fn side(ahead: bool, up: bool) -> f64
    ensures { result ≡ side_of ahead up }
{
    if up == ahead { 1.0 } else { MINUS_ONE }
}

// The metres of a lane of this length that are left to a branch.
pub fn room(up: bool, len: f32, arc: f32) -> f64
    ensures { result ≡ room_of up len arc }
{
    float::f32_to_f64(if up { len - arc } else { arc })
}

// The length of lane i. It asks of one lane alone, so it stands beside the method.
pub fn lane_length(lanes: &[usize], cumulative: &[f32], i: usize) -> f32
    requires { (6 * i + 5 < length lanes.now) × (end_point lanes.now i ≤ length cumulative.now)
        × (0 < length (arcs_of lanes.now cumulative.now i)) }
    ensures { result ≡ length_of lanes.now cumulative.now i }
{
    let first = lanes[6 * i + 4];
    let end = first + lanes[6 * i + 5];
    geometry::length(&cumulative[first..end])
}

// The functions up to `Lanes` ask only of the lanes, or the place, at hand: so they stand beside the methods, which ask of all.

// The points of lane i and the arc lengths at them.
pub fn lane_line<'a>(
    lanes: &[usize],
    points: &'a [f32],
    cumulative: &'a [f32],
    i: usize,
) -> Polyline<'a>
    requires { Laid lanes.now points.now cumulative.now i }
    ensures points { result.points.now ≡ points_of lanes.now points.now i }
    ensures arcs { result.cumulative.now ≡ arcs_of lanes.now cumulative.now i }
    ensures rising { Rising result.cumulative.now }
{
    let first = lanes[6 * i + 4];
    let end = first + lanes[6 * i + 5];
    Polyline {
        points: &points[3 * first..3 * end],
        cumulative: &cumulative[first..end],
    }
}

// The place at the end of lane i that a branch moving `up` it leaves by.
pub fn exit_point(lanes: &[usize], points: &[f32], cumulative: &[f32], i: usize, up: bool) -> Point
    requires { Laid lanes.now points.now cumulative.now i }
    ensures { result ≡ exit_of lanes.now points.now cumulative.now i up }
{
    let line = lane_line(lanes, points, cumulative, i);
    let s = if up {
        geometry::length(line.cumulative)
    } else {
        0.0
    };
    line.point_at(s)
}

// The first and the last point of lane i.
fn ends(lanes: &[usize], points: &[f32], cumulative: &[f32], i: usize) -> (Point, Point)
    requires { Laid lanes.now points.now cumulative.now i }
    ensures { result ≡ (head_of lanes.now points.now i, tail_of lanes.now points.now cumulative.now i) }
{
    let line = lane_line(lanes, points, cumulative, i);
    let last = line.cumulative.len() - 1;
    (
        geometry::vertex(line.points, 0),
        geometry::vertex(line.points, last),
    )
}

// The squared distance from p to the nearest place on lane i.
fn away(lanes: &[usize], points: &[f32], cumulative: &[f32], i: usize, p: Point) -> f32
    requires { Laid lanes.now points.now cumulative.now i }
    ensures { result ≡ away_from lanes.now points.now cumulative.now i p }
{
    let q = lane_line(lanes, points, cumulative, i).project(p).point;
    (q - p).length_squared()
}

// Whether the lane `next` joins lane i at the end that a branch moving `up` it leaves by, rather than at the other.
#[tactic(auto, unfolding(crate::specs::Branches::at_end))]
pub fn at_end(
    lanes: &[usize],
    points: &[f32],
    cumulative: &[f32],
    i: usize,
    next: usize,
    up: bool,
) -> bool
    requires { Laid lanes.now points.now cumulative.now i × Laid lanes.now points.now cumulative.now next }
    ensures { result ≡ at_end lanes.now points.now cumulative.now i next up }
{
    let (head, tail) = ends(lanes, points, cumulative, i);
    let from_head = away(lanes, points, cumulative, next, head);
    let from_tail = away(lanes, points, cumulative, next, tail);
    if up {
        return from_tail <= from_head;
    }
    from_head <= from_tail
}

// The stations of place p's section.
pub fn place_stations<'a>(
    sections: &[usize],
    stations: &'a [f64],
    places: &[usize],
    p: usize,
) -> &'a [f64]
    requires { (3 * p + 2 < length places.now) × (4 * placed_section places.now p + 3 < length sections.now)
        × (end_station sections.now (placed_section places.now p) ≤ length stations.now) }
    ensures { result.now ≡ stations_of sections.now stations.now (placed_section places.now p) }
{
    let j = places[3 * p + 1];
    let from = sections[4 * j + 2];
    let to = from + sections[4 * j + 3];
    &stations[from..to]
}

// The row after the links that are followed from lane i: successors ahead, predecessors back.
pub fn link_end(fans: &[usize], ahead: bool, i: usize) -> usize
    requires { (5 * i + 4 < length fans.now)
        × (first_link fans.now i + successors fans.now i + predecessors fans.now i < 4294967296) }
    ensures { result ≡ link_end fans.now ahead i }
{
    let after = fans[5 * i] + fans[5 * i + 1];
    if ahead {
        return after;
    }
    after + fans[5 * i + 2]
}

// How many they are.
pub fn link_count(fans: &[usize], ahead: bool, i: usize) -> usize
    requires { 5 * i + 4 < length fans.now }
    ensures { result ≡ link_count fans.now ahead i }
{
    fans[if ahead { 5 * i + 1 } else { 5 * i + 2 }]
}

// The lanes of an accepted plan: their rows, the points of their lines and the arc length at each. C gives the count apart; a list may hold more.
// A lane is its row, a plain index as in the Rust, so each method asks that it is one of `count`: a type of checked rows would be of these lanes
// alone, and made anew at each call.
#[derive(Clone, Copy)]
pub struct Lanes<'a> {
    pub rows: &'a [usize],
    pub count: usize,
    pub points: &'a [f32],
    pub cumulative: &'a [f32],
    pub ghost laid: { AllLaid rows.now count points.now cumulative.now },
}

impl<'a> Lanes<'a> {
    // The number of lane i.
    fn number(&self, i: usize) -> usize
        requires { i < self.now.count }
        ensures { result ≡ lane_number self.now.rows.now i }
    {
        let rows = self.rows;
        rows[6 * i]
    }

    // Which way its traffic runs.
    pub fn direction(&self, i: usize) -> Direction
        requires { i < self.now.count }
        ensures { result ≡ direction_at (direction_of self.now.rows.now i) }
    {
        let rows = self.rows;
        Direction::from(rows[6 * i + 2])
    }

    // Its points and the arc lengths at them.
    pub fn line(&self, i: usize) -> Polyline<'a>
        requires { i < self.now.count }
        ensures points { result.points.now ≡ points_of self.now.rows.now self.now.points.now i }
        ensures arcs { result.cumulative.now ≡ arcs_of self.now.rows.now self.now.cumulative.now i }
        ensures rising { Rising result.cumulative.now }
    {
        lane_line(self.rows, self.points, self.cumulative, i)
    }

    // Its length.
    pub fn length(&self, i: usize) -> f32
        requires { i < self.now.count }
        ensures { result ≡ length_of self.now.rows.now self.now.cumulative.now i }
    {
        lane_length(self.rows, self.cumulative, i)
    }

    // The place at the end of lane i that a branch moving `up` it leaves by.
    pub fn exit_point(&self, i: usize, up: bool) -> Point
        requires { i < self.now.count }
        ensures { result ≡ exit_of self.now.rows.now self.now.points.now self.now.cumulative.now i up }
    {
        exit_point(self.rows, self.points, self.cumulative, i, up)
    }

    // Whether the lane `next` joins lane i at the end that a branch moving `up` it leaves by, rather than at the other.
    pub fn at_end(&self, i: usize, next: usize, up: bool) -> bool
        requires { (i < self.now.count) × (next < self.now.count) }
        ensures { result ≡ at_end self.now.rows.now self.now.points.now self.now.cumulative.now i next up }
    {
        at_end(self.rows, self.points, self.cumulative, i, next, up)
    }

    // Whether a branch on lane i goes on to the lane in row `next`.
    #[tactic(auto, unfolding(crate::specs::Branches::is_next))]
    fn is_next(&self, i: usize, up: bool, next: usize) -> bool
        requires { i < self.now.count }
        ensures { result ≡ is_next self.now.rows.now self.now.count self.now.points.now self.now.cumulative.now i up next }
    {
        if self.count <= next {
            return false;
        }
        match self.direction(i) {
            Direction::Both => self.at_end(i, next, up),
            _ => true,
        }
    }

    // Which way a branch that comes from `exit` moves along lane i.
    #[tactic(auto, unfolding(crate::specs::Branches::up_on))]
    fn up_on(&self, ahead: bool, exit: Point, i: usize) -> bool
        requires { i < self.now.count }
        ensures { result ≡ up_on self.now.rows.now self.now.points.now self.now.cumulative.now ahead exit i }
    {
        match self.direction(i) {
            Direction::Forward => ahead,
            Direction::Backward => !ahead,
            _ => {
                let (head, tail) = ends(self.rows, self.points, self.cumulative, i);
                exit.distance_to(head) <= exit.distance_to(tail)
            }
        }
    }

    // The branch that enters the lane `next`.
    #[tactic(auto, unfolding(crate::specs::Branches::branch_onto))]
    fn onto(&self, ahead: bool, l: Leaving, next: usize) -> Branch
        requires { next < self.now.count }
        ensures { result ≡ branch_onto self.now.rows.now self.now.points.now self.now.cumulative.now ahead l next }
    {
        let up = self.up_on(ahead, l.exit, next);
        Branch {
            lane: next,
            arc: if up { 0.0 } else { self.length(next) },
            up,
            left: l.left,
            remaining: l.remaining,
        }
    }

    // The key of a branch.
    #[tactic(auto, unfolding(crate::specs::Branches::key_of))]
    fn key_of(&self, b: Branch) -> Key
        requires { b.lane < self.now.count }
        ensures { result ≡ key_of self.now.rows.now b }
    {
        Key {
            lane: self.number(b.lane),
            arc: float::to_bits(b.arc) as usize,
            remaining: millimetres(b.remaining),
            left: millimetres(b.left),
        }
    }
}

// The branches in flight and the keys entered, the newest last, and whether one more key would have been. Each key entered gave one branch, and at
// most two were there first. `full` is a state of the walk, as in the definition: no value stands beside it.
#[derive(Drop)]
pub struct Front {
    pub todo: ArrayVec<Branch, 1026>,
    pub keys: ArrayVec<Key, 1024>,
    pub full: bool,
    pub ghost balanced: { array_vec_len todo ≤ array_vec_len keys + 2 },
}

impl Front {
    ghost use Rattle.branches.specs.Held.{front_of, link_front_of};

    // No branch in flight, and no key entered.
    pub fn new() -> Self
        ensures todo { result.todo.items ≡ [] }
        ensures keys { result.keys.items ≡ [] }
        ensures full { result.full ≡ false }
    {
        Front {
            todo: ArrayVec::new(),
            keys: ArrayVec::new(),
            full: false,
        }
    }

    // Whether k was entered before; a key that comes again mostly does so soon.
    fn holds(&self, k: Key) -> bool
        ensures { result ≡ list_any (λ y. same_key y k) (reverse self.now.keys.items) }
    {
        self.keys.iter().rev().any(|held| *held == k)
    }

    // The branch b is put in flight unless its key was entered before, or does not fit.
    #[tactic(auto, unfolding(crate::specs::Front::enter), using(crate::specs::HeldLaws::holds_any, crate::specs::HeldLaws::pushed))]
    fn enter(&mut self, lanes: &Lanes, b: Branch)
        requires { b.lane < lanes.now.count }
        ensures { front_of self.new ≡ enter lanes.now.rows.now b (front_of self.old) }
    {
        let k = lanes.key_of(b);
        if self.holds(k) {
            return;
        }
        if self.keys.is_full() {
            self.full = true;
            return;
        }
        self.keys.push(k);
        self.todo.push(b);
    }

    // The branch l goes on to the lane in row `next` where that follows its own; answers whether it does.
    #[tactic(auto, unfolding(crate::specs::Links::enter_link), using(crate::specs::BranchLaws::next_there, crate::specs::BranchLaws::onto_lane))]
    fn enter_link(&mut self, lanes: &Lanes, ahead: bool, l: Leaving, next: usize) -> bool
        requires { l.lane < lanes.now.count }
        ensures { (any : Bool) → link_front_of self.new (any || result)
            ≡ enter_link lanes.now.rows.now lanes.now.count lanes.now.points.now lanes.now.cumulative.now ahead l next
            (link_front_of self.old any) }
    {
        if !lanes.is_next(l.lane, l.up, next) {
            return false;
        }
        self.enter(lanes, lanes.onto(ahead, l, next));
        true
    }

    // The branch l goes on along the `count` links before row `end`, from the last to the first; answers whether a lane follows. It takes the
    // tables that it reads, and no `Plan`, whose fact would ask for more.
    pub fn enter_links(
        &mut self,
        lanes: &Lanes,
        links: &[usize],
        end: usize,
        count: usize,
        ahead: bool,
        l: Leaving,
    ) -> bool
        requires { (l.lane < lanes.now.count) × (2 * end ≤ length links.now) × (count ≤ end) }
        ensures { link_front_of self.new result
            ≡ enter_links lanes.now.rows.now lanes.now.count lanes.now.points.now lanes.now.cumulative.now ahead l
            (led_to links.now end count) (front_of self.old) }
    {
        let mut any = false;
        for at in (end - count..end).rev() {
            let next = links[2 * at + 1];
            any |= self.enter_link(lanes, ahead, l, next);
        }
        any
    }
}

// The tables of an accepted plan that an advance reads, with so many places. C gives their count apart; a list may hold more rows.
#[derive(Clone, Copy)]
pub struct Plan<'a> {
    pub lanes: Lanes<'a>,
    pub fans: &'a [usize],
    pub links: &'a [usize],
    pub sections: &'a [usize],
    pub stations: &'a [f64],
    pub places: &'a [usize],
    pub place_count: usize,
    pub ghost tabled: { Tabled (tables lanes.rows.now lanes.count lanes.points.now lanes.cumulative.now fans.now links.now
        sections.now stations.now places.now place_count) },
}

impl<'a> Plan<'a> {
    // The place of lane i, if it has one.
    pub fn place(&self, i: usize) -> Option<Placed<'a>>
        requires { i < self.now.lanes.count }
        ensures { MatchOption result (self.now.place_count ≤ place_of self.now.fans.now i)
            (λ p. (p.plan ≡ self.now) × (p.lane ≡ i) × (p.row ≡ place_of self.now.fans.now i) × (p.row < self.now.place_count)) }
    {
        let row = beside::place_row(self.fans, self.place_count, i)?;
        Some(Placed {
            plan: *self,
            lane: i,
            row,
        })
    }

    // The row after the links that are followed from lane i: successors ahead, predecessors back.
    pub fn link_end(&self, ahead: bool, i: usize) -> usize
        requires { i < self.now.lanes.count }
        ensures { result ≡ link_end self.now.fans.now ahead i }
    {
        link_end(self.fans, ahead, i)
    }

    // How many they are.
    pub fn link_count(&self, ahead: bool, i: usize) -> usize
        requires { i < self.now.lanes.count }
        ensures { result ≡ link_count self.now.fans.now ahead i }
    {
        link_count(self.fans, ahead, i)
    }
}

// A lane that has a place, and the row of that.
#[derive(Clone, Copy)]
pub struct Placed<'a> {
    pub plan: Plan<'a>,
    pub lane: usize,
    pub row: usize,
    pub ghost there: { (lane < plan.lanes.count) × (row ≡ place_of plan.fans.now lane) × (row < plan.place_count) },
}

impl<'a> Placed<'a> {
    // The row of its section.
    pub fn section(&self) -> usize
        ensures { result ≡ placed_section self.now.plan.places.now self.now.row }
    {
        let places = self.plan.places;
        let p = self.row;
        places[3 * p + 1]
    }

    // The stations of that section, one for each point of the lane.
    pub fn stations(&self) -> &'a [f64]
        ensures stations { result.now ≡ stations_of self.now.plan.sections.now self.now.plan.stations.now
            (placed_section self.now.plan.places.now self.now.row) }
        ensures stationed { Stationed (points_of self.now.plan.lanes.rows.now self.now.plan.lanes.points.now self.now.lane)
            (arcs_of self.now.plan.lanes.rows.now self.now.plan.lanes.cumulative.now self.now.lane) result.now }
    {
        let plan = self.plan;
        place_stations(plan.sections, plan.stations, plan.places, self.row)
    }
}
