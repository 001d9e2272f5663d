// route.rs without the search: the points of a path of lanes. A lane is its row in the plan's tables. `specs/Sampling.antt` says which points are
// sampled, `specs/Kept.antt` which of them are kept and how they stand in a list.
#![tactic(auto)]

ghost use Rattle.std.specs.Prelude.{◌≡◌, ◌*◌, ◌+◌, ◌-◌, ◌/◌, ◌<◌, ◌≤◌, length};
ghost use Rattle.beside.specs.Sides.{direction_number};
ghost use Rattle.geometry.specs.Locate.{point_along};
ghost use Rattle.geometry.specs.Partition.{Rising};
ghost use Rattle.rows.specs.Rows.{arcs_of, points_of};
ghost use Rattle.sampling.specs.Kept.{is_fresh, pushing, put_at, putting};
ghost use Rattle.sampling.specs.Sampling.{changes_off, entry_on, exit_at, exit_for, is_ahead, is_forward, leads};
ghost use Rattle.sampling.specs.Sampling.{point_on, sample_at, sample_route, steps_of, toward, travel_end};
ghost use Rattle.sampling.specs.Passes.{AllLinked, Linking, PathRows, Sampled, SegmentSampled};

use beside::Direction;
use branches::Lanes;
use coords::Point;
use geometry::Polyline;
use lists::put_row;

// The lanes of an accepted plan, and the links between them.
#[derive(Clone, Copy)]
pub struct LinkedLanes<'a> {
    pub lanes: Lanes<'a>,
    pub fans: &'a [usize],
    pub links: &'a [usize],
    pub ghost linked: { AllLinked fans.now lanes.count links.now },
}

// How many points a list has room for. One more than that can be counted.
#[derive(Clone, Copy)]
pub struct Room {
    pub points: usize,
    pub ghost countable: { points < 18446744073709551615 },
}

impl Room {
    // The room in a list of x y z of each.
    pub fn of(list: &[f32]) -> Room
        ensures { result.points ≡ length list.now / 3 }
    {
        Room {
            points: list.len() / 3,
        }
    }
}

// How many points are kept, and the last of them.
#[derive(Clone, Copy, Default)]
pub struct Kept {
    pub count: usize,
    pub last: Point,
}

// Waypoint spacing.
const ROUTE_STEP: f32 = 2.0;
// How far to drive along a lane before a lane change.
const LANE_CHANGE_DIST: f32 = 10.0;

// Whether `to` is reachable from `from` along a lane of this direction.
#[tactic(auto, unfolding(crate::specs::Sampling::is_ahead))]
pub fn ahead(direction: Direction, from: f32, to: f32) -> bool
    ensures { result ≡ is_ahead (direction_number direction) from to }
{
    match direction {
        Direction::Forward => to >= from,
        Direction::Backward => to <= from,
        _ => true,
    }
}

// `dist` on from `from` toward `end`, without overshooting it.
#[tactic(auto, unfolding(crate::specs::Sampling::toward))]
fn advance(from: f32, end: f32, dist: f32) -> f32
    ensures { result ≡ toward from end dist }
{
    let step = float::signum(end - from) * dist;
    float::clamp(from + step, float::min(from, end), float::max(from, end))
}

// Writes p as point i, where the list has room.
fn put(out: &mut [f32], i: usize, p: Point)
    ensures { out.new ≡ put_at out.old i p }
{
    if Room::of(out).points <= i {
        return;
    }
    put_row(&[p.x, p.y, p.z], out, 3 * i);
}

// How many steps a span takes.
#[tactic(auto, unfolding(crate::specs::Sampling::steps_of))]
fn steps_of(span: f32) -> usize
    ensures { result ≡ steps_of span }
{
    float::saturating_f32_to_usize(float::max(float::ceil(float::abs(span) / ROUTE_STEP), 1.0))
}

// The arc length of sample k of a span.
fn sample_at(entry: f32, span: f32, steps: usize, k: usize) -> f32
    ensures { result ≡ sample_at entry span steps k }
{
    let t = float::nearest_usize_to_f32(k) / float::nearest_usize_to_f32(steps);
    entry + span * t
}

impl Kept {
    // Whether p is farther than squared distance 1e-6 from the last point.
    #[tactic(auto, unfolding(crate::specs::Kept::is_fresh))]
    fn is_fresh(&self, p: Point) -> bool
        ensures { result ≡ is_fresh self.now p }
    {
        self.count == 0 || self.last.distance_squared_to(p) > 1e-6
    }

    // Keeps p unless it is within squared distance 1e-6 of the last point.
    fn push_dedup(&mut self, p: Point, out: &mut [f32])
        requires { self.old.count < 18446744073709551615 }
        ensures kept { self.new ≡ pushing self.old p }
        ensures written { out.new ≡ putting self.old p out.old }
    {
        if self.is_fresh(p) {
            put(out, self.count, p);
            self.count += 1;
            self.last = p;
        }
    }

    // Points along a lane's centerline from arc length `entry` to `exit`, spaced ~`ROUTE_STEP`; no more once over `room` are kept.
    fn sample_segment(&mut self, line: Polyline, entry: f32, exit: f32, room: Room, out: &mut [f32])
        requires { Rising line.cumulative.now × (self.old.count ≤ room.points) }
        ensures { SegmentSampled line.entry.points.now line.entry.cumulative.now entry exit room.points self.old out.old self.new out.new }
    {
        let span = exit - entry;
        if float::abs(span) < 1e-4 {
            self.push_dedup(line.point_at(entry), out);
            return;
        }
        let steps = steps_of(span);
        for k in 0..=steps {
            self.push_dedup(line.point_at(sample_at(entry, span, steps, k)), out);
            if room.points < self.count {
                return;
            }
        }
    }

    // The points of lane i from `entry` to `exit`.
    fn sample_lane(
        &mut self,
        lanes: &Lanes,
        i: usize,
        entry: f32,
        exit: f32,
        room: Room,
        out: &mut [f32],
    )
        requires { (i < lanes.now.count) × (self.old.count ≤ room.points) }
        ensures { SegmentSampled (points_of lanes.now.rows.now lanes.now.points.now i) (arcs_of lanes.now.rows.now lanes.now.cumulative.now i)
            entry exit room.points self.old out.old self.new out.new }
    {
        self.sample_segment(lanes.line(i), entry, exit, room, out);
    }
}

// Whether one of the links from row `first` to before `end` leads to the lane.
fn leads(links: &[usize], first: usize, end: usize, lane: usize) -> bool
    requires { (first ≤ end) × (2 * end ≤ length links.now) }
    ensures { result ≡ leads links.now first (end - first) lane }
{
    (first..end).any(|at| links[2 * at + 1] == lane)
}

// Travel order: a forward lane runs along its polyline, a backward one against it, and a two-way one toward the next lane: `nearer_end` is
// `Lanes::at_end` of a branch that moves up the lane.
fn is_forward(lanes: &Lanes, i: usize, next: usize) -> bool
    requires { (i < lanes.now.count) × (next < lanes.now.count) }
    ensures { result ≡ is_forward lanes.now.rows.now lanes.now.points.now lanes.now.cumulative.now i next }
{
    match lanes.direction(i) {
        Direction::Forward => true,
        Direction::Backward => false,
        _ => lanes.at_end(i, next, true),
    }
}

// The end by which lane i is left for `next`.
#[tactic(auto, unfolding(crate::specs::Sampling::travel_end))]
fn travel_end(lanes: &Lanes, i: usize, next: usize) -> f32
    requires { (i < lanes.now.count) × (next < lanes.now.count) }
    ensures { result ≡ travel_end lanes.now.rows.now lanes.now.points.now lanes.now.cumulative.now i next }
{
    if is_forward(lanes, i, next) {
        return lanes.length(i);
    }
    0.0
}

// Where lane i, entered at `entry`, ends the route.
#[tactic(auto, using(crate::specs::Structs::ahead_at), unfolding(crate::specs::Sampling::exit_at))]
fn exit_at(lanes: &Lanes, i: usize, entry: f32, goal_s: f32) -> f32
    requires { i < lanes.now.count }
    ensures { result ≡ exit_at lanes.now.rows.now lanes.now.cumulative.now i entry goal_s }
{
    let goal = float::clamp(goal_s, 0.0, lanes.length(i));
    if ahead(lanes.direction(i), entry, goal) {
        return goal;
    }
    entry
}

// The point at arc length s of lane i.
fn point_on(lanes: &Lanes, i: usize, s: f32) -> Point
    requires { i < lanes.now.count }
    ensures { result ≡ point_on lanes.now.rows.now lanes.now.points.now lanes.now.cumulative.now i s }
{
    lanes.line(i).point_at(s)
}

// Where lane i is entered from p: the arc length of the nearest point on it.
fn entry_on(lanes: &Lanes, i: usize, p: Point) -> f32
    requires { i < lanes.now.count }
    ensures { result ≡ entry_on lanes.now.rows.now lanes.now.points.now lanes.now.cumulative.now i p }
{
    lanes.line(i).project(p).s
}

impl LinkedLanes<'_> {
    ghost use Rattle.sampling.specs.Structs.{tables_in};

    // Whether lane i is left for `next` by a lane change: a neighbour, not a successor.
    // The fan is read here as in `expand` of search: a function of both would owe a clause for each bound and ask that sums fit, no plainer.
    #[tactic(auto, unfolding(crate::specs::Sampling::changes_off))]
    fn changes_off(&self, i: usize, next: usize) -> bool
        requires { i < self.now.lanes.count }
        ensures { result ≡ changes_off self.now.fans.now self.now.links.now i next }
    {
        let fans = self.fans;
        let at = 5 * i;
        let first = fans[at];
        let mid = first + fans[at + 1];
        let last = mid + fans[at + 2];
        let end = last + fans[at + 3];
        leads(self.links, last, end, next) && !leads(self.links, first, mid, next)
    }

    // Where lane i, entered at `entry`, is left for `next`.
    #[tactic(auto, unfolding(crate::specs::Sampling::exit_for))]
    fn exit_for(&self, i: usize, next: usize, entry: f32) -> f32
        requires { (i < self.now.lanes.count) × (next < self.now.lanes.count) }
        ensures { result ≡ exit_for (tables_in self.now) i next entry }
    {
        let end = travel_end(&self.lanes, i, next);
        if self.changes_off(i, next) {
            return advance(entry, end, LANE_CHANGE_DIST);
        }
        end
    }

    // Samples the lane path into points: each lane's centerline traversed in its travel direction, from the first lane's entry projection to the
    // last lane's exit projection. No more are sampled once one over `room` is kept; of the points kept so many are written as `out` has room for.
    pub fn sample_route(
        &self,
        path: &[usize],
        start_s: f32,
        goal_s: f32,
        room: Room,
        out: &mut [f32],
    ) -> Kept
        requires { PathRows path.now self.now.lanes.count }
        ensures { Sampled room.points (sample_route (tables_in self.now) path.now start_s goal_s) out.old result out.new }
    {
        let lanes = &self.lanes;
        let mut i = path[0];
        let mut entry = float::clamp(start_s, 0.0, lanes.length(i));
        let mut kept = Kept::default();
        for next in &path[1..] {
            let exit = self.exit_for(i, *next, entry);
            kept.sample_lane(lanes, i, entry, exit, room, out);
            if room.points < kept.count {
                return kept;
            }
            entry = entry_on(lanes, *next, point_on(lanes, i, exit));
            i = *next;
        }
        let exit = exit_at(lanes, i, entry, goal_s);
        kept.sample_lane(lanes, i, entry, exit, room, out);
        kept
    }
}
