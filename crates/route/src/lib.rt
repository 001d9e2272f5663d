// The route query over a plan's rows: the lanes nearest to the two points, the path between them, and its points. `specs/Route.antt` says what is
// answered.
#![tactic(auto)]

ghost use Rattle.std.specs.Prelude.{◌≡◌, ◌&&◌, ◌∷◌, [], map, ◌*◌, ◌+◌, ◌<◌, ◌≤◌, length};
ghost use Rattle.coords.specs.Coords.{finite_point, zero⁺};
ghost use Rattle.geometry.specs.Over.{over};
ghost use Rattle.network.specs.Tables.{lanes_from};
ghost use Rattle.rows.specs.Rows.{lane_number};
ghost use Rattle.sampling.specs.Kept.{first_of, flat};
ghost use Rattle.sampling.specs.Passes.{Sampled};
ghost use Rattle.sampling.specs.Sampling.{route_tables};
ghost use Rattle.sampling.specs.Structs.{tables_in};
ghost use Rattle.search.specs.Structs.{result_of};
ghost use Rattle.search.specs.Search.{found};
ghost use Rattle.route.specs.Route.{Routable, Routes, between, fitted, followed, lengths_to, path_of, routed, suffices};
ghost use Rattle.route.specs.Structs.{answered};
ghost use Rattle.route.specs.Steps.{RowIn};

mod route_rows;

use arrayvec::ArrayVec;
use coords::Point;
use nearest::Lanes;
use network::Nearest;
use plan_format::Refusal;
use route_rows::{Drive, RouteRows};
use sampling::{Kept, LinkedLanes, Room};
use search::{Graph, LanePath};

// What C gets for `route`: document 01's number, 0 for an answer; how many lanes and points stand in the lists, and the length. All else is zero
// where refused. An `Ok` is this struct with number 0, since one of its own would repeat three of the four fields.
#[repr(C)]
#[derive(Clone, Copy)]
pub struct RouteAnswer {
    pub number: usize,
    pub lanes: usize,
    pub points: usize,
    pub length: f32,
}

impl From<Result<RouteAnswer, Refusal>> for RouteAnswer {
    ghost from_gives = { λ found answer. answer ≡ answered found };

    fn from(found: Result<RouteAnswer, Refusal>) -> RouteAnswer {
        match found {
            Ok(answer) => answer,
            Err(refusal) => RouteAnswer {
                number: refusal.number(),
                lanes: 0,
                points: 0,
                length: 0.0,
            },
        }
    }
}

fn both_finite(from: Point, to: Point) -> bool
    ensures { result ≡ finite_point from && finite_point to }
{
    from.is_finite() && to.is_finite()
}

// The path of one lane.
fn one_lane(start: usize) -> LanePath
    ensures { result_of (Some result) ≡ found (start ∷ []) zero⁺ }
{
    let mut lanes = ArrayVec::new();
    lanes.push(start);
    LanePath { lanes, cost: 0.0 }
}

impl Drive<'_> {
    ghost use Rattle.route.specs.Structs.{all_points};

    // Writes the numbers of the lanes.
    fn write_chain(&self, chain: &mut [usize])
        requires { length self.now.path.now ≤ length chain.old }
        ensures { chain.new ≡ over (map (lane_number self.now.linked.lanes.rows.now) self.now.path.now) chain.old }
    {
        let lanes = self.linked.lanes.rows;
        for (k, row) in self.path.iter().enumerate() {
            chain[k] = lanes[6 * *row];
        }
    }

    // Samples the path into points, of which so many are written as `out` has room for.
    fn sample(&self, room: Room, out: &mut [f32]) -> Kept
        ensures { Sampled room.points (all_points self.now) out.old result out.new }
    {
        self.linked
            .sample_route(self.path, self.s, self.t, room, out)
    }

    // How many points there are; where there are more than there is room for, one more than that.
    fn count_points(&self, room: Room) -> usize
        ensures { result ≡ length (first_of (room.points + 1) (all_points self.now)) }
    {
        self.sample(room, &mut []).count
    }

    // Writes the points, which fit.
    fn write_points(&self, waypoints: &mut [f32])
        requires { 3 * length (all_points self.now) ≤ length waypoints.old }
        ensures { waypoints.new ≡ over (flat (all_points self.now)) waypoints.old }
    {
        self.sample(Room::of(waypoints), waypoints);
    }

    // The route along the path, at what it costs: nothing is written unless the whole of it fits.
    fn follow(
        &self,
        cost: f32,
        chain: &mut [usize],
        waypoints: &mut [f32],
    ) -> Result<RouteAnswer, Refusal>
        ensures { Routes (fitted (length chain.old) (length waypoints.old)
            (followed (tables_in self.now.linked) self.now.s self.now.t (found self.now.path.now cost)))
            (answered result) chain.old chain.new waypoints.old waypoints.new }
    {
        if chain.len() < self.path.len() {
            return Err(Refusal::TooMuch);
        }
        let room = Room::of(waypoints);
        let count = self.count_points(room);
        if room.points < count {
            return Err(Refusal::TooMuch);
        }
        self.write_chain(chain);
        self.write_points(waypoints);
        Ok(RouteAnswer {
            number: 0,
            lanes: self.path.len(),
            points: count,
            length: cost,
        })
    }
}

impl RouteRows<'_> {
    ghost use Rattle.route.specs.Structs.{graph_in};

    // The length of each lane. A loop that pushes, since `collect` and `extend` of an `ArrayVec`, which may find it full, answer a `Result`.
    fn lengths(&self) -> ArrayVec<f32, 256>
        ensures { result.items ≡ lengths_to self.now.linked.lanes.rows.now self.now.linked.lanes.cumulative.now self.now.linked.lanes.count }
    {
        let lanes = &self.linked.lanes;
        let mut lengths = ArrayVec::new();
        for row in 0..lanes.count {
            lengths.push(lanes.length(row));
        }
        lengths
    }

    // Here and below a start and a goal as what `network` found, whose rows are plain indices, as in `branches::Lanes`.

    // Whether the one lane is the route: the goal lies ahead on it.
    fn suffices(&self, start: Nearest, goal: Nearest) -> bool
        requires { start.row < self.now.linked.lanes.count }
        ensures { result ≡ suffices self.now.linked.lanes.rows.now start.row start.projection.s goal.row goal.projection.s }
    {
        let direction = self.linked.lanes.direction(start.row);
        start.row == goal.row && sampling::ahead(direction, start.projection.s, goal.projection.s)
    }

    // Shortest lane path from `start` to `goal`, each a lane and a distance along its centerline.
    fn lane_path(&self, start: Nearest, goal: Nearest) -> Option<LanePath>
        requires { (start.row < self.now.linked.lanes.count) × (goal.row < self.now.linked.lanes.count) }
        ensures { result_of result
            ≡ path_of self.now.linked.lanes.rows.now (graph_in self.now) start.row start.projection.s goal.row goal.projection.s }
    {
        if self.suffices(start, goal) {
            return Some(one_lane(start.row));
        }
        let lengths = self.lengths();
        let graph = Graph {
            count: self.linked.lanes.count,
            lanes: self.linked.lanes.rows,
            fans: self.linked.fans,
            links: self.linked.links,
            lengths: &lengths,
        };
        graph.lane_path(start.row, goal.row)
    }

    // The route from `start` to `goal`: its path is found, and followed.
    fn find_and_follow(
        &self,
        start: Nearest,
        goal: Nearest,
        chain: &mut [usize],
        waypoints: &mut [f32],
    ) -> Result<RouteAnswer, Refusal>
        requires { (start.row < self.now.linked.lanes.count) × (goal.row < self.now.linked.lanes.count) }
        ensures { Routes (fitted (length chain.old) (length waypoints.old)
            (followed (tables_in self.now.linked) start.projection.s goal.projection.s
            (path_of self.now.linked.lanes.rows.now (graph_in self.now) start.row start.projection.s goal.row goal.projection.s)))
            (answered result) chain.old chain.new waypoints.old waypoints.new }
    {
        let path = self.lane_path(start, goal).ok_or(Refusal::NoWay)?;
        let drive = Drive {
            linked: self.linked,
            path: &path.lanes,
            s: start.projection.s,
            t: goal.projection.s,
        };
        drive.follow(path.cost, chain, waypoints)
    }

    // The route from the lane nearest to the first point to the one nearest to the second.
    fn between(
        &self,
        from: Option<Nearest>,
        to: Option<Nearest>,
        chain: &mut [usize],
        waypoints: &mut [f32],
    ) -> Result<RouteAnswer, Refusal>
        requires { RowIn self.now.linked.lanes.count from × RowIn self.now.linked.lanes.count to }
        ensures { Routes (fitted (length chain.old) (length waypoints.old)
            (between (tables_in self.now.linked) self.now.linked.lanes.count from to))
            (answered result) chain.old chain.new waypoints.old waypoints.new }
    {
        let start = from.ok_or(Refusal::NoneDrives)?;
        let goal = to.ok_or(Refusal::NoneDrives)?;
        self.find_and_follow(start, goal, chain, waypoints)
    }

    // The route from one point to another.
    fn route(
        &self,
        from: Point,
        to: Point,
        chain: &mut [usize],
        waypoints: &mut [f32],
    ) -> Result<RouteAnswer, Refusal>
        ensures { Routes (fitted (length chain.old) (length waypoints.old)
            (routed (tables_in self.now.linked) self.now.linked.lanes.count
            (lanes_from self.now.linked.lanes.rows.now self.now.linked.lanes.points.now self.now.linked.lanes.count 0) from to))
            (answered result) chain.old chain.new waypoints.old waypoints.new }
    {
        if !both_finite(from, to) {
            return Err(Refusal::NotAPoint);
        }
        let lanes = Lanes {
            rows: self.linked.lanes.rows,
            count: self.linked.lanes.count,
            points: self.linked.lanes.points,
            cumulative: self.linked.lanes.cumulative,
        };
        let [start, goal] = lanes.nearest_rows([from, to]);
        self.between(start, goal, chain, waypoints)
    }
}

// A route from one point to another over the n lanes of the tables: the numbers of its lanes in `chain`, x y z of its points in `waypoints`.
// The tables come one by one, as C lends them, at one lifetime, since a struct holds them all.
pub fn route<'a>(
    from: Point,
    to: Point,
    lanes: &'a [usize],
    n: usize,
    points: &'a [f32],
    cumulative: &'a [f32],
    fans: &'a [usize],
    links: &'a [usize],
    chain: &mut [usize],
    waypoints: &mut [f32],
) -> Result<RouteAnswer, Refusal>
    requires { Routable (route_tables lanes.now points.now cumulative.now fans.now links.now) n }
    ensures { Routes (fitted (length chain.old) (length waypoints.old)
        (routed (route_tables lanes.now points.now cumulative.now fans.now links.now)
        n (lanes_from lanes.now points.now n 0) from to))
        (answered result) chain.old chain.new waypoints.old waypoints.new }
{
    let linked = LinkedLanes {
        lanes: branches::Lanes {
            rows: lanes,
            count: n,
            points,
            cumulative,
        },
        fans,
        links,
    };
    let rows = RouteRows { linked };
    rows.route(from, to, chain, waypoints)
}
