// The search for a cheapest chain of lanes: `Search`, `lane_path` and `reconstruct` of route.rs, over the plan's tables.
// A lane is its row in the tables.
#![tactic(auto)]

ghost use Rattle.std.specs.Prelude.{IfSome, unwrap_or, ◌≡◌, ◌<◌, ◌≤◌, ◌-◌, ◌*◌, [], ◌∷◌, length};
ghost use Rattle.rows.specs.Rows.{lane_number};
ghost use Rattle.search.specs.Search.{blank, expanded, least_open, precedes, rebuild, relaxed};
ghost use Rattle.search.specs.LaneGraph.{edges, expanded_in, f32_costs, searched_in, settled_in};
ghost use Rattle.search.specs.Structs.{graph_of, least_in, mark, result_of, state_of};
ghost use Rattle.search.specs.Loops.{Found};

mod graph;
mod state;

use arrayvec::ArrayVec;
pub use graph::Graph;
pub use state::Search;

// The cost of a lane change.
const LANE_CHANGE_COST: f32 = 30.0;

impl Search {
    // The search before it begins: no lane has an entry.
    fn new() -> Self
        ensures { state_of result ≡ blank f32_costs 256 }
    {
        Search {
            dist: [f32::INFINITY; 256],
            prev: [0; 256],
            closed: [false; 256],
        }
    }

    // Lane `next` is reached from `lane` at the cost `nd`: kept only where that is less than what stands.
    fn relax(&mut self, lane: usize, next: usize, nd: f32)
        requires { (lane < 256) × (next < 256) }
        ensures { state_of self.new ≡ relaxed f32_costs lane next nd (state_of self.old) }
    {
        if nd < self.dist[next] {
            self.dist[next] = nd;
            self.prev[next] = lane as u8;
        }
    }

    // The lane path from `start` to `goal` through `prev`, which leaves `start` at least once, so a goal on the start lane comes back round
    // to it.
    fn reconstruct(&self, start: usize, goal: usize) -> ArrayVec<usize, 257>
        requires { goal < 256 }
        ensures { result.items ≡ rebuild 256 self.now.prev start goal (goal ∷ []) }
    {
        let mut path = ArrayVec::new();
        path.push(goal);
        let mut lane = goal;
        for _ in 0..256usize {
            lane = self.prev[lane] as usize;
            path.push(lane);
            if lane == start {
                break;
            }
        }
        path.reverse();
        path
    }
}

// Whether a lane that is closed or not, with this distance and number, goes before the best one so far. Most lanes do not, by the first test.
fn is_before(closed: bool, d: f32, x: usize, cost: f32, number: usize) -> bool
    ensures { result ≡ precedes f32_costs (mark closed) d x cost number }
{
    if closed | (cost < d) {
        return false;
    }
    if d < cost {
        return true;
    }
    d < f32::INFINITY && number < x
}

// A route's lanes, and its search cost.
#[derive(Drop)]
pub struct LanePath {
    pub lanes: ArrayVec<usize, 257>,
    pub cost: f32,
}

impl Graph<'_> {
    // The links in the rows from `first` to before `end`, all out of `lane`, which is reached at `cost`; each step costs `step`.
    fn relax_links(
        &self,
        mut search: Search,
        lane: usize,
        cost: f32,
        step: f32,
        first: usize,
        end: usize,
    ) -> Search
        requires { (lane < 256) × (first ≤ end) × (2 * end ≤ length self.now.links.now) }
        ensures { state_of result
            ≡ expanded f32_costs lane cost (edges self.now.links.now self.now.count step first (end - first)) (state_of search) }
    {
        let nd = cost + step;
        let links = self.links;
        for at in first..end {
            let next = links[2 * at + 1];
            if next < self.count {
                search.relax(lane, next, nd);
            }
        }
        search
    }

    // Relax the links out of `lane`, reached at `cost`: successors cost the lane's length, lane changes a flat penalty.
    // The fan is read here as in `changes_off` of sampling: a function of both would owe a clause for each bound and ask that sums fit, no plainer.
    fn expand(&self, search: Search, lane: usize, cost: f32) -> Search
        requires { lane < self.now.count }
        ensures { state_of result ≡ expanded_in (graph_of self.now) lane cost (state_of search) }
    {
        let fans = self.fans;
        let lengths = self.lengths;
        let at = 5 * lane;
        let first = fans[at];
        let mid = first + fans[at + 1];
        let last = mid + fans[at + 2];
        let s = self.relax_links(search, lane, cost, lengths[lane], first, mid);
        self.relax_links(s, lane, cost, LANE_CHANGE_COST, last, last + fans[at + 3])
    }

    // The open lane of least cost, the larger number among equals.
    // A loop: `filter` and `min_by_key` by (`OrderedFloat`, `Reverse`) was tried, and the proof that the row picked is `least_open` did not close.
    // Cost and number stand beside the row and not in its Option, since the first lane is compared too, with infinity.
    fn least(&self, search: &Search) -> Option<usize>
        ensures row { unwrap_or result 256 ≡ least_in self.now (state_of search.now) }
        ensures within { IfSome result (λ u. u < self.now.count) }
    {
        let lanes = self.lanes;
        let mut best = None;
        let mut cost = f32::INFINITY;
        let mut number = 0;
        for i in 0..self.count {
            let d = search.dist[i];
            let x = lanes[6 * i];
            if is_before(search.closed[i], d, x, cost, number) {
                best = Some(i);
                cost = d;
                number = x;
            }
        }
        best
    }

    // Lane `u` is closed: marked, and its links relaxed at its distance.
    fn settle(&self, mut search: Search, u: usize) -> Search
        requires { u < self.now.count }
        ensures { state_of result ≡ settled_in (graph_of self.now) u (state_of search) }
    {
        search.closed[u] = true;
        let cost = search.dist[u];
        self.expand(search, u, cost)
    }

    // The least open lane is settled, turn by turn, until it is the goal: the last state then, and none where no lane is open before. A turn settles
    // one of at most 256 lanes, so the 257th finds none open.
    fn find(&self, mut search: Search, goal: usize) -> Option<Search>
        ensures { Found self.now goal search result }
    {
        for _ in 0..257usize {
            let u = self.least(&search)?;
            if u == goal {
                return Some(search);
            }
            search = self.settle(search, u);
        }
        None
    }

    // The Rust's `lane_path` after its one-lane case, which is crate route's: the cheapest chain of links from `start` to `goal`, which leaves
    // `start` at least once.
    pub fn lane_path(&self, start: usize, goal: usize) -> Option<LanePath>
        requires { (start < self.now.count) × (goal < self.now.count) }
        ensures { result_of result ≡ searched_in self.now.lanes.now (graph_of self.now) start goal }
    {
        let opened = self.expand(Search::new(), start, 0.0);
        let search = self.find(opened, goal)?;
        Some(LanePath {
            lanes: search.reconstruct(start, goal),
            cost: search.dist[goal],
        })
    }
}
