// advance.rs, `advance`: every place a distance on from a lane position along the lanes, one for each branch. `specs/Advance.antt` says what is
// answered.
#![tactic(auto)]

ghost use Rattle.std.specs.Prelude.{◌≡◌, ◌*◌, ◌<◌, ◌≤◌, [], length, reverse};
ghost use Rattle.geometry.specs.Over.{over};
ghost use Rattle.road.specs.Along.{along_of};
ghost use Rattle.rows.specs.Rows.{placed_section, points_of, stations_of};
ghost use Rattle.branches.specs.Tables.{Bounded};
ghost use Rattle.branches.specs.Held.{tables_of};
ghost use Rattle.explore.specs.Held.{state_of};
ghost use Rattle.advance.specs.Advance.{first_branch, first_branches, explored, rows_of, case_row, metre_row};
ghost use Rattle.advance.specs.Advance.{advanced_of, answered};
ghost use Rattle.advance.specs.Advance.{AnswerOf, advance_rows};

use beside::{Direction, LanePosition};
use branches::{Branch, Front, Lanes, Placed, Plan};
use ends::{Advance, Found};
use explore::State;
use plan_format::Refusal;
use road::StationedLane;

// What `advance` answers: document 01's number, how many keys were entered, and how many positions stand in the lists. It is what C gets; an `Ok`
// is this struct with number 0, since one of its own would repeat two of the three fields. Each answer for C has its own
// fields and zeros, so its own `From`: no macro of ours may write an impl.
#[repr(C)]
#[derive(Clone, Copy)]
pub struct Advanced {
    pub number: usize,
    pub keys: usize,
    pub positions: usize,
}

impl From<Result<Advanced, Refusal>> for Advanced {
    ghost from_gives = { λ found answer. answer ≡ advanced_of found };

    fn from(found: Result<Advanced, Refusal>) -> Advanced {
        match found {
            Ok(answer) => answer,
            Err(refusal) => Advanced {
                number: refusal.number(),
                keys: 0,
                positions: 0,
            },
        }
    }
}

// Where a search begins: the row of a lane, how far along its centerline, the offset toward the left of the road, and how far to go, back where
// that is negative.
#[derive(Clone, Copy)]
struct Start {
    lane: usize,
    arc: f32,
    offset: f64,
    distance: f64,
}

impl Start {
    // The first branch that moves `up` the lane.
    fn branch(self, ahead: bool, up: bool) -> Branch
        ensures { result ≡ first_branch ahead self.lane self.arc self.offset self.distance up }
    {
        Branch {
            lane: self.lane,
            arc: self.arc,
            up,
            left: self.offset * branches::side(ahead, up),
            remaining: float::abs(self.distance),
        }
    }

    // Puts the first branches in flight: one with the traffic of the lane, or one each way, of which that up the centerline is taken first.
    #[tactic(auto, unfolding(crate::specs::Advance::first_branches))]
    fn put(self, front: &mut Front, lanes: &Lanes, ahead: bool)
        requires { (self.lane < lanes.now.count) × (front.old.todo.items ≡ []) }
        ensures first { reverse front.new.todo.items
            ≡ first_branches lanes.now.rows.now ahead self.lane self.arc self.offset self.distance }
        ensures keys { front.new.keys.items ≡ front.old.keys.items }
        ensures full { front.new.full ≡ front.old.full }
    {
        match lanes.direction(self.lane) {
            Direction::Both => {
                front.todo.push(self.branch(ahead, false));
                front.todo.push(self.branch(ahead, true));
            }
            Direction::Forward => front.todo.push(self.branch(ahead, ahead)),
            _ => front.todo.push(self.branch(ahead, !ahead)),
        }
    }
}

// Writes the places into the lists.
#[tactic(auto, unfolding(crate::specs::Advance::rows_of))]
fn write_answers(out: &[Advance], rows: &mut [usize], positions: &mut [f64])
    requires { (2 * length out.now ≤ length rows.old) × (3 * length out.now ≤ length positions.old) }
    ensures rows { rows.new ≡ over (rows_of case_row (reverse out.now)) rows.old }
    ensures positions { positions.new ≡ over (rows_of metre_row (reverse out.now)) positions.old }
{
    for (i, a) in out.iter().enumerate() {
        a.write(rows, positions, i);
    }
}

// The answer of a run that has come this far, and its places in the lists where they fit.
#[tactic(auto, unfolding(crate::specs::Advance::answered_by))]
fn answer(state: &State, rows: &mut [usize], positions: &mut [f64]) -> Result<Advanced, Refusal>
    ensures { AnswerOf (advanced_of result) rows.new positions.new (answered (state_of state.now) rows.old positions.old) }
{
    let out = state.found.out.as_slice();
    let n = out.len();
    if state.front.full || rows.len() < 2 * n || positions.len() < 3 * n {
        return Err(Refusal::TooMuch);
    }
    write_answers(out, rows, positions);
    Ok(Advanced {
        number: 0,
        keys: state.front.keys.len(),
        positions: n,
    })
}

// Every place from `from` on.
#[tactic(auto, unfolding(crate::specs::Advance::explored))]
fn search(
    plan: &Plan,
    from: Start,
    rows: &mut [usize],
    positions: &mut [f64],
) -> Result<Advanced, Refusal>
    requires { from.lane < plan.now.lanes.count }
    ensures { AnswerOf (advanced_of result) rows.new positions.new
        (answered (explored (tables_of plan.now) from.lane from.arc from.offset from.distance) rows.old positions.old) }
{
    let ahead = from.distance >= 0.0;
    let mut state = State {
        front: Front::new(),
        found: Found::new(),
    };
    from.put(&mut state.front, &plan.lanes, ahead);
    state.run(plan, ahead);
    answer(&state, rows, positions)
}

// How far along its lane the station s of a place's section is.
fn arc_at(at: &Placed, s: f64) -> f32
    ensures { result ≡ along_of (points_of at.now.plan.lanes.rows.now at.now.plan.lanes.points.now at.now.lane)
        (stations_of at.now.plan.sections.now at.now.plan.stations.now (placed_section at.now.plan.places.now at.now.row)) s }
{
    let lane = StationedLane {
        line: at.plan.lanes.line(at.lane),
        stations: at.stations(),
    };
    lane.along(s)
}

// Every place `distance` metres on from `from` along the lanes: a row of case and lane, and one of s, offset and metres short, for each. The lists
// are written only where all rows fit.
#[tactic(auto, unfolding(crate::specs::Advance::advance_rows, crate::specs::Advance::advance_row))]
pub fn advance(
    plan: &Plan,
    bounds: &[f64],
    from: LanePosition,
    distance: f64,
    rows: &mut [usize],
    positions: &mut [f64],
) -> Result<Advanced, Refusal>
    requires { Bounded plan.now.fans.now plan.now.places.now plan.now.place_count bounds.now plan.now.lanes.count }
    ensures { AnswerOf (advanced_of result) rows.new positions.new
        (advance_rows (tables_of plan.now) bounds.now from distance rows.old positions.old) }
{
    let lanes = plan.lanes;
    let i = plan_find::find_lane(from.lane, lanes.rows, lanes.count).ok_or(Refusal::NotOnALane)?;
    let at = plan.place(i).ok_or(Refusal::NotOnALane)?;
    if !beside::is_in_section(bounds, at.section(), from.s) {
        return Err(Refusal::NotOnALane);
    }
    if !float::is_finite(distance) {
        return Err(Refusal::NotADistance);
    }
    let start = Start {
        lane: i,
        arc: arc_at(&at, from.s),
        offset: from.offset,
        distance,
    };
    search(plan, start, rows, positions)
}
