// advance.rs: where branches end, and the places they give. `specs/Ends.antt` says what each function answers, `specs/Held.antt` how a `Found`
// holds the places, `specs/Rounded.antt` what stands beside each.
#![tactic(auto)]

ghost use Rattle.std.specs.Prelude.{◌≡◌, ◌+◌, ◌*◌, ◌<◌, ◌≤◌, ℕ, List, [], length, map, reverse, set};
ghost use Rattle.std.specs.List.{list_any};
ghost use Rattle.std.specs.Float.{nan};
ghost use Rattle.arrayvec.specs.ArrayVec.{array_vec_len};
ghost use Rattle.beside.specs.Beside.{nowhere};
ghost use Rattle.rows.specs.Rows.{place_of};
ghost use Rattle.branches.specs.Tables.{Ending, Laid};
ghost use Rattle.ends.specs.Ends.{case_of, position_of, short_of, placing_of, end_arc, end_position, end_of, give, place, place_in, same_placing};
ghost use Rattle.ends.specs.Rounded.{placing_with, rounded_in, rounded_of};

use arrayvec::ArrayVec;
use beside::LanePosition;
use branches::{Branch, Plan};
use lists::put_row;
use plan_format::LaneId;
use road::StationedLane;

// Where one branch ended: it went the whole distance, or ran out of lanes, `short` metres of the distance short.
#[derive(Clone, Copy)]
pub enum Advance {
    Reached(LanePosition),
    DeadEnd { at: LanePosition, short: f64 },
}

// What stands in the places of a `Found` that hold none yet. By hand: a derive takes a variant without fields, and both have some.
impl Default for Advance {
    ghost use Rattle.ends.specs.declared.Advance.TheVariants.{Reached};

    ghost is_default = { λ a. a ≡ Reached nowhere };

    fn default() -> Self {
        Advance::Reached(LanePosition::default())
    }
}

// By what places are told apart; the case by document 01's number, as the definition has it: an enum would repeat the cases of `Advance`.
#[derive(Clone, Copy, PartialEq, Eq)]
pub struct Placing {
    pub case: usize,
    pub lane: usize,
    pub s: usize,
    pub offset: usize,
    pub short: usize,
}

// A `Placing` but for its lane, which a place has itself: the case, and what took rounding. The case stands here too, since it was worked out of each
// place before its lane was looked at.
#[derive(Clone, Copy, Default)]
pub struct Rounded {
    pub case: usize,
    pub s: usize,
    pub offset: usize,
    pub short: usize,
}

impl Placing {
    // What of it stands beside a place.
    fn rounded(self) -> Rounded
        ensures { result ≡ rounded_in self }
    {
        Rounded {
            case: self.case,
            s: self.s,
            offset: self.offset,
            short: self.short,
        }
    }
}

impl Advance {
    // Document 01's case: 0 where the whole distance was gone, 1 at a dead end.
    fn case(self) -> usize
        ensures { result ≡ case_of self }
    {
        match self {
            Advance::Reached(_) => 0,
            Advance::DeadEnd { at: _, short: _ } => 1,
        }
    }

    // Where the branch ended, whether it went the whole distance or not.
    pub fn position(self) -> LanePosition
        ensures { result ≡ position_of self }
    {
        match self {
            Advance::Reached(at) => at,
            Advance::DeadEnd { at, short: _ } => at,
        }
    }

    // The metres short, 0 where the whole distance was gone.
    fn short(self) -> f64
        ensures { result ≡ short_of self }
    {
        match self {
            Advance::Reached(_) => 0.0,
            Advance::DeadEnd { at: _, short } => short,
        }
    }

    // By what the place is told apart.
    #[tactic(auto, unfolding(crate::specs::Ends::placing_of))]
    fn placing(self) -> Placing
        ensures { result ≡ placing_of self }
    {
        let at = self.position();
        let lane = at.lane;
        Placing {
            case: self.case(),
            lane: lane.0,
            s: branches::millimetres(at.s),
            offset: branches::millimetres(at.offset),
            short: branches::millimetres(self.short()),
        }
    }

    // Whether the place is told apart by k. `rounded` is what stands beside it. Most differ in the lane, so that comes first.
    #[tactic(auto, unfolding(crate::specs::Rounded::placing_with))]
    fn is_told_by(self, rounded: Rounded, k: Placing) -> bool
        ensures { result ≡ same_placing (placing_with self rounded) k }
    {
        let at = self.position();
        let lane = at.lane;
        lane.0 == k.lane
            && rounded.case == k.case
            && rounded.s == k.s
            && rounded.offset == k.offset
            && rounded.short == k.short
    }

    // Writes the place as row i of the lists: case and lane; s, offset and metres short.
    pub fn write(self, rows: &mut [usize], positions: &mut [f64], i: usize)
        requires { (2 * i + 1 < length rows.old) × (3 * i + 2 < length positions.old) }
        ensures rows { rows.new ≡ set (set rows.old (2 * i) (case_of self)) (2 * i + 1) (position_of self).lane.0 }
        ensures positions { positions.new ≡ set (set (set positions.old (3 * i) (position_of self).s) (3 * i + 1)
            (position_of self).offset) (3 * i + 2) (short_of self) }
    {
        let at = self.position();
        let lane = at.lane;
        put_row(&[self.case(), lane.0], rows, 2 * i);
        put_row(&[at.s, at.offset, self.short()], positions, 3 * i);
    }
}

// How far along its lane's centerline a branch ends, which has so much room there.
#[tactic(auto, unfolding(crate::specs::Ends::end_arc))]
fn end_arc(b: Branch, room: f64) -> f32
    ensures { result ≡ end_arc b room }
{
    let moved = float::nearest_f64_to_f32(float::min(b.remaining, room));
    if b.up {
        return b.arc + moved;
    }
    b.arc - moved
}

// The lane position where a branch ends, on a lane with the place p. It asks of one lane, so it takes the tables and no `Plan`.
#[tactic(auto, unfolding(crate::specs::Ends::end_position))]
fn end_position<'a>(
    lanes: &[usize],
    points: &'a [f32],
    cumulative: &'a [f32],
    sections: &[usize],
    stations: &'a [f64],
    places: &[usize],
    p: usize,
    ahead: bool,
    b: Branch,
    room: f64,
) -> LanePosition
    requires { Laid lanes.now points.now cumulative.now b.lane
        × Ending lanes.now points.now cumulative.now sections.now stations.now places.now b.lane p }
    ensures { (fans : List ℕ) → p ≡ place_of fans b.lane
        → result ≡ end_position lanes.now points.now fans sections.now stations.now places.now ahead b room }
{
    let i = b.lane;
    let lane = StationedLane {
        line: branches::lane_line(lanes, points, cumulative, i),
        stations: branches::place_stations(sections, stations, places, p),
    };
    LanePosition {
        lane: LaneId(lanes[6 * i]),
        s: lane.station_at(end_arc(b, room)),
        offset: b.left * branches::side(ahead, b.up),
    }
}

// Whether metres are left at the end.
#[tactic(auto, unfolding(crate::specs::Ends::end_of))]
fn end_of(remaining: f64, room: f64, at: LanePosition) -> Advance
    ensures { result ≡ end_of remaining room at }
{
    if remaining > room {
        return Advance::DeadEnd {
            at,
            short: remaining - room,
        };
    }
    Advance::Reached(at)
}

// The places given, the newest last, and beside each what `holds` reads of it for each place that comes later, so that it is rounded once. Whole
// `Placing`s would repeat the lane, and an advance clears its lists at each call.
#[derive(Drop)]
pub struct Found {
    pub out: ArrayVec<Advance, 1026>,
    pub rounded: ArrayVec<Rounded, 1026>,
    pub ghost paired: { rounded.items ≡ map rounded_of out.items },
}

impl Found {
    ghost use Rattle.branches.specs.Held.{tables_of};
    ghost use Rattle.ends.specs.Held.{found_of};

    // No place given.
    pub fn new() -> Self
        ensures { result.out.items ≡ [] }
    {
        Found {
            out: ArrayVec::new(),
            rounded: ArrayVec::new(),
        }
    }

    // Whether a place told apart by k was given before. What it shares with `Front::holds` is std's `any`; a place holds no key to compare by `==`.
    fn holds(&self, k: Placing) -> bool
        ensures { result ≡ list_any (λ a. same_placing (placing_of a) k) (reverse self.now.out.items) }
    {
        let out = self.out.as_slice();
        let rounded = self.rounded.as_slice();
        for i in (0..out.len()).rev() {
            if out[i].is_told_by(rounded[i], k) {
                return true;
            }
        }
        false
    }

    // The place a is given unless it was given before. That one more fits is asked from here up to the loop of `explore`, which counts the steps: a
    // count kept in `Found` would be read by no code.
    #[tactic(auto, unfolding(crate::specs::Ends::give), using(crate::specs::EndLaws::told_any, branches::specs::HeldLaws::pushed))]
    fn give(&mut self, a: Advance)
        requires { array_vec_len self.old.out < 1026 }
        ensures given { found_of self.new ≡ give a (found_of self.old) }
        ensures one { array_vec_len self.new.out ≤ array_vec_len self.old.out + 1 }
    {
        let k = a.placing();
        if !self.holds(k) {
            self.out.push(a);
            self.rounded.push(k.rounded());
        }
    }

    // The end of a branch is given where its lane has one of the m places. It asks of that lane alone: so it stands beside `place`.
    #[tactic(auto, unfolding(crate::specs::Ends::place))]
    pub fn place_on(
        &mut self,
        lanes: &[usize],
        points: &[f32],
        cumulative: &[f32],
        fans: &[usize],
        sections: &[usize],
        stations: &[f64],
        places: &[usize],
        m: usize,
        ahead: bool,
        b: Branch,
        room: f64,
    )
        requires { Laid lanes.now points.now cumulative.now b.lane × (5 * b.lane + 4 < length fans.now)
            × (place_of fans.now b.lane < m → Ending lanes.now points.now cumulative.now sections.now stations.now places.now b.lane
            (place_of fans.now b.lane))
            × (array_vec_len self.old.out < 1026) }
        ensures given { found_of self.new ≡ place lanes.now points.now fans.now sections.now stations.now places.now m ahead b room
            (found_of self.old) }
        ensures one { array_vec_len self.new.out ≤ array_vec_len self.old.out + 1 }
    {
        let Some(p) = beside::place_row(fans, m, b.lane) else {
            return;
        };
        let at = end_position(
            lanes, points, cumulative, sections, stations, places, p, ahead, b, room,
        );
        self.give(end_of(b.remaining, room, at));
    }

    // The end of a branch is given where its lane has a place.
    pub fn place(&mut self, plan: &Plan, ahead: bool, b: Branch, room: f64)
        requires { (b.lane < plan.now.lanes.count) × (array_vec_len self.old.out < 1026) }
        ensures given { found_of self.new ≡ place_in (tables_of plan.now) ahead b room (found_of self.old) }
        ensures one { array_vec_len self.new.out ≤ array_vec_len self.old.out + 1 }
    {
        let lanes = plan.lanes;
        self.place_on(
            lanes.rows,
            lanes.points,
            lanes.cumulative,
            plan.fans,
            plan.sections,
            plan.stations,
            plan.places,
            plan.place_count,
            ahead,
            b,
            room,
        );
    }
}
