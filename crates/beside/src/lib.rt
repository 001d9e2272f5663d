// advance.rs, `left_of` and `right_of`: the lane beside a lane position, by ASAM OpenDRIVE's order of a section's lanes. The plan stands in flat
// tables with rows of fixed width: `lanes` (6 a row), `fans` (5), `places` (3) and `bounds` (2). `specs/` says what each function answers.
#![tactic(auto)]

ghost use Rattle.std.specs.Prelude.{◌≡◌, ◌+◌, ◌*◌, ◌<◌, ◌≤◌, length, IfSome, MatchOption, unwrap_or};
ghost use Rattle.std.specs.Option.{option_map_or};
ghost use Rattle.rows.specs.Rows.{place_of, raised_number};
ghost use Rattle.beside.specs.Seated.{Seated};
ghost use Rattle.beside.specs.Sides.{direction_at, direction_number, side_at, side_number};
ghost use Rattle.beside.specs.Beside.{nowhere, answer_of, beyond, toward_larger, nearer_at, next_row, in_section, beside_rows};

use plan_format::{LaneId, Refusal};

// Which way the traffic of a lane runs along its points. No accepted plan has `Other`.
#[derive(Clone, Copy, PartialEq, Eq)]
pub enum Direction {
    Forward,
    Backward,
    Both,
    Other,
}

impl From<usize> for Direction {
    ghost from_gives = { λ number way. way ≡ direction_at number };

    // The direction for which this number stands in a lane's row.
    fn from(number: usize) -> Direction {
        match number {
            0 => Direction::Forward,
            1 => Direction::Backward,
            2 => Direction::Both,
            _ => Direction::Other,
        }
    }
}

// A side of a lane, as its traffic sees it.
#[derive(Clone, Copy, PartialEq, Eq)]
pub enum Side {
    Left,
    Right,
}

impl From<usize> for Side {
    ghost from_gives = { λ number side. side ≡ side_at number };

    // 0 is the left.
    fn from(number: usize) -> Side {
        if number == 0 { Side::Left } else { Side::Right }
    }
}

// A place on a lane: the road's station, and metres from the lane's center toward the left of the road.
#[repr(C)]
#[derive(Clone, Copy)]
pub struct LanePosition {
    pub lane: LaneId,
    pub s: f64,
    pub offset: f64,
}

// The place of a refusal. By hand, since a default of `LaneId` would be the number of a lane like any other.
impl Default for LanePosition {
    ghost is_default = { λ at. at ≡ nowhere };

    fn default() -> Self {
        LanePosition {
            lane: LaneId(0),
            s: 0.0,
            offset: 0.0,
        }
    }
}

// What C gets for `beside`: document 01's number, 0 where there is a lane, and the position, zeros where refused.
#[repr(C)]
#[derive(Clone, Copy)]
pub struct BesideAnswer {
    pub number: usize,
    pub at: LanePosition,
}

impl From<Result<LanePosition, Refusal>> for BesideAnswer {
    ghost from_gives = { λ found answer. answer ≡ answer_of found };

    fn from(found: Result<LanePosition, Refusal>) -> BesideAnswer {
        match found {
            Ok(at) => BesideAnswer { number: 0, at },
            Err(refusal) => BesideAnswer {
                number: refusal.number(),
                at: LanePosition::default(),
            },
        }
    }
}

// The tables by which the lane beside is found, of an accepted plan with so many lanes and places. C gives the counts apart; a list may hold more
// rows.
#[derive(Clone, Copy)]
pub struct Seats<'a> {
    pub lanes: &'a [usize],
    pub lane_count: usize,
    pub fans: &'a [usize],
    pub places: &'a [usize],
    pub place_count: usize,
    pub bounds: &'a [f64],
    pub ghost seated: { Seated lanes.now lane_count fans.now places.now place_count bounds.now },
}

// Whether b lies past a, toward the larger numbers or toward the smaller.
fn is_beyond(larger: bool, a: usize, b: usize) -> bool
    ensures { result ≡ beyond larger a b }
{
    if larger {
        return a < b;
    }
    b < a
}

// Whether a side is toward the larger numbers, as a lane of this direction sees it.
fn is_toward_larger(direction: Direction, side: Side) -> bool
    ensures { result ≡ toward_larger (direction_number direction) (side_number side) }
{
    if direction == Direction::Backward {
        return side != Side::Left;
    }
    side == Side::Left
}

// Whether s is from the start to the end of section j.
pub fn is_in_section(bounds: &[f64], j: usize, s: f64) -> bool
    requires { 2 * j + 1 < length bounds.now }
    ensures { result ≡ in_section bounds.now j s }
{
    if bounds[2 * j] <= s {
        return s <= bounds[2 * j + 1];
    }
    false
}

// The row of lane i's place, if it has one of so many.
pub fn place_row(fans: &[usize], place_count: usize, i: usize) -> Option<usize>
    requires { 5 * i + 4 < length fans.now }
    ensures { MatchOption result (place_count ≤ place_of fans.now i) (λ p. (p ≡ place_of fans.now i) × (p < place_count)) }
{
    let p = fans[5 * i + 4];
    if p < place_count { Some(p) } else { None }
}

impl Seats<'_> {
    // Whether the lane of place k stands in section j between the number `here` and the nearest so far, if there is one: a place's row and number.
    fn is_nearer(
        &self,
        j: usize,
        here: usize,
        larger: bool,
        best: Option<(usize, usize)>,
        k: usize,
    ) -> bool
        requires { IfSome best (λ b. (b.0 < self.now.place_count) × (b.1 ≡ raised_number self.now.places.now b.0)) × (k < self.now.place_count) }
        ensures { result ≡ nearer_at self.now.places.now self.now.place_count j here larger (option_map_or (λ b. b.0) best 256) k }
    {
        let places = self.places;
        if places[3 * k + 1] != j {
            return false;
        }
        let x = places[3 * k + 2];
        if !is_beyond(larger, here, x) {
            return false;
        }
        match best {
            Some((_, number)) => is_beyond(larger, x, number),
            None => true,
        }
    }

    // The place next to the number `here` in section j, toward the larger numbers or the smaller. Not by `fold`, whose closure would have this `if`
    // and the facts of `best` in its own clauses, nor by `min_by`, whose order would turn with `larger`.
    #[tactic(auto, unfolding(crate::specs::Beside::next_row), using(crate::specs::BesideLaws::next_nearer, crate::specs::BesideLaws::next_same))]
    fn next_row(&self, j: usize, here: usize, larger: bool) -> Option<usize>
        ensures is { unwrap_or result 256 ≡ next_row self.now.places.now self.now.place_count j here larger self.now.place_count }
        ensures within { IfSome result (λ r. r < self.now.place_count) }
    {
        // The number is kept beside the row, since each turn would read it from the table again.
        let mut best = None;
        for k in 0..self.place_count {
            if self.is_nearer(j, here, larger, best, k) {
                best = Some((k, self.places[3 * k + 2]));
            }
        }
        best.map(|(row, _)| row)
    }

    // The lane beside `at`'s, at the same s and at its center.
    #[tactic(auto, unfolding(crate::specs::Beside::beside_rows, crate::specs::Beside::beside_row), using(crate::specs::BesideLaws::toward_at))]
    fn lane_beside(&self, at: LanePosition, side: Side) -> Result<LanePosition, Refusal>
        ensures { answer_of result ≡ beside_rows self.now.lanes.now self.now.lane_count self.now.fans.now self.now.places.now
            self.now.place_count self.now.bounds.now at (side_number side) }
    {
        let lanes = self.lanes;
        let places = self.places;
        let i = plan_find::find_lane(at.lane, lanes, self.lane_count).ok_or(Refusal::NotOnALane)?;
        let p = place_row(self.fans, self.place_count, i).ok_or(Refusal::NotOnALane)?;
        let j = places[3 * p + 1];
        if !is_in_section(self.bounds, j, at.s) {
            return Err(Refusal::NotOnALane);
        }
        let larger = is_toward_larger(Direction::from(lanes[6 * i + 2]), side);
        let r = self
            .next_row(j, places[3 * p + 2], larger)
            .ok_or(Refusal::NoneBeside)?;
        let there = places[3 * r];
        Ok(LanePosition {
            lane: LaneId(lanes[6 * there]),
            s: at.s,
            offset: 0.0,
        })
    }
}

// The lane beside `at`'s, at the same s and at its center: 0 for the left of its traffic, 1 for the right; a number, as C has it.
pub fn beside(seats: Seats, at: LanePosition, side: usize) -> Result<LanePosition, Refusal>
    ensures { answer_of result ≡ beside_rows seats.entry.lanes.now seats.entry.lane_count seats.entry.fans.now seats.entry.places.now
        seats.entry.place_count seats.entry.bounds.now at side }
{
    match Side::from(side) {
        Side::Left => left_of(seats, at),
        Side::Right => right_of(seats, at),
    }
}

// The lane on the left of `at`'s traffic. Two functions, since `left_of` is the name that the Rust and the papers give.
pub fn left_of(seats: Seats, at: LanePosition) -> Result<LanePosition, Refusal>
    ensures { answer_of result ≡ beside_rows seats.entry.lanes.now seats.entry.lane_count seats.entry.fans.now seats.entry.places.now
        seats.entry.place_count seats.entry.bounds.now at 0 }
{
    seats.lane_beside(at, Side::Left)
}

// The lane on the right of `at`'s traffic. Two functions, since `right_of` is the name that the Rust and the papers give.
pub fn right_of(seats: Seats, at: LanePosition) -> Result<LanePosition, Refusal>
    ensures { answer_of result ≡ beside_rows seats.entry.lanes.now seats.entry.lane_count seats.entry.fans.now seats.entry.places.now
        seats.entry.place_count seats.entry.bounds.now at 1 }
{
    seats.lane_beside(at, Side::Right)
}
