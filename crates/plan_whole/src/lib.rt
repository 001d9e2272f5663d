// The numbers that look at the whole file, after its records: a caller's side above 1, then 7, then 8.
#![tactic(auto)]

ghost use Rattle.std.specs.Prelude.{◌≡◌, ◌≢◌, [], map, ℕ, ◌+◌, ◌*◌, ◌≤◌, ◌<◌, length, get_or};
ghost use Rattle.std.specs.Prelude.{IfSome, OnOk, unwrap_or};
ghost use Rattle.fields.specs.Fields.{u16_at};
ghost use Rattle.plan_format.specs.Plan.{any, from_missing, holds, repeats, index_of};
ghost use Rattle.plan_format.specs.Records.{link_at, raised_at};
ghost use Rattle.plan_format.specs.Refusals.{found_number};
ghost use Rattle.plan_scan.specs.Parts.{Parts};
ghost use Rattle.plan_whole.specs.ByNumber.{ByNumber};
ghost use Rattle.plan_whole.specs.Keys.{pair_at, key_at, twice_in, Listed};
ghost use Rattle.plan_whole.specs.Missing.{misplaced_in};
ghost use Rattle.plan_whole.specs.Which.{which};
ghost use Rattle.plan_whole.specs.Whole.{whole_in};

use arrayvec::ArrayVec;
use fields::{u16_at, u32_at};
use plan_format::{Refusal, RoadId};

// What must stand once.
#[derive(Clone, Copy)]
pub enum Key {
    // of a lane or a place its lane
    Lane,
    // of a section its road with index
    Section,
    // of a place its OpenDRIVE number within a section
    PlaceInSection,
}

// Where the records of each kind start in a file whose records all pass.
#[derive(Clone, Copy)]
pub struct Records<'a> {
    pub file: &'a [u8],
    pub lanes: &'a [usize],
    pub links: &'a [usize],
    pub sections: &'a [usize],
    pub places: &'a [usize],
    pub ghost parts: { Parts file.now lanes.now links.now sections.now places.now },
}

// Records with the row of each lane number.
#[derive(Clone, Copy)]
struct Numbered<'a> {
    records: Records<'a>,
    rows: &'a [u16],
    ghost by_number: { ByNumber rows.now (map (key_at records.file.now 0) records.lanes.now) 0 },
}

// The key of a road's section. Sections are found by it alone, so a lane's number never finds one.
fn section_key(road: RoadId, index: usize) -> usize
    requires { (road.0 < 65536) × (index < 65536) }
    ensures { result ≡ road.0 * 65536 + index }
{
    road.0 * 65536 + index
}

// A road with index, as one number.
pub fn pair(file: &[u8], at: usize) -> usize
    requires { at + 4 ≤ length file.now }
    ensures { (result ≡ pair_at file.now at) × (result < 4294967296) }
{
    section_key(RoadId(u16_at(file, at)), u16_at(file, at + 2))
}

// An OpenDRIVE lane number plus 2^31.
#[tactic(auto, unfolding(plan_format::specs::Records::raised_at))]
pub fn raised(file: &[u8], at: usize) -> usize
    requires { at + 4 ≤ length file.now }
    ensures { (result ≡ raised_at file.now at) × (result < 4294967296) }
{
    let n = u32_at(file, at);
    if n < 2147483648 {
        return n + 2147483648;
    }
    n - 2147483648
}

impl Key {
    // The key of the record at `at`.
    #[tactic(auto, unfolding(crate::specs::Keys::key_at))]
    fn of(self, file: &[u8], at: usize) -> usize
        requires { at + 16 ≤ length file.now }
        ensures { result ≡ key_at file.now (which self) at }
    {
        match self {
            Key::Lane => u16_at(file, at + 6),
            Key::Section => pair(file, at + 6),
            Key::PlaceInSection => pair(file, at + 8) * 4294967296 + raised(file, at + 12),
        }
    }
}

// Puts the keys of the records of a part into an empty list. One by one, since `extend` answers a `Result`.
// Here and below a file and a list with `Listed`: a struct of the two would be no plainer, since every clause would name both through it.
fn put_keys<const N: usize>(file: &[u8], part: &[usize], kind: Key, keys: &mut ArrayVec<usize, N>)
    requires { Listed file.now part.now N × (keys.old.items ≡ []) }
    ensures { keys.new.items ≡ map (key_at file.now (which kind)) part.now }
{
    for at in part {
        keys.push(kind.of(file, *at));
    }
}

// The keys of the records of a part.
pub fn keys<const N: usize>(file: &[u8], part: &[usize], kind: Key) -> ArrayVec<usize, N>
    requires { Listed file.now part.now N }
    ensures { result.items ≡ map (key_at file.now (which kind)) part.now }
{
    let mut keys = ArrayVec::new();
    put_keys(file, part, kind, &mut keys);
    keys
}

// Whether x is one of the keys. Without a branch, so that several are compared at once: a file seldom has a key twice.
fn holds(keys: &[usize], x: usize) -> bool
    ensures { result ≡ holds x keys.now }
{
    let mut found = false;
    for key in keys {
        found |= *key == x;
    }
    found
}

// Whether one of the keys stands twice: each is sought among those after it.
// By `while let`: with `any` over the indices a file of 256 lanes and 4,096 points was read in 56 µs, where it is in 50.
fn has_repeat(keys: &[usize]) -> bool
    ensures { result ≡ repeats keys.now }
{
    let mut rest = keys;
    while let Some((key, later)) = rest.split_first() {
        if holds(later, *key) {
            return true;
        }
        rest = later;
    }
    false
}

// Number 7 for one kind of key. The list is filled in place, since the answer of `keys` would be copied here.
fn repeats_key(file: &[u8], part: &[usize], kind: Key) -> bool
    requires { Listed file.now part.now 256 }
    ensures { result ≡ repeats (map (key_at file.now (which kind)) part.now) }
{
    let mut keys = ArrayVec::<usize, 256>::new();
    put_keys(file, part, kind, &mut keys);
    has_repeat(&keys)
}

// The rows of lanes by their numbers, or of places by their lanes'. Backwards, so that the first with a number stays.
// An entry is 256 where there is no row, since `links`, for C, is written with the entries as they stand.
// Here and below a slice with its length in the contract: an array's type would ask more of a caller.
pub fn index_numbers(file: &[u8], part: &[usize], rows: &mut [u16])
    requires { Listed file.now part.now 256 × (length rows.old ≡ 65536) }
    ensures { ByNumber rows.new (map (key_at file.now 0) part.now) 0 }
{
    rows.fill(256);
    for i in (0..part.len()).rev() {
        let n = u16_at(file, part[i] + 6);
        rows[n] = i as u16;
    }
}

// The row of the lane that a record names first.
pub fn lane_row(file: &[u8], at: usize, rows: &[u16]) -> Option<usize>
    requires { (at + 8 ≤ length file.now) × (length rows.now ≡ 65536) }
    ensures row { unwrap_or result 256 ≡ get_or rows.now (u16_at file.now (at + 6)) 0 }
    ensures found { IfSome result (λ i. i ≢ 256) }
    ensures number { u16_at file.now (at + 6) < 65536 }
{
    match rows[u16_at(file, at + 6)] {
        256 => None,
        row => Some(row as usize),
    }
}

// Where k first stands among the keys.
pub fn find(keys: &[usize], k: usize) -> Option<usize>
    ensures place { (d : ℕ) → unwrap_or result d ≡ index_of k keys.now 0 d }
    ensures within { IfSome result (λ i. i < length keys.now) }
{
    keys.iter().position(|key| *key == k)
}

impl<'a> Numbered<'a> {
    // Whether a link's from-lane is missing.
    fn from_missing(&self) -> bool
        ensures { result ≡ any (from_missing (map (key_at self.now.records.file.now 0) self.now.records.lanes.now))
            (map (link_at self.now.records.file.now) self.now.records.links.now) }
    {
        self.records
            .links
            .iter()
            .any(|at| lane_row(self.records.file, *at, self.rows).is_none())
    }

    // Whether the lane or the section of the place at `at` is missing, or they differ in count. `keys` has the sections' keys.
    // By `let else`, since a test has no refusal that `?` could hand on.
    fn is_misplaced(&self, at: usize, keys: &[usize]) -> bool
        requires { (at + 16 ≤ length self.now.records.file.now)
            × (keys.now ≡ map (key_at self.now.records.file.now 1) self.now.records.sections.now) }
        ensures { result ≡ misplaced_in self.now.records.file.now self.now.records.lanes.now self.now.records.sections.now at }
    {
        let Some(lane) = lane_row(self.records.file, at, self.rows) else {
            return true;
        };
        let Some(section) = find(keys, pair(self.records.file, at + 8)) else {
            return true;
        };
        u16_at(self.records.file, self.records.lanes[lane] + 11)
            != u16_at(self.records.file, self.records.sections[section] + 26)
    }

    // Number 8 for the places.
    fn any_misplaced(&self) -> bool
        ensures { result ≡ any (misplaced_in self.now.records.file.now self.now.records.lanes.now self.now.records.sections.now)
            self.now.records.places.now }
    {
        let keys = keys::<64>(self.records.file, self.records.sections, Key::Section);
        self.records
            .places
            .iter()
            .any(|at| self.is_misplaced(*at, &keys))
    }
}

impl<'a> Records<'a> {
    // Number 7.
    #[tactic(auto, unfolding(crate::specs::Keys::twice_in))]
    fn any_twice(&self) -> bool
        ensures { result ≡ twice_in self.now.file.now self.now.lanes.now self.now.sections.now self.now.places.now }
    {
        repeats_key(self.file, self.lanes, Key::Lane)
            || repeats_key(self.file, self.sections, Key::Section)
            || repeats_key(self.file, self.places, Key::Lane)
            || repeats_key(self.file, self.places, Key::PlaceInSection)
    }

    // What the whole file is refused for; for a file that is not, `rows` then has the row of each lane number.
    pub fn whole(&self, side: usize, rows: &mut [u16]) -> Result<(), Refusal>
        requires { length rows.old ≡ 65536 }
        ensures number { found_number result ≡ whole_in self.now.file.now side self.now.lanes.now self.now.links.now
            self.now.sections.now self.now.places.now }
        ensures rows { OnOk result (ByNumber rows.new (map (key_at self.now.file.now 0) self.now.lanes.now) 0) }
    {
        if 1 < side {
            return Err(Refusal::OutOfRange);
        }
        if self.any_twice() {
            return Err(Refusal::StandsTwice);
        }
        index_numbers(self.file, self.lanes, rows);
        let numbered = Numbered {
            records: *self,
            rows,
        };
        if numbered.from_missing() || numbered.any_misplaced() {
            return Err(Refusal::Missing);
        }
        Ok(())
    }
}
