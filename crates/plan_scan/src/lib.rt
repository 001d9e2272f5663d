// The records of a plan file one by one: numbers 3 to 6, the counts, and where each record starts.
#![tactic(auto)]

ghost use Rattle.std.specs.Prelude.{◌≡◌, false, true, ◌&&◌, ◌+◌, ◌*◌, ◌≤◌, ◌<◌, length, IfOk, MatchOption};
ghost use Rattle.fields.specs.Fields.{u16_at, u32_at};
ghost use Rattle.plan_format.specs.Kinds.{kind_number};
ghost use Rattle.plan_format.specs.Records.{floats, doubles, lane_at, section_at};
ghost use Rattle.plan_format.specs.Plan.{coordinate, station, every, rises_from, rises, lane_fits, section_fits, fits, lane_range};
ghost use Rattle.plan_format.specs.Plan.{section_range, in_range, items_at, record_number, walked};
ghost use Rattle.plan_format.specs.Queries.{whole};
ghost use Rattle.plan_format.specs.Refusals.{found_number, read_by};
ghost use Rattle.plan_scan.specs.Scan.{Reads, Scanned, counts_in};

use fields::{f32_at, f64_at, u8_at, u16_at, u32_at};
use plan_format::{Counts, Kind, Refusal, Role};
use starts::Record;
pub use starts::RecordStarts;

mod starts;

const LOW: f32 = -4096.0;

// Coordinates and stations have two widths, each with bounds of its own: one test for both would be passed the bounds.
fn is_coordinate(x: f32) -> bool
    ensures { result ≡ coordinate x }
{
    LOW <= x && x <= 4096.0
}

fn is_station(x: f64) -> bool
    ensures { result ≡ station x }
{
    0.0 <= x && x <= 1048576.0
}

// Whether the n floats from `first` on are coordinates.
fn are_coordinates(file: &[u8], first: usize, n: usize) -> bool
    requires { first + 4 * n ≤ length file.now }
    ensures { result ≡ every coordinate (floats file.now first n) }
{
    (0..n).all(|k| is_coordinate(f32_at(file, first + 4 * k)))
}

// Whether the n floats from `first` on are stations, and rise from `below` on. The last is kept by hand, so that each is read once.
fn are_rising(file: &[u8], first: usize, below: f64, n: usize) -> bool
    requires { first + 8 * n ≤ length file.now }
    ensures { result ≡ (every station (doubles file.now first n) && rises_from below (doubles file.now first n)) }
{
    let mut last = below;
    for k in 0..n {
        let x = f64_at(file, first + 8 * k);
        if !is_station(x) {
            return false;
        }
        if !(last < x) {
            return false;
        }
        last = x;
    }
    true
}

// Whether the n floats from `first` on are stations, and rise.
fn are_stations(file: &[u8], first: usize, n: usize) -> bool
    requires { first + 8 * n ≤ length file.now }
    ensures { result ≡ (every station (doubles file.now first n) && rises (doubles file.now first n)) }
{
    if n == 0 {
        return true;
    }
    let x = f64_at(file, first);
    is_station(x) && are_rising(file, first + 8, x, n - 1)
}

// A whole record: its head and its payload lie within the file.
#[derive(Clone, Copy)]
pub struct WholeRecord<'a> {
    pub file: &'a [u8],
    // where it starts
    pub at: usize,
    // the length of its payload
    pub size: usize,
    pub ghost within: { at + 6 + size ≤ length file.now },
}

impl<'a> WholeRecord<'a> {
    // The record at `at`, where a whole one starts there.
    #[tactic(auto, unfolding(plan_format::specs::Queries::whole))]
    pub fn read(file: &'a [u8], at: usize) -> Option<WholeRecord<'a>>
        ensures { MatchOption result (whole file.now at ≡ false)
            (λ found. (found.file.now ≡ file.now) × (found.at ≡ at) × (found.size ≡ u32_at file.now at) × (whole file.now at ≡ true)) }
    {
        let room = file.len().checked_sub(6)?.checked_sub(at)?;
        let size = u32_at(file, at);
        if room < size {
            return None;
        }
        Some(WholeRecord { file, at, size })
    }

    // Where the next starts.
    pub fn next(&self) -> usize
        ensures { result ≡ self.now.at + 6 + self.now.size }
    {
        self.at + 6 + self.size
    }

    // Number 4 for a lane: its count and its ends say how long it is.
    #[tactic(auto, unfolding(plan_format::specs::Plan::lane_fits))]
    fn lane_fits(&self) -> bool
        ensures { result ≡ lane_fits self.now.file.now self.now.at self.now.size }
    {
        if self.size < 7 {
            return false;
        }
        let tangents = if u8_at(self.file, self.at + 10) == 0 {
            0
        } else {
            24
        };
        self.size == 7 + 12 * u16_at(self.file, self.at + 11) + tangents
    }

    #[tactic(auto, unfolding(plan_format::specs::Plan::section_fits))]
    fn section_fits(&self) -> bool
        ensures { result ≡ section_fits self.now.file.now self.now.at self.now.size }
    {
        22 <= self.size && self.size == 22 + 8 * u16_at(self.file, self.at + 26)
    }

    // Number 4: whether the payload's length fits this kind.
    #[tactic(auto, unfolding(plan_format::specs::Plan::fits))]
    pub fn fits(&self, kind: Kind) -> bool
        ensures { result ≡ fits self.now.file.now self.now.at (kind_number kind) self.now.size }
    {
        match kind {
            Kind::Lane => self.lane_fits(),
            Kind::Link => self.size == 5,
            Kind::Section => self.section_fits(),
            Kind::Place => self.size == 10,
            Kind::Route => self.size == 24,
            Kind::Advance => self.size == 26,
            Kind::Beside => self.size == 11,
        }
    }

    // Number 4: the record as one of this kind, where its length fits.
    pub fn as_kind(&self, kind: Kind) -> Option<KnownRecord<'a>>
        ensures { MatchOption result (fits self.now.file.now self.now.at (kind_number kind) self.now.size ≡ false)
            (λ known. (known.whole ≡ self.now) × (known.kind ≡ kind)
            × (fits self.now.file.now self.now.at (kind_number kind) self.now.size ≡ true)) }
    {
        if !self.fits(kind) {
            return None;
        }
        Some(KnownRecord { whole: *self, kind })
    }
}

// A whole record whose length fits its kind.
#[derive(Clone, Copy)]
pub struct KnownRecord<'a> {
    pub whole: WholeRecord<'a>,
    pub kind: Kind,
    pub ghost fits: { fits whole.file.now whole.at (kind_number kind) whole.size ≡ true },
}

impl<'a> KnownRecord<'a> {
    // Number 5 for a lane. Its direction is tested as a number, since `Direction` stands in `beside`, above, with a case for every number.
    #[tactic(auto, unfolding(plan_format::specs::Plan::lane_range), using(crate::specs::Sizes::lane_size))]
    fn lane_in_range(&self) -> bool
        requires { kind_number self.now.kind ≡ 1 }
        ensures { result ≡ lane_range (lane_at self.now.whole.file.now self.now.whole.at) }
    {
        let WholeRecord { file, at, .. } = self.whole;
        let n = u16_at(file, at + 11);
        u8_at(file, at + 8) <= 27
            && u8_at(file, at + 9) <= 2
            && u8_at(file, at + 10) <= 1
            && 2 <= n
            && are_coordinates(file, at + 13, 3 * n)
    }

    // Number 5 for a section.
    #[tactic(auto, unfolding(plan_format::specs::Plan::section_range), using(crate::specs::Sizes::section_size))]
    fn section_in_range(&self) -> bool
        requires { kind_number self.now.kind ≡ 3 }
        ensures { result ≡ section_range (section_at self.now.whole.file.now self.now.whole.at) }
    {
        let WholeRecord { file, at, .. } = self.whole;
        let start = f64_at(file, at + 10);
        let end = f64_at(file, at + 18);
        let n = u16_at(file, at + 26);
        is_station(start)
            && is_station(end)
            && start <= end
            && 2 <= n
            && are_stations(file, at + 28, n)
    }

    // Number 5: whether the fields are in their ranges. A side is tested as a number, since `Side`, too, has a case for every one.
    #[tactic(auto, unfolding(plan_format::specs::Plan::in_range, plan_format::specs::Plan::fits))]
    fn in_range(&self) -> bool
        ensures { result ≡ in_range self.now.whole.file.now self.now.whole.at (kind_number self.now.kind) }
    {
        let WholeRecord { file, at, .. } = self.whole;
        match self.kind {
            Kind::Lane => self.lane_in_range(),
            Kind::Link => Role::try_from(u8_at(file, at + 8)).is_ok(),
            Kind::Section => self.section_in_range(),
            Kind::Beside => u8_at(file, at + 16) <= 1,
            Kind::Place | Kind::Route | Kind::Advance => true,
        }
    }

    // The points of a lane or the stations of a section.
    #[tactic(auto, using(crate::specs::Sizes::lane_size, crate::specs::Sizes::section_size))]
    fn items(&self) -> usize
        ensures { (result ≡ items_at self.now.whole.file.now self.now.whole.at (kind_number self.now.kind)) × (result < 65536) }
    {
        let WholeRecord { file, at, .. } = self.whole;
        match self.kind {
            Kind::Lane => u16_at(file, at + 11),
            Kind::Section => u16_at(file, at + 26),
            _ => 0,
        }
    }
}

// The record at `at`, after those of `starts`: numbers 3 to 6.
#[tactic(auto, unfolding(plan_format::specs::Plan::record_number, plan_format::specs::Queries::whole), using(plan_format::specs::Kinds::kind_known))]
fn record_at(file: &[u8], at: usize, starts: &RecordStarts) -> Result<Record, Refusal>
    ensures number { found_number result ≡ record_number file.now at (counts_in starts.now) }
    ensures read { IfOk result (Reads file.now at) }
{
    let found = WholeRecord::read(file, at).ok_or(Refusal::CutRecord)?;
    let kind = Kind::try_from(u16_at(file, at + 4))?;
    let known = found.as_kind(kind).ok_or(Refusal::WrongRecord)?;
    if !known.in_range() {
        return Err(Refusal::OutOfRange);
    }
    let items = known.items();
    if !starts.keeps_within(kind, items) {
        return Err(Refusal::PastLimit);
    }
    Ok(Record {
        kind,
        items,
        next: found.next(),
    })
}

// The first refusal of a record, or the counts; then `starts` has where the records start.
pub fn scan(file: &[u8], starts: &mut RecordStarts) -> Result<Counts, Refusal>
    ensures { Scanned file.now (walked file.now) (read_by result) starts.new }
{
    starts.clear();
    // each record says how long it is: no range has these steps
    let mut at = 0;
    while at < file.len() {
        let record = record_at(file, at, starts)?;
        starts.add(at, record);
        at = record.next;
    }
    Ok(starts.counts())
}
