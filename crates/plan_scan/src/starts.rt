// A record that was read, and where the records of a plan file start.
#![tactic(auto)]

ghost use Rattle.std.specs.Prelude.{◌≡◌, true, ◌≤◌, ◌<◌};
ghost use Rattle.plan_format.specs.Kinds.{kind_number};
ghost use Rattle.plan_format.specs.Plan.{none, within};

use arrayvec::ArrayVec;
use plan_format::{Counts, Kind};

// A record whose length and fields are as they should be, within the limits.
#[derive(Clone, Copy)]
pub(crate) struct Record {
    pub(crate) kind: Kind,
    // the points of a lane or the stations of a section
    pub(crate) items: usize,
    // where the next starts
    pub(crate) next: usize,
}

// Where the records of each kind start, in file order, with the points and the stations in all. The start of a query is not kept.
#[derive(Drop)]
pub struct RecordStarts {
    pub lanes: ArrayVec<usize, 256>,
    pub links: ArrayVec<usize, 2048>,
    pub sections: ArrayVec<usize, 64>,
    pub places: ArrayVec<usize, 256>,
    points: usize,
    stations: usize,
    ghost few_points: { points ≤ 4096 },
    ghost few_stations: { stations ≤ 4096 },
}

impl RecordStarts {
    ghost use Rattle.plan_scan.specs.Scan.{Kept, Grows, counts_in};

    pub fn new() -> RecordStarts
        ensures { Kept result none }
    {
        RecordStarts {
            lanes: ArrayVec::new(),
            links: ArrayVec::new(),
            sections: ArrayVec::new(),
            places: ArrayVec::new(),
            points: 0,
            stations: 0,
        }
    }

    pub(crate) fn clear(&mut self)
        ensures { Kept self.new none }
    {
        self.lanes.clear();
        self.links.clear();
        self.sections.clear();
        self.places.clear();
        self.points = 0;
        self.stations = 0;
    }

    pub fn counts(&self) -> Counts
        ensures { result ≡ counts_in self.now }
    {
        Counts {
            lanes: self.lanes.len(),
            points: self.points,
            links: self.links.len(),
            sections: self.sections.len(),
            stations: self.stations,
            places: self.places.len(),
        }
    }

    // Number 6: whether one record more keeps within the limits.
    #[tactic(auto, unfolding(plan_format::specs::Plan::within))]
    pub(crate) fn keeps_within(&self, kind: Kind, n: usize) -> bool
        requires { n < 65536 }
        ensures { result ≡ within (kind_number kind) n (counts_in self.now) }
    {
        match kind {
            Kind::Lane => !self.lanes.is_full() && self.points + n <= 4096,
            Kind::Link => !self.links.is_full(),
            Kind::Section => !self.sections.is_full() && self.stations + n <= 4096,
            Kind::Place => !self.places.is_full(),
            Kind::Route | Kind::Advance | Kind::Beside => true,
        }
    }

    // One record more, which starts at `at`.
    pub(crate) fn add(&mut self, at: usize, found: Record)
        requires { within (kind_number found.kind) found.items (counts_in self.old) ≡ true }
        ensures { Grows at (kind_number found.kind) found.items self.old self.new }
    {
        match found.kind {
            Kind::Lane => {
                self.lanes.push(at);
                self.points += found.items;
            }
            Kind::Link => self.links.push(at),
            Kind::Section => {
                self.sections.push(at);
                self.stations += found.items;
            }
            Kind::Place => self.places.push(at),
            _ => {}
        }
    }
}
