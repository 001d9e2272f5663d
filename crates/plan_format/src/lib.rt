// The plan file: its answers and queries as values. What a file means stands in specs/.
#![tactic(auto)]

ghost use Rattle.std.specs.Prelude.{◌≡◌};
ghost use Rattle.plan_format.specs.Kinds.{kind_number, kind_of};
ghost use Rattle.plan_format.specs.Queries.{is_query};
ghost use Rattle.plan_format.specs.Refusals.{number_of, read_by};
ghost use Rattle.plan_format.specs.Roles.{role_of};

// A lane by its number, and a road by its number: neither stands for the other, nor for a row of a table.
#[repr(C)]
#[derive(Clone, Copy)]
pub struct LaneId(pub usize);

#[derive(Clone, Copy)]
pub struct RoadId(pub usize);

// Why a call is refused.
#[derive(Clone, Copy, Debug, PartialEq, Eq)]
pub enum Refusal {
    ShortTable = 1,
    LongFile,
    CutRecord,
    WrongRecord,
    OutOfRange,
    PastLimit,
    StandsTwice,
    Missing,
    NotAPoint,
    NoneDrives,
    NoWay,
    NotOnALane,
    NotADistance,
    TooMuch,
    NoneBeside,
}

impl Refusal {
    // The number that an answer gives for it; by name, since `usize::from` would not say that it is one.
    pub fn number(self) -> usize
        ensures { result ≡ number_of self }
    {
        self as usize
    }
}

// What a record is.
#[derive(Clone, Copy, Debug, PartialEq, Eq)]
pub enum Kind {
    Lane,
    Link,
    Section,
    Place,
    Route,
    Advance,
    Beside,
}

// The kind with this number; a record of no kind is refused.
impl TryFrom<usize> for Kind {
    type Error = Refusal;

    ghost try_from_gives = { λ number result. result ≡ kind_of number };

    fn try_from(number: usize) -> Result<Kind, Refusal> {
        match number {
            1 => Ok(Kind::Lane),
            2 => Ok(Kind::Link),
            3 => Ok(Kind::Section),
            4 => Ok(Kind::Place),
            16 => Ok(Kind::Route),
            17 => Ok(Kind::Advance),
            18 => Ok(Kind::Beside),
            _ => Err(Refusal::WrongRecord),
        }
    }
}

impl Kind {
    // Whether a record of this kind asks something of the plan.
    pub fn is_query(self) -> bool
        ensures { result ≡ is_query (kind_number self) }
    {
        matches!(self, Kind::Route | Kind::Advance | Kind::Beside)
    }
}

// What the lane that a link leads to is to the lane that it leaves.
#[derive(Clone, Copy, Debug, PartialEq, Eq)]
pub enum Role {
    Successor,
    Predecessor,
    Neighbour,
}

// The role with this number; any other is out of its range.
impl TryFrom<usize> for Role {
    type Error = Refusal;

    ghost try_from_gives = { λ number result. result ≡ role_of number };

    fn try_from(number: usize) -> Result<Role, Refusal> {
        match number {
            0 => Ok(Role::Successor),
            1 => Ok(Role::Predecessor),
            2 => Ok(Role::Neighbour),
            _ => Err(Refusal::OutOfRange),
        }
    }
}

// How many entries of each kind a plan has.
#[repr(C)]
#[derive(Clone, Copy, Default)]
pub struct Counts {
    pub lanes: usize,
    pub points: usize,
    pub links: usize,
    pub sections: usize,
    pub stations: usize,
    pub places: usize,
}

// What C gets for reading a plan: document 01's number, 0 for a plan, and the counts, 0 where refused.
#[repr(C)]
#[derive(Clone, Copy)]
pub struct Read {
    pub number: usize,
    pub counts: Counts,
}

impl From<Result<Counts, Refusal>> for Read {
    ghost from_gives = { λ answer read. read ≡ read_by answer };

    fn from(answer: Result<Counts, Refusal>) -> Read {
        match answer {
            Ok(counts) => Read { number: 0, counts },
            Err(refusal) => Read {
                number: refusal.number(),
                counts: Counts::default(),
            },
        }
    }
}

// A query record of the file.
#[derive(Clone, Copy)]
pub enum Query {
    // x, y, z from, and x, y, z to
    Route(f32, f32, f32, f32, f32, f32),
    // lane, s, offset, distance
    Advance(LaneId, f64, f64, f64),
    // lane, s, side: 0 left, 1 right, a number as in the call beside
    Beside(LaneId, f64, usize),
}
