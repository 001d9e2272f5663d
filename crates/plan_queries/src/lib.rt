// The queries of a plan file one by one, in file order.
#![tactic(auto)]

ghost use Rattle.std.specs.Prelude.{◌≡◌, false, true, ◌+◌, MatchOption};
ghost use Rattle.fields.specs.Fields.{u16_at};
ghost use Rattle.plan_format.specs.Kinds.{kind_number};
ghost use Rattle.plan_format.specs.Queries.{is_query, next_query};
ghost use Rattle.plan_format.specs.Records.{advance_at, beside_at, query_at, route_at};

use fields::{f32_at, f64_at, u8_at, u16_at};
use plan_format::{Kind, LaneId, Query};
use plan_scan::{KnownRecord, WholeRecord};

// The kind with this number, where it is a query's.
fn query_kind(number: usize) -> Option<Kind>
    ensures { MatchOption result (is_query number ≡ false) (λ kind. (kind_number kind ≡ number) × (is_query number ≡ true)) }
{
    Kind::try_from(number).ok().filter(|kind| kind.is_query())
}

fn route_at(found: &WholeRecord) -> Query
    requires { found.now.size ≡ 24 }
    ensures { result ≡ route_at found.now.file.now found.now.at }
{
    let WholeRecord { file, at, .. } = *found;
    Query::Route(
        f32_at(file, at + 6),
        f32_at(file, at + 10),
        f32_at(file, at + 14),
        f32_at(file, at + 18),
        f32_at(file, at + 22),
        f32_at(file, at + 26),
    )
}

fn advance_at(found: &WholeRecord) -> Query
    requires { found.now.size ≡ 26 }
    ensures { result ≡ advance_at found.now.file.now found.now.at }
{
    let WholeRecord { file, at, .. } = *found;
    Query::Advance(
        LaneId(u16_at(file, at + 6)),
        f64_at(file, at + 8),
        f64_at(file, at + 16),
        f64_at(file, at + 24),
    )
}

fn beside_at(found: &WholeRecord) -> Query
    requires { found.now.size ≡ 11 }
    ensures { result ≡ beside_at found.now.file.now found.now.at }
{
    let WholeRecord { file, at, .. } = *found;
    Query::Beside(
        LaneId(u16_at(file, at + 6)),
        f64_at(file, at + 8),
        u8_at(file, at + 16),
    )
}

// The query of a query's record.
#[tactic(auto, unfolding(plan_format::specs::Records::query_at, plan_format::specs::Plan::fits))]
fn query_at(known: &KnownRecord) -> Query
    requires { (kind_number known.now.kind ≡ u16_at known.now.whole.file.now (known.now.whole.at + 4))
        × (is_query (kind_number known.now.kind) ≡ true) }
    ensures { result ≡ query_at known.now.whole.file.now known.now.whole.at }
{
    match known.kind {
        Kind::Route => route_at(&known.whole),
        Kind::Advance => advance_at(&known.whole),
        _ => beside_at(&known.whole),
    }
}

// The first query from `first` on, with the place after it; of any bytes, the walk ends where no whole record follows.
#[tactic(auto, using(crate::specs::Seeking::seek_start, crate::specs::Seeking::seek_next))]
pub fn next_query(file: &[u8], first: usize) -> Option<(Query, usize)>
    ensures { result ≡ next_query file.now first }
{
    // each record says how long it is: no range has these steps
    let mut at = first;
    while let Some(found) = WholeRecord::read(file, at) {
        match query_kind(u16_at(file, at + 4)) {
            None => at = found.next(),
            Some(kind) => {
                let query = query_at(&found.as_kind(kind)?);
                return Some((query, found.next()));
            }
        }
    }
    None
}
