// The tables `links` and `fans` of an accepted file: the links grouped by lane, then role, in file order.
// One pass chains the links of each lane and role; following the chains writes them, so the time is linear.
#![tactic(auto)]

ghost use Rattle.std.specs.Prelude.{◌≡◌, map, ◌+◌, ◌*◌, ◌≤◌, ◌<◌, length, replicate, None};
ghost use Rattle.std.proofs.lemmas.List.Edits.{sets};
ghost use Rattle.plan_format.specs.Laws.{Each, Room};
ghost use Rattle.plan_format.specs.Records.{link_at};
ghost use Rattle.plan_format.specs.Roles.{role_number};
ghost use Rattle.plan_format.specs.Tables.{over, rows, rows_from, group, fan_row, link_count};
ghost use Rattle.plan_scan.specs.Parts.{Roled};
ghost use Rattle.plan_whole.specs.Keys.{key_at, Listed};
ghost use Rattle.plan_links.specs.Chains.{Chained, Keyed, chained_prop, heads};
ghost use Rattle.plan_links.specs.Linked.{Linkable};

use fields::{u8_at, u16_at};
use lists::put_row;
use plan_format::Role;
use plan_whole::{index_numbers, lane_row};

// The links of a file as chains: for each lane and role the first link, and for each link the next of its lane and role.
// `starts` has where each link starts, `index` the row of each lane number. Arrays, since there is no heap: an entry for each chain and each link.
// They are lent, since a struct that held them would be copied when it is made and handed on.
#[derive(Drop)]
struct Links<'a> {
    file: &'a [u8],
    starts: &'a [usize],
    index: &'a [u16],
    first: &'a [Option<u16>],
    next: &'a [Option<u16>],
    ghost chained: { Chained file.now index.now starts.now (heads first.now) (heads next.now) } by { chained_prop _ _ _ _ _ },
}

// The number of the chain of a lane's links of one role.
fn chain(lane: usize, role: Role) -> usize
    requires { lane < 256 }
    ensures { (result ≡ 3 * lane + role_number role) × (result < 768) }
{
    3 * lane + role as usize
}

impl<'a> Links<'a> {
    ghost use Rattle.plan_links.specs.Kept.{kept, kept_rows, grouped, fanned};

    // `first` comes with no link in it; what `next` holds first does not matter.
    fn new(
        file: &'a [u8],
        starts: &'a [usize],
        index: &'a [u16],
        first: &'a mut [Option<u16>],
        next: &'a mut [Option<u16>],
    ) -> Self
        requires { Each (Room 11 file.now) starts.now
            × (length starts.now ≤ 2048)
            × Each (Roled file.now) starts.now
            × Each (Keyed file.now index.now) starts.now
            × (length index.now ≡ 65536)
            × (first.old ≡ replicate 768 None)
            × (length next.old ≡ 2048) }
        ensures { (result.file.now ≡ file.now) × (result.starts.now ≡ starts.now) × (result.index.now ≡ index.now) }
    {
        for j in (0..starts.len()).rev() {
            let at = starts[j];
            let lane = lane_row(file, at, index).unwrap();
            let role = Role::try_from(u8_at(file, at + 8)).unwrap();
            let q = chain(lane, role);
            next[j] = first[q];
            first[q] = Some(j as u16);
        }
        Links {
            file,
            starts,
            index,
            first,
            next,
        }
    }

    // Writes the rows of the links of the chain q, from the row `start` on; answers how many.
    fn write(&self, q: usize, out: &mut [usize], start: usize) -> usize
        requires { (q < 768)
            × (start + length (kept self.now q) ≤ 2048)
            × (4096 ≤ length out.old) }
        ensures { (result ≡ length (kept self.now q))
            × (out.new ≡ sets out.old (2 * start) (kept_rows self.now q)) }
    {
        // a chain is no range and no slice: its rows are counted as the links come
        let mut n = 0;
        let mut link = self.first[q];
        while let Some(j) = link {
            let j = j as usize;
            let to = u16_at(self.file, self.starts[j] + 9);
            let row = [to, self.index[to] as usize];
            put_row(&row, out, 2 * (start + n));
            n += 1;
            link = self.next[j];
        }
        n
    }

    // The links of each lane in turn, and its fan. `placed` has the row of the place of each lane number.
    // A fan, which is for C, has 256 for no place.
    fn group(&self, lanes: &[usize], placed: &[u16], out: &mut [usize], fans: &mut [usize])
        requires { Listed self.now.file.now lanes.now 256
            × (length placed.now ≡ 65536)
            × (4096 ≤ length out.old)
            × (1280 ≤ length fans.old) }
        ensures { (out.new ≡ over (grouped self.now lanes.now) out.old)
            × (fans.new ≡ over (fanned self.now placed.now lanes.now) fans.old) }
    {
        let mut k = 0;
        for (i, &at) in lanes.iter().enumerate() {
            let first = k;
            let a = self.write(chain(i, Role::Successor), out, k);
            k += a;
            let b = self.write(chain(i, Role::Predecessor), out, k);
            k += b;
            let c = self.write(chain(i, Role::Neighbour), out, k);
            k += c;
            let place = lane_row(self.file, at, placed).unwrap_or(256);
            let row = [first, a, b, c, place];
            put_row(&row, fans, 5 * i);
        }
    }
}

// Lanes, links and places start at the entries of `ls`, `ks`, `ps`; `index` has the row of each lane number.
// Lists and tables one by one, as C lends the tables: a struct of lent slices would owe a clause for each that it still is the one lent.
pub fn load_links(
    file: &[u8],
    ls: &[usize],
    ks: &[usize],
    ps: &[usize],
    index: &[u16],
    links: &mut [usize],
    fans: &mut [usize],
)
    requires { Linkable file.now ls.now ks.now ps.now index.now
        × (4096 ≤ length links.old)
        × (1280 ≤ length fans.old) }
    ensures { (links.new ≡ over
        (rows (group (map (key_at file.now 0) ls.now) (map (link_at file.now) ks.now))
        (map (key_at file.now 0) ls.now))
        links.old)
        ×
        (fans.new ≡ over
        (rows_from
        (fan_row (map (link_at file.now) ks.now) (map (key_at file.now 0) ps.now))
        (link_count (map (link_at file.now) ks.now)) 0 (map (key_at file.now 0) ls.now))
        fans.old) }
{
    // an entry for each number that a lane can have
    let mut placed = [0u16; 65536];
    index_numbers(file, ps, &mut placed);
    let mut first = [None; 768];
    let mut next = [None; 2048];
    Links::new(file, ks, index, &mut first, &mut next).group(ls, &placed, links, fans);
}
