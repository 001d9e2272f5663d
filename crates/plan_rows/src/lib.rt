// The tables that have a row for each lane, section or place of an accepted file; each is written front to back once.
// The lists `lanes`, `sections`, `places` have where the records of each kind start. Each function asks of its own list what it reads
// (`Listed`, `Each`, `Room`): a struct of the file and a list would be no plainer, since every clause would name both through it.
#![tactic(auto)]

ghost use Rattle.std.specs.Prelude.{◌≡◌, [], map, ◌+◌, ◌*◌, ◌≤◌, ◌<◌, length, get_or, ℕ, List, Float};
ghost use Rattle.std.proofs.lemmas.List.Edits.{sets};
ghost use Rattle.plan_format.specs.Laws.{Each, Room};
ghost use Rattle.plan_format.specs.Plan.{plan_of, lane_count, section_count};
ghost use Rattle.plan_format.specs.Records.{lane_at, section_at, place_at};
ghost use Rattle.plan_format.specs.Tables.{over, rows, rows_from, lane_row, point_row, end_row, section_row, bound_row, station_row};
ghost use Rattle.plan_format.specs.Tables.{place_row};
ghost use Rattle.plan_rows.specs.Counted.{Counts, Reads};
ghost use Rattle.plan_scan.specs.Parts.{Pointed, Ended, Stationed, listed};
ghost use Rattle.plan_scan.specs.Scan.{total};
ghost use Rattle.plan_whole.specs.Keys.{Listed};
ghost use Rattle.plan_whole.specs.Missing.{Searching};

use fields::{f32_at, f64_at, u8_at, u16_at};
use lists::put_row;
use plan_whole::{Key, find, keys, lane_row, pair, raised};

// Writes the values that `read` gives of the record at `at`.
fn put_values<T: Copy, R: Fn(usize, usize) -> T>(at: usize, read: &R, out: &mut [T])
    requires { (i : ℕ) → i < length out.old → R.pre read.now at i }
    ensures { (i : ℕ) (d : T) → i < length out.old → R.post read.now at i (get_or out.new i d) }
{
    for (i, x) in out.iter_mut().enumerate() {
        *x = read(at, i);
    }
}

// Writes the values of each record in turn: `count` answers how many it has, `read` gives the i-th.
fn put_rows<T: Copy, N: Fn(usize) -> usize, R: Fn(usize, usize) -> T>(
    starts: &[usize],
    out: &mut [T],
    count: N,
    read: R,
)
    requires counts { Each (λ at. N.pre count at) starts.now }
    requires reads { Each (λ at. (n i : ℕ) → N.post count at n → i < n → R.pre read at i) starts.now }
    requires room { (row : ℕ → List T) × Counts (N.post count) starts.now row × (length (rows row starts.now) ≤ length out.old) }
    ensures { (row : ℕ → List T) → Counts (N.post count) starts.now row → Reads (R.post read) starts.now row
        → out.new ≡ over (rows row starts.now) out.old }
{
    let mut k = 0;
    for &at in starts {
        let end = k + count(at);
        put_values(at, &read, &mut out[k..end]);
        k = end;
    }
}

// A loop here and in `load_sections`: the rows have only the sum of counts in common, and closures for it would be longer.
pub fn load_lanes(file: &[u8], lanes: &[usize], out: &mut [usize])
    requires { Listed file.now lanes.now 256 × (1536 ≤ length out.old) }
    ensures { out.new ≡ over (rows_from lane_row lane_count 0 (map (lane_at file.now) lanes.now))
        out.old }
{
    let mut first = 0;
    for (i, &at) in lanes.iter().enumerate() {
        let n = u16_at(file, at + 11);
        let row = [
            u16_at(file, at + 6),
            u8_at(file, at + 8),
            u8_at(file, at + 9),
            u8_at(file, at + 10),
            first,
            n,
        ];
        put_row(&row, out, 6 * i);
        first += n;
    }
}

pub fn load_points(file: &[u8], lanes: &[usize], out: &mut [f32])
    requires { Listed file.now lanes.now 256
        × Each (Pointed file.now) lanes.now
        × (total file.now 11 lanes.now ≤ 4096)
        × (12288 ≤ length out.old) }
    ensures { out.new ≡ over (rows point_row (map (lane_at file.now) lanes.now)) out.old }
{
    put_rows(
        lanes,
        out,
        |at| 3 * u16_at(file, at + 11),
        |at, i| f32_at(file, at + 13 + 4 * i),
    );
}

// The i-th of the six floats of a lane's tangents, zeros where it has none.
fn end_at(file: &[u8], at: usize, i: usize) -> f32
    requires { (at + 16 ≤ length file.now) × Ended file.now at × (i < 6) }
    ensures { (d : Float) → result ≡ get_or (end_row (lane_at file.now at)) i d }
{
    if u8_at(file, at + 10) == 0 {
        return 0.0;
    }
    let n = u16_at(file, at + 11);
    f32_at(file, at + 13 + 12 * n + 4 * i)
}

pub fn load_ends(file: &[u8], lanes: &[usize], out: &mut [f32])
    requires { Listed file.now lanes.now 256 × Each (Ended file.now) lanes.now × (1536 ≤ length out.old) }
    ensures { out.new ≡ over (rows end_row (map (lane_at file.now) lanes.now)) out.old }
{
    put_rows(lanes, out, |_| 6, |at, i| end_at(file, at, i));
}

pub fn load_sections(file: &[u8], sections: &[usize], out: &mut [usize])
    requires { Each (Room 28 file.now) sections.now × (length sections.now ≤ 64) × (256 ≤ length out.old) }
    ensures { out.new ≡ over
        (rows_from section_row section_count 0 (map (section_at file.now) sections.now)) out.old }
{
    let mut first = 0;
    for (i, &at) in sections.iter().enumerate() {
        let n = u16_at(file, at + 26);
        let row = [u16_at(file, at + 6), u16_at(file, at + 8), first, n];
        put_row(&row, out, 4 * i);
        first += n;
    }
}

pub fn load_bounds(file: &[u8], sections: &[usize], out: &mut [f64])
    requires { Each (Room 28 file.now) sections.now × (length sections.now ≤ 64) × (128 ≤ length out.old) }
    ensures { out.new ≡ over (rows bound_row (map (section_at file.now) sections.now)) out.old }
{
    put_rows(sections, out, |_| 2, |at, i| f64_at(file, at + 10 + 8 * i));
}

pub fn load_stations(file: &[u8], sections: &[usize], out: &mut [f64])
    requires { Each (Room 28 file.now) sections.now
        × Each (Stationed file.now) sections.now
        × (total file.now 26 sections.now ≤ 4096)
        × (4096 ≤ length out.old) }
    ensures { out.new ≡ over (rows station_row (map (section_at file.now) sections.now))
        out.old }
{
    put_rows(
        sections,
        out,
        |at| u16_at(file, at + 26),
        |at, i| f64_at(file, at + 28 + 8 * i),
    );
}

// `index` has the row of each lane number. The table, which is for C, has 256 for no lane and 64 for no section.
pub fn load_places(
    file: &[u8],
    lanes: &[usize],
    sections: &[usize],
    places: &[usize],
    index: &[u16],
    out: &mut [usize],
)
    requires { Listed file.now places.now 256
        × Searching file.now lanes.now sections.now index.now
        × (768 ≤ length out.old) }
    ensures { out.new ≡ over
        (rows (place_row (plan_of file.now (listed lanes.now [] sections.now [])))
        (map (place_at file.now) places.now))
        out.old }
{
    let keys = keys::<64>(file, sections, Key::Section);
    for (i, &at) in places.iter().enumerate() {
        let lane = lane_row(file, at, index).unwrap_or(256);
        let section = find(&keys, pair(file, at + 8)).unwrap_or(64);
        let row = [lane, section, raised(file, at + 12)];
        put_row(&row, out, 3 * i);
    }
}
