// The plan of a file in the lent tables: `check` reads only, `load` writes, `read_plan` does both for every input.
#![tactic(auto)]

ghost use Rattle.std.specs.Prelude.{◌≡◌, length, map, OnOk, nat_lt};
ghost use Rattle.std.specs.List.{list_any};
ghost use Rattle.plan_format.specs.Tables.{tables};
ghost use Rattle.plan_format.specs.Reading.{Answers, opened, short};
ghost use Rattle.plan_format.specs.Refusals.{found_number, read_by};
ghost use Rattle.plan_whole.specs.Whole.{whole_in};
ghost use Rattle.plan_whole.specs.ByNumber.{ByNumber};
ghost use Rattle.plan_whole.specs.Keys.{key_at};
ghost use Rattle.plan.specs.Checking.{Standing, Loadable, Checked};
ghost use Rattle.plan.specs.Loading.{Long, Loads};

use plan_format::{Counts, Refusal};
use plan_links::load_links;
use plan_rows::{
    load_bounds, load_ends, load_lanes, load_places, load_points, load_sections, load_stations,
};
use plan_scan::{RecordStarts, scan};
use plan_whole::Records;

// What the whole file is refused for, after a scan that found nothing and these starts.
fn check_whole(
    file: &[u8],
    side: usize,
    starts: &RecordStarts,
    index: &mut [u16],
) -> Result<(), Refusal>
    requires { Standing file.now starts.now × (length index.old ≡ 65536) }
    ensures number { found_number result ≡ whole_in file.now side starts.now.lanes.items starts.now.links.items
        starts.now.sections.items starts.now.places.items }
    ensures rows { OnOk result (ByNumber index.new (map (key_at file.now 0) starts.now.lanes.items) 0) }
{
    let records = Records {
        file,
        lanes: starts.lanes.as_slice(),
        links: starts.links.as_slice(),
        sections: starts.sections.as_slice(),
        places: starts.places.as_slice(),
    };
    records.whole(side, index)
}

// What a file is refused for, numbers 2 to 8, or its counts. `side` is the side that a caller gives, a number
// as C gives it, 0 where none does.
// For an accepted file `starts` then has where its records start, `index` the row of each lane number.
pub fn check(
    file: &[u8],
    side: usize,
    starts: &mut RecordStarts,
    index: &mut [u16],
) -> Result<Counts, Refusal>
    requires { length index.old ≡ 65536 }
    ensures { Checked side file.now (read_by result) starts.new index.new }
{
    if 65536 < file.len() {
        return Err(Refusal::LongFile);
    }
    let counts = scan(file, starts)?;
    check_whole(file, side, starts, index)?;
    Ok(counts)
}

// The tables of an accepted file, from what `check` found.
// Nine tables one by one, as C lends them: a struct of lent slices would owe a clause for each slice that it still is the one lent.
pub fn load(
    file: &[u8],
    starts: &RecordStarts,
    index: &[u16],
    lanes: &mut [usize],
    points: &mut [f32],
    ends: &mut [f32],
    fans: &mut [usize],
    links: &mut [usize],
    sections: &mut [usize],
    bounds: &mut [f64],
    stations: &mut [f64],
    places: &mut [usize],
)
    requires { Loadable file.now starts.now index.now
        × Long
        (tables lanes.old points.old ends.old fans.old links.old sections.old bounds.old stations.old
        places.old) }
    ensures { Loads file.now
        (tables lanes.old points.old ends.old fans.old links.old
        sections.old bounds.old stations.old places.old)
        (tables lanes.new points.new ends.new fans.new links.new
        sections.new bounds.new stations.new places.new) }
{
    let ls = starts.lanes.as_slice();
    let ks = starts.links.as_slice();
    let ss = starts.sections.as_slice();
    let ps = starts.places.as_slice();
    load_lanes(file, ls, lanes);
    load_points(file, ls, points);
    load_ends(file, ls, ends);
    load_links(file, ls, ks, ps, index, links, fans);
    load_sections(file, ss, sections);
    load_bounds(file, ss, bounds);
    load_stations(file, ss, stations);
    load_places(file, ls, ss, ps, index, places);
}

// Whether a table is shorter than its limit, each a length with its limit.
fn are_short(tables: &[(usize, usize)]) -> bool
    ensures { result ≡ list_any (λ t. nat_lt t.0 t.1) tables.now }
{
    tables.iter().any(|(length, limit)| length < limit)
}

// Reads the plan of a file into the lent tables, which come one by one, as C lends them: numbers 1 to 8, or the counts. Nothing is written of a file
// that is refused.
pub fn read_plan(
    file: &[u8],
    side: usize,
    lanes: &mut [usize],
    points: &mut [f32],
    ends: &mut [f32],
    fans: &mut [usize],
    links: &mut [usize],
    sections: &mut [usize],
    bounds: &mut [f64],
    stations: &mut [f64],
    places: &mut [usize],
) -> Result<Counts, Refusal>
    ensures { Answers
        (opened
        (short
        (tables lanes.old points.old ends.old fans.old links.old
        sections.old bounds.old stations.old places.old))
        side file.now)
        (read_by result)
        (tables lanes.old points.old ends.old fans.old links.old
        sections.old bounds.old stations.old places.old)
        (tables lanes.new points.new ends.new fans.new links.new
        sections.new bounds.new stations.new places.new) }
{
    let lengths = [
        (lanes.len(), 1536),
        (points.len(), 12288),
        (ends.len(), 1536),
        (fans.len(), 1280),
        (links.len(), 4096),
        (sections.len(), 256),
        (bounds.len(), 128),
        (stations.len(), 4096),
        (places.len(), 768),
    ];
    if are_short(&lengths) {
        return Err(Refusal::ShortTable);
    }
    let mut starts = RecordStarts::new();
    // an entry for each number that a lane can have
    let mut index = [0u16; 65536];
    let counts = check(file, side, &mut starts, &mut index)?;
    load(
        file, &starts, &index, lanes, points, ends, fans, links, sections, bounds, stations, places,
    );
    Ok(counts)
}
