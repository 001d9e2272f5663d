// The tables that a public call is lent: the plan of a file read into them, with the arc length and the tangent at each of its points.
#![tactic(auto)]

ghost use Rattle.std.specs.Prelude.{◌≡◌, ◌*◌, take};
ghost use Rattle.geometry.specs.Over.{over};
ghost use Rattle.geometry_rows.specs.Rows.{cumulative_rows, tangent_rows};
ghost use Rattle.plan_format.specs.Reading.{opened};
ghost use Rattle.plan_format.specs.Refusals.{read_by};
ghost use Rattle.tables.specs.LaneTables.{Opens, lane_tables, too_short};
ghost use Rattle.tables.specs.Opening.{Polylines};

use geometry_rows::{build_cumulative, build_tangents};
use plan::read_plan;
use plan_format::{Counts, Refusal};

// The arc lengths and the tangents of n lanes with m points, from their rows in the plan's tables.
fn build(
    lanes: &[usize],
    points: &[f32],
    ends: &[f32],
    n: usize,
    m: usize,
    cumulative: &mut [f32],
    tangents: &mut [f32],
)
    requires { Polylines lanes.now points.now ends.now n m cumulative.old tangents.old }
    ensures { (cumulative.new ≡ over (cumulative_rows (take (6 * n) lanes.now) (take (3 * m) points.now) n)
        cumulative.old)
        × (tangents.new ≡ over (tangent_rows (take (6 * n) lanes.now) (take (3 * m) points.now)
        (take (6 * n) ends.now) n) tangents.old) }
{
    let a = 6 * n;
    let b = 3 * m;
    let ls = &lanes[..a];
    let ps = &points[..b];
    let es = &ends[..a];
    build_cumulative(ls, n, ps, cumulative);
    build_tangents(ls, n, ps, es, tangents);
}

// Reads the plan of a file into the lent tables: numbers 1 to 8, or the counts. Nothing is written of a file that is refused.
// `side` is the side that a caller gives, 0 where none does. The tables come one by one, as C lends them.
pub fn open(
    file: &[u8],
    side: usize,
    lanes: &mut [usize],
    points: &mut [f32],
    ends: &mut [f32],
    fans: &mut [usize],
    links: &mut [usize],
    sections: &mut [usize],
    bounds: &mut [f64],
    stations: &mut [f64],
    places: &mut [usize],
    cumulative: &mut [f32],
    tangents: &mut [f32],
) -> Result<Counts, Refusal>
    ensures { Opens
        (opened
        (too_short
        (lane_tables lanes.old points.old ends.old fans.old links.old
        sections.old bounds.old stations.old places.old cumulative.old
        tangents.old))
        side file.now)
        (read_by result)
        (lane_tables lanes.old points.old ends.old fans.old links.old
        sections.old bounds.old stations.old places.old cumulative.old
        tangents.old)
        (lane_tables lanes.new points.new ends.new fans.new links.new
        sections.new bounds.new stations.new places.new cumulative.new
        tangents.new) }
{
    if cumulative.len() < 4096 {
        return Err(Refusal::ShortTable);
    }
    if tangents.len() < 12288 {
        return Err(Refusal::ShortTable);
    }
    let counts = read_plan(
        file, side, lanes, points, ends, fans, links, sections, bounds, stations, places,
    )?;
    let n = counts.lanes;
    let m = counts.points;
    build(lanes, points, ends, n, m, cumulative, tangents);
    Ok(counts)
}
