// network.rs: the index over the lanes that drive, and the nearest of them. `specs/` says what is answered. The lanes stand in the flat
// tables of the plan: `lanes` (number, type, direction, ends, first point, points), `points` (x y z of each) and `cumulative` (the arc
// length at each point).
#![tactic(auto)]

ghost use Rattle.std.specs.Prelude.{◌≡◌, ◌+◌, ◌-◌, ◌*◌, ◌<◌, ◌≤◌, length, true, [], ◌∷◌};
ghost use Rattle.std.proofs.lemmas.List.Edits.{sets};
ghost use Rattle.geometry.specs.Project.{project_segments};
ghost use Rattle.lists.specs.Over.{over};
ghost use Rattle.lists.specs.Rows.{rows};
ghost use Rattle.rows.specs.Rows.{arcs_of, point_count, points_of};
ghost use Rattle.grid.specs.Grid.{extent_of, Sides};
ghost use Rattle.grid.specs.Ring.{listed, row_cells, ring_of, Inside};
ghost use Rattle.network.specs.Lanes.{around, driving, drives_table};
ghost use Rattle.network.specs.Tables.{lane_at, lanes_from, Row, Rows, box_row, box_in, box_list, range_row, Added, Room, Built};
ghost use Rattle.network.specs.Tables.{span_list, Line, Index, columns_within, rows_within, within, told};
ghost use Rattle.network.specs.Tables.{CeilingIs, WinsIs, EnoughIs, MeasuredIs};
ghost use Rattle.network.specs.Nearest.{offered, offered_in, visit_cell, visit_ring, searched, grid_for, nearest_of};

use coords::Point;
use geometry::{Polyline, Projection};
use grid::{Aabb, Cell, Grid, Ring, Run};
use lists::put_row;

// Segments of a lane's centerline per indexed span.
const SPAN_SEGMENTS: usize = 4;

// Which lane types drive: Driving alone. A constant table, by a rule of the project.
pub const DRIVES: [bool; 28] = [
    false, true, false, false, false, false, false, false, false, false, false, false, false,
    false, false, false, false, false, false, false, false, false, false, false, false, false,
    false, false,
];

// An index of spans: how many there are, and the grid over them. `spans` (its lane's row, first segment, segment after the last), `boxes`
// (least and greatest x, least and greatest y) and `ranges` (first and last column, first and last row) hold the rest: C lends them one by one.
#[repr(C)]
#[derive(Clone, Copy)]
pub struct LaneIndex {
    pub count: usize,
    pub grid: Grid,
}

// The nearest span so far: the squared distance, the span's number, its lane's row and the projection onto it.
#[derive(Clone, Copy)]
pub struct Nearest {
    pub dist2: f32,
    pub span: usize,
    pub row: usize,
    pub projection: Projection,
}

// ---- the index

// The box around the points `first` to `end` of a lane.
fn around(line: &[f32], first: usize, end: usize) -> Aabb
    requires { (first ≤ end) × (3 * end + 2 < length line.now) }
    ensures { result ≡ around line.now first (end - first) }
{
    let a = geometry::vertex(line, first);
    let mut b = Aabb::at(a.x, a.y);
    for i in first..end {
        let p = geometry::vertex(line, i + 1);
        b = b.grown(p.x, p.y);
    }
    b
}

// `Room` stands in each contract up to `driving`: it is of lent `&mut` slices, and a struct of those would owe a clause for each that it is still the
// slice that was lent. `Rows` stands in three: it is of two slices that C lends one by one, and each function hands them on.

// Writes the spans of the lane in a row, if it drives, from span k on; the number of the next span.
fn add_lane(
    lanes: &[usize],
    points: &[f32],
    drives: &[bool],
    row: usize,
    k: usize,
    spans: &mut [usize],
    boxes: &mut [f32],
) -> usize
    requires { Row lanes.now points.now drives.now row
        × Room (driving drives.now (lane_at lanes.now points.now row ∷ [])) k spans.old boxes.old }
    ensures { Added (driving drives.now (lane_at lanes.now points.now row ∷ [])) k result
        spans.old spans.new boxes.old boxes.new }
{
    let kind = lanes[6 * row + 1];
    if !drives[kind] {
        return k;
    }
    let from = lanes[6 * row + 4];
    let count = lanes[6 * row + 5];
    let a = 3 * from;
    let e = 3 * (from + count);
    let line = &points[a..e];
    let n = (count - 1).div_ceil(SPAN_SEGMENTS);
    for j in 0..n {
        let first = SPAN_SEGMENTS * j;
        let end = (first + SPAN_SEGMENTS).min(count - 1);
        put_row(&[row, first, end], spans, 3 * (k + j));
        let b = around(line, first, end).padded(0.0);
        put_row(&[b.min_x, b.max_x, b.min_y, b.max_y], boxes, 4 * (k + j));
    }
    k + n
}

// Writes the spans of the lanes that drive, of n lanes in all; how many there are.
fn write_spans(
    lanes: &[usize],
    n: usize,
    points: &[f32],
    drives: &[bool],
    spans: &mut [usize],
    boxes: &mut [f32],
) -> usize
    requires { Rows lanes.now points.now drives.now n
        × Room (driving drives.now (lanes_from lanes.now points.now n 0)) 0 spans.old boxes.old }
    ensures { Added (driving drives.now (lanes_from lanes.now points.now n 0)) 0 result
        spans.old spans.new boxes.old boxes.new }
{
    let mut k = 0;
    for row in 0..n {
        k = add_lane(lanes, points, drives, row, k, spans, boxes);
    }
    k
}

// Box i.
fn box_at(boxes: &[f32], i: usize) -> Aabb
    requires { 4 * i + 3 < length boxes.now }
    ensures { result ≡ box_in boxes.now i }
{
    let at = 4 * i;
    Aabb {
        min_x: boxes[at],
        max_x: boxes[at + 1],
        min_y: boxes[at + 2],
        max_y: boxes[at + 3],
    }
}

// The box around the first n boxes.
fn extent(boxes: &[f32], n: usize) -> Aabb
    requires { (0 < n) × (4 * n ≤ length boxes.now) }
    ensures { result ≡ extent_of (box_in boxes.now 0) (box_list boxes.now (n - 1) 1) }
{
    let mut b = box_at(boxes, 0);
    for i in 1..n {
        b = b.merge(box_at(boxes, i));
    }
    b
}

// Writes the columns and rows of the first n boxes.
fn write_ranges(boxes: &[f32], n: usize, g: Grid, ranges: &mut [usize])
    requires { (4 * n ≤ length boxes.now) × (4 * n ≤ length ranges.old) × (0 < g.cols) × (0 < g.rows) }
    ensures { ranges.new ≡ over (rows (range_row g) (box_list boxes.now n 0)) ranges.old }
{
    for i in 0..n {
        let b = box_at(boxes, i);
        let row = [
            g.col(b.min_x),
            g.col(b.max_x),
            g.row(b.min_y),
            g.row(b.max_y),
        ];
        put_row(&row, ranges, 4 * i);
    }
}

// The index of the lanes that drive, of n lanes in all. `drives` says which types do.
pub fn build(
    lanes: &[usize],
    n: usize,
    points: &[f32],
    drives: &[bool],
    spans: &mut [usize],
    boxes: &mut [f32],
    ranges: &mut [usize],
) -> LaneIndex
    requires { Rows lanes.now points.now drives.now n
        × Room (driving drives.now (lanes_from lanes.now points.now n 0)) 0 spans.old boxes.old
        × (4 * length (driving drives.now (lanes_from lanes.now points.now n 0)) ≤ length ranges.old) }
    ensures { Built (driving drives.now (lanes_from lanes.now points.now n 0)) result
        spans.old spans.new boxes.old boxes.new ranges.old ranges.new }
{
    let count = write_spans(lanes, n, points, drives, spans, boxes);
    if count == 0 {
        return LaneIndex {
            count,
            grid: Grid::EMPTY,
        };
    }
    let g = Grid::build(extent(boxes, count), count);
    write_ranges(boxes, count, g, ranges);
    LaneIndex { count, grid: g }
}

// The index of the lanes whose type is Driving.
pub fn driving(
    lanes: &[usize],
    n: usize,
    points: &[f32],
    spans: &mut [usize],
    boxes: &mut [f32],
    ranges: &mut [usize],
) -> LaneIndex
    requires { Rows lanes.now points.now drives_table n
        × Room (driving drives_table (lanes_from lanes.now points.now n 0)) 0 spans.old boxes.old
        × (4 * length (driving drives_table (lanes_from lanes.now points.now n 0)) ≤ length ranges.old) }
    ensures { Built (driving drives_table (lanes_from lanes.now points.now n 0)) result
        spans.old spans.new boxes.old boxes.new ranges.old ranges.new }
{
    build(lanes, n, points, &DRIVES, spans, boxes, ranges)
}

// ---- the nearest span

// The squared distance to beat: none yet, any.
fn ceiling(best: Option<Nearest>) -> f32
    ensures { CeilingIs best result }
{
    match best {
        None => 1.0 / 0.0,
        Some(b) => b.dist2,
    }
}

// Whether (d2, item) comes before the best so far; anything does before there is one.
// Not by `<` of pairs: tried, and where all lanes lie on one line a query took 1.3 % more instructions.
fn wins(d2: f32, item: usize, best: Option<Nearest>) -> bool
    ensures { WinsIs d2 item best result }
{
    match best {
        None => true,
        Some(b) => d2 < b.dist2 || d2 == b.dist2 && item < b.span,
    }
}

// Whether nothing in ring r or beyond can beat the best so far.
fn enough(g: Grid, r: usize, best: Option<Nearest>) -> bool
    ensures { EnoughIs g r best result }
{
    match best {
        None => false,
        Some(b) => g.reached(r, b.dist2),
    }
}

// The best so far against a span that was measured.
fn measure(
    d2: f32,
    item: usize,
    row: usize,
    projection: Projection,
    best: Option<Nearest>,
) -> Option<Nearest>
    ensures { MeasuredIs d2 item row projection best result }
{
    if float::is_nan(d2) {
        return best;
    }
    if wins(d2, item, best) {
        return Some(Nearest {
            dist2: d2,
            span: item,
            row,
            projection,
        });
    }
    best
}

// An index with the tables that it stands in: what a query reads. That a span is below the index's count stands in three contracts, since it is
// of a number in a loop: a struct of the two would be made at each turn, and is no plainer.
#[derive(Clone, Copy)]
pub struct Spans<'a> {
    pub lanes: &'a [usize],
    pub points: &'a [f32],
    pub cumulative: &'a [f32],
    pub spans: &'a [usize],
    pub boxes: &'a [f32],
    pub ranges: &'a [usize],
    pub index: LaneIndex,
    pub ghost indexed: { Index lanes.now points.now cumulative.now spans.now boxes.now ranges.now index },
    pub ghost gridded: { index.grid ≡ grid_for (span_list lanes.now points.now spans.now boxes.now index.count 0) },
}

impl<'a> Spans<'a> {
    ghost use Rattle.network.specs.Indexed.{spans_of, items_of, item_at, best_in};

    // The projection onto segments of the lane in a row. `branches` cuts a line so too, by a fact of its own on its rows: one
    // function for both would ask a third, which each has to show first.
    fn project(&self, row: usize, first: usize, end: usize, p: Point) -> Projection
        requires { Line self.now.lanes.now self.now.points.now self.now.cumulative.now row × (first < end)
            × (end < point_count self.now.lanes.now row) }
        ensures { result ≡ project_segments (points_of self.now.lanes.now self.now.points.now row)
            (arcs_of self.now.lanes.now self.now.cumulative.now row) p first end }
    {
        let from = self.lanes[6 * row + 4];
        let to = from + self.lanes[6 * row + 5];
        let line = Polyline {
            points: &self.points[3 * from..3 * to],
            cumulative: &self.cumulative[from..to],
        };
        line.project_segments(p, first, end)
    }

    // Span i against the best so far. A span whose box already loses is not measured. Put in place in both forms of `visit_cell`: where it was
    // called, the best so far was copied in memory at each span.
    #[inline(always)]
    fn consider(&self, p: Point, i: usize, best: Option<Nearest>) -> Option<Nearest>
        requires { i < self.now.index.count }
        ensures { best_in self.now result
            ≡ offered true p (item_at self.now i)
            (best_in self.now best) }
    {
        if ceiling(best) < box_at(self.boxes, i).dist2(p.x, p.y) {
            return best;
        }
        let row = self.spans[3 * i];
        let first = self.spans[3 * i + 1];
        let end = self.spans[3 * i + 2];
        let projection = self.project(row, first, end, p);
        let d2 = (p - projection.point).length_squared();
        measure(d2, i, row, projection, best)
    }

    // Whether the columns of span i hold the cell's.
    fn columns_hold(&self, i: usize, cell: Cell) -> bool
        requires { i < self.now.index.count }
        ensures { result ≡ columns_within self.now.ranges.now i cell.ix }
    {
        self.ranges[4 * i] <= cell.ix && cell.ix <= self.ranges[4 * i + 1]
    }

    // Whether the rows of span i hold the cell's.
    fn rows_hold(&self, i: usize, cell: Cell) -> bool
        requires { i < self.now.index.count }
        ensures { result ≡ rows_within self.now.ranges.now i cell.iy }
    {
        self.ranges[4 * i + 2] <= cell.iy && cell.iy <= self.ranges[4 * i + 3]
    }

    // Whether the columns and rows of span i hold a cell.
    #[tactic(auto, unfolding(crate::specs::Tables::within))]
    fn holds<const ROWS_FIRST: bool>(&self, i: usize, cell: Cell) -> bool
        requires { i < self.now.index.count }
        ensures { result ≡ within self.now.ranges.now i cell.ix cell.iy }
    {
        if ROWS_FIRST {
            self.rows_hold(i, cell) && self.columns_hold(i, cell)
        } else {
            self.columns_hold(i, cell) && self.rows_hold(i, cell)
        }
    }

    // Span i against the best so far, if the cell's list has it.
    fn offer<const ROWS_FIRST: bool>(
        &self,
        p: Point,
        cell: Cell,
        i: usize,
        best: Option<Nearest>,
    ) -> Option<Nearest>
        requires { i < self.now.index.count }
        ensures { best_in self.now result
            ≡ offered_in (item_at self.now i) p cell
            (best_in self.now best) }
    {
        if self.holds::<ROWS_FIRST>(i, cell) {
            return self.consider(p, i, best);
        }
        best
    }

    // The spans of one cell, in rising number, told apart by their rows first or by their columns first.
    fn visit_cell<const ROWS_FIRST: bool>(
        &self,
        p: Point,
        cell: Cell,
        best: Option<Nearest>,
    ) -> Option<Nearest>
        ensures { best_in self.now result ≡ visit_cell p cell (items_of self.now)
            (best_in self.now best) }
    {
        let mut b = best;
        for i in 0..self.index.count {
            b = self.offer::<ROWS_FIRST>(p, cell, i, b);
        }
        b
    }

    // The cells of one row of a ring, from low to high.
    fn visit_row<const ROWS_FIRST: bool>(
        &self,
        p: Point,
        iy: usize,
        columns: Run,
        best: Option<Nearest>,
    ) -> Option<Nearest>
        requires { (0 < columns.step) × (columns.step ≤ 2048) × (columns.end ≤ 1024) }
        ensures { best_in self.now result
            ≡ visit_ring p (items_of self.now) (row_cells iy (listed columns) []) (best_in self.now best) }
    {
        let mut b = best;
        for ix in (columns.first..columns.end).step_by(columns.step) {
            b = self.visit_cell::<ROWS_FIRST>(p, Cell { ix, iy }, b);
        }
        b
    }

    // The cells of a ring, row by row.
    fn visit_ring<const ROWS_FIRST: bool>(
        &self,
        p: Point,
        ring: Ring,
        best: Option<Nearest>,
    ) -> Option<Nearest>
        requires { Sides self.now.index.grid × Inside self.now.index.grid ring.center.ix ring.center.iy }
        ensures { best_in self.now result
            ≡ visit_ring p (items_of self.now)
            (ring_of self.now.index.grid.cols self.now.index.grid.rows ring.center.ix ring.center.iy ring.r)
            (best_in self.now best) }
    {
        let g = self.index.grid;
        let rows = g.ring_rows(ring);
        let mut b = best;
        for iy in rows.first..rows.end {
            b = self.visit_row::<ROWS_FIRST>(p, iy, g.ring_columns(ring, iy), b);
        }
        b
    }

    // Whether the spans cover less of the grid's rows than of its columns, by sixteen of them or fewer: what they cover less of tells them apart
    // sooner. Along a straight road all agree on the other. Either answer serves, so there is no clause; asked once a query, it costs little.
    fn rows_tell_more(&self) -> bool {
        let g = self.index.grid;
        let count = self.index.count;
        let mut columns = 0usize;
        let mut rows = 0usize;
        for i in (0..count).step_by(count / 16 + 1) {
            let at = 4 * i;
            let wide = self.ranges[at + 1].saturating_sub(self.ranges[at]);
            let high = self.ranges[at + 3].saturating_sub(self.ranges[at + 2]);
            columns = columns.saturating_add(wide).saturating_add(1);
            rows = rows.saturating_add(high).saturating_add(1);
        }
        rows.saturating_mul(g.cols) < columns.saturating_mul(g.rows)
    }

    // `Grid::nearest`: ring by ring, until nothing farther out can beat the best, or the rings have outgrown the grid. By itself for either order: in
    // one function the loop over the spans of the second was slower.
    #[inline(never)]
    fn search_by<const ROWS_FIRST: bool>(&self, p: Point) -> Option<Nearest>
        requires { 0 < self.now.index.count }
        ensures { best_in self.now result ≡ searched p self.now.index.grid (spans_of self.now) }
    {
        let g = self.index.grid;
        let center = Cell {
            ix: g.col(p.x),
            iy: g.row(p.y),
        };
        let last = g.cols.max(g.rows);
        let mut best = None;
        for r in 0..=last {
            if enough(g, r, best) {
                return best;
            }
            let ring = Ring { center, r };
            if g.outgrown(ring) {
                return best;
            }
            best = self.visit_ring::<ROWS_FIRST>(p, ring, best);
        }
        best
    }

    // The search by what tells the spans apart sooner.
    fn search(&self, p: Point) -> Option<Nearest>
        requires { 0 < self.now.index.count }
        ensures { best_in self.now result ≡ searched p self.now.index.grid (spans_of self.now) }
    {
        if self.rows_tell_more() {
            return self.search_by::<true>(p);
        }
        self.search_by::<false>(p)
    }

    // The nearest of the spans to p, with the projection onto it; none for a point that is not finite.
    pub fn nearest_lane(&self, p: Point) -> Option<Nearest>
        ensures { result ≡ told (nearest_of (spans_of self.now) p) }
    {
        if self.index.count == 0 {
            return None;
        }
        if p.is_finite() {
            return self.search(p);
        }
        None
    }
}
