// grid.rs: boxes on the ground plane, and a uniform grid over them whose cells are walked in rings about a point.
// The Rust keeps a list of items for each cell. Here an item belongs to a cell exactly when its ranges of columns and rows hold it, so a grid
// is its corner, cell size and dimensions. (The far corner of the Rust's grid is read only by `covers`, which this work leaves out.)
// `specs/Grid.antt` and `specs/Ring.antt` say what each function answers.
#![tactic(auto)]

ghost use Rattle.std.specs.Prelude.{◌≡◌, ◌<◌, ◌≤◌};
ghost use Rattle.grid.specs.Grid.{box_at, grown, padded, merge, outside, dist2, side, first_cell, grid_of, bucket, col_of, row_of};
ghost use Rattle.grid.specs.Ring.{near_run, ends_run, columns_run, ring_of, is_empty, Inside, reached_at};

// An axis-aligned XY footprint.
#[repr(C)]
#[derive(Clone, Copy)]
pub struct Aabb {
    pub min_x: f32,
    pub max_x: f32,
    pub min_y: f32,
    pub max_y: f32,
}

impl Aabb {
    // The box of the one point (x, y).
    pub fn at(x: f32, y: f32) -> Aabb
        ensures { result ≡ box_at x y }
    {
        Aabb {
            min_x: x,
            max_x: x,
            min_y: y,
            max_y: y,
        }
    }

    // This box with the point (x, y) taken in: one step of the Rust's `around`.
    #[tactic(auto, unfolding(crate::specs::Grid::grown, crate::specs::Grid::merge))]
    pub fn grown(self, x: f32, y: f32) -> Aabb
        ensures { result ≡ grown self x y }
    {
        self.merge(Aabb::at(x, y))
    }

    // This box grown by `r` on every side. For `r` 0 a maximum of -0 becomes +0.
    pub fn padded(self, r: f32) -> Aabb
        ensures { result ≡ padded r self }
    {
        Aabb {
            min_x: self.min_x - r,
            max_x: self.max_x + r,
            min_y: self.min_y - r,
            max_y: self.max_y + r,
        }
    }

    // The box around this one and another.
    #[tactic(auto, unfolding(crate::specs::Grid::merge))]
    pub fn merge(self, other: Aabb) -> Aabb
        ensures { result ≡ merge self other }
    {
        Aabb {
            min_x: float::min(self.min_x, other.min_x),
            max_x: float::max(self.max_x, other.max_x),
            min_y: float::min(self.min_y, other.min_y),
            max_y: float::max(self.max_y, other.max_y),
        }
    }

    // Squared distance from (x, y) to this box; zero inside it.
    #[tactic(auto, unfolding(crate::specs::Grid::dist2))]
    pub fn dist2(self, x: f32, y: f32) -> f32
        ensures { result ≡ dist2 self x y }
    {
        let dx = outside(self.min_x, self.max_x, x);
        let dy = outside(self.min_y, self.max_y, y);
        dx * dx + dy * dy
    }
}

// How far v is outside of low .. high.
#[tactic(auto, unfolding(crate::specs::Grid::outside))]
fn outside(low: f32, high: f32, v: f32) -> f32
    ensures { result ≡ outside low high v }
{
    float::max(float::max(low - v, 0.0), v - high)
}

// Square cells over an extent.
#[repr(C)]
#[derive(Clone, Copy)]
pub struct Grid {
    pub min_x: f32,
    pub min_y: f32,
    pub cell: f32,
    pub cols: usize,
    pub rows: usize,
}

// A cell of a grid.
#[repr(C)]
#[derive(Clone, Copy)]
pub struct Cell {
    pub ix: usize,
    pub iy: usize,
}

// The cells that are r columns or rows away from a cell, and none that is more.
#[derive(Clone, Copy)]
pub struct Ring {
    pub center: Cell,
    pub r: usize,
    pub ghost near: { (center.ix < 1024) × (center.iy < 1024) × (r ≤ 1024) },
}

// The numbers first, first + step, .. below end.
// A `StepBy` is no plainer: its fields are private, and contracts here and in `network` bound and list by each of these three.
#[repr(C)]
#[derive(Clone, Copy)]
pub struct Run {
    pub first: usize,
    pub end: usize,
    pub step: usize,
}

// Cap on a grid side.
const MAX_DIM: usize = 1024;

impl Grid {
    // The grid of no boxes.
    pub const EMPTY: Grid = Grid {
        min_x: 0.0,
        min_y: 0.0,
        cell: 0.0,
        cols: 0,
        rows: 0,
    };

    // The grid of `items` boxes that lie within `extent`.
    #[tactic(auto, unfolding(crate::specs::Grid::grid_of))]
    pub fn build(extent: Aabb, items: usize) -> Grid
        ensures { result ≡ grid_of extent items }
    {
        let w = extent.max_x - extent.min_x;
        let h = extent.max_y - extent.min_y;
        let first = first_cell(w, h, items);
        let cols = side(w / first);
        let rows = side(h / first);
        // The cell size again, from the clamped dimensions, so that the grid spans the whole extent.
        let across = w / float::nearest_usize_to_f32(cols);
        let along = h / float::nearest_usize_to_f32(rows);
        Grid {
            min_x: extent.min_x,
            min_y: extent.min_y,
            cell: float::max(float::max(across, along), 1e-3),
            cols,
            rows,
        }
    }

    // The column of x; what lies outside goes to the nearest.
    pub fn col(self, x: f32) -> usize
        requires { 0 < self.cols }
        ensures { result ≡ col_of self x }
    {
        bucket(x - self.min_x, self.cell, self.cols)
    }

    // The row of y.
    pub fn row(self, y: f32) -> usize
        requires { 0 < self.rows }
        ensures { result ≡ row_of self y }
    {
        bucket(y - self.min_y, self.cell, self.rows)
    }

    // The rows of a ring, from low to high.
    pub fn ring_rows(self, ring: Ring) -> Run
        ensures { result ≡ near_run ring.center.iy ring.r self.rows }
    {
        near(ring.center.iy, ring.r, self.rows)
    }

    // The columns of a ring in row iy: the first and the last row have all of theirs, a row between them its two ends.
    pub fn ring_columns(self, ring: Ring, iy: usize) -> Run
        requires { iy < 1024 }
        ensures { result ≡ columns_run ring.center.ix ring.center.iy ring.r self.cols iy }
    {
        let Cell { ix, iy: center } = ring.center;
        if iy + ring.r == center || iy == center + ring.r {
            near(ix, ring.r, self.cols)
        } else {
            ends(ix, ring.r, self.cols)
        }
    }

    // Whether a ring has no cell of the grid.
    #[tactic(auto, using(crate::proofs::Rings::left_inside, crate::proofs::Rings::right_inside, crate::proofs::Rings::bottom_inside))]
    pub fn outgrown(self, ring: Ring) -> bool
        requires { Inside self ring.center.ix ring.center.iy }
        ensures { result ≡ is_empty (ring_of self.cols self.rows ring.center.ix ring.center.iy ring.r) }
    {
        let Cell { ix, iy } = ring.center;
        let r = ring.r;
        if r <= ix {
            return false;
        }
        if ix + r < self.cols {
            return false;
        }
        if r <= iy {
            return false;
        }
        self.rows <= iy + r
    }

    // Whether nothing in ring r or beyond can be nearer than the squared distance d2: those cells are r - 1 whole cells away from the
    // query's own.
    #[tactic(auto, unfolding(crate::specs::Ring::reached_at))]
    pub fn reached(self, r: usize, d2: f32) -> bool
        ensures { result ≡ reached_at self r d2 }
    {
        let floor = float::nearest_usize_to_f32(r.saturating_sub(1)) * self.cell;
        d2 <= floor * floor
    }
}

// The first cell size: of so many cells that each gets two items.
#[tactic(auto, unfolding(crate::specs::Grid::first_cell))]
fn first_cell(w: f32, h: f32, items: usize) -> f32
    ensures { result ≡ first_cell w h items }
{
    let target = float::max(float::nearest_usize_to_f32(items) / 2.0, 1.0);
    // A straight road has no extent on one axis, hence the floor.
    let area = float::max(w, 1e-3) * float::max(h, 1e-3);
    let wished = float::sqrt(area / target);
    let least = float::max(w, h) / 1024.0;
    float::max(float::max(wished, least), 1e-3)
}

// How many cells `cells` of them are, rounded up, from 1 to MAX_DIM.
#[tactic(auto, unfolding(crate::specs::Grid::side))]
fn side(cells: f32) -> usize
    ensures { result ≡ side cells }
{
    float::saturating_f32_to_usize(float::ceil(cells)).clamp(1, MAX_DIM)
}

// The cell that holds `offset`, of `count` cells: NaN and negatives go to 0, the last cell takes what is above.
// Rust's `floor` and its tests before the cast change nothing (proofs/Buckets.antt).
#[tactic(auto, using(crate::proofs::Buckets::bucket_is))]
pub fn bucket(offset: f32, cell: f32, count: usize) -> usize
    requires { 0 < count }
    ensures { result ≡ bucket offset cell count }
{
    float::saturating_f32_to_usize(offset / cell).min(count - 1)
}

// c - r ..= c + r, those below n.
fn near(c: usize, r: usize, n: usize) -> Run
    requires { (c < 1024) × (r ≤ 1024) }
    ensures { result ≡ near_run c r n }
{
    let end = n.min(c + r + 1);
    Run {
        first: c.saturating_sub(r),
        end,
        step: 1,
    }
}

// The two ends of it: where c - r is below 0, c + r alone.
fn ends(c: usize, r: usize, n: usize) -> Run
    requires { (c < 1024) × (r ≤ 1024) }
    ensures { result ≡ ends_run c r n }
{
    let first = if c < r { c + r } else { c - r };
    Run {
        first,
        end: n.min(c + r + 1),
        step: 2 * r,
    }
}
