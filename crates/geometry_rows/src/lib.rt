// The polylines of all lanes, written into the lent tables when a plan is loaded. A row of `lanes` is number, type, direction, ends, first
// point, points; a row of `ends` is the start and the end tangent. The tables are C's, of fixed size: the plan's lanes are the first n rows.
#![tactic(auto)]

ghost use Rattle.std.specs.Prelude.{◌≡◌, ◌+◌, ◌*◌, ◌<◌, ◌≤◌, length};
ghost use Rattle.geometry_rows.specs.Rows.{with_cumulative, with_tangents, lane_ends};
ghost use Rattle.geometry_rows.specs.Rows.{cumulative_rows, tangent_rows, points_before, Rows, TangentRoom};
ghost use Rattle.geometry.specs.Over.{over};

use geometry::{Ends, tangent, write_cumulative, write_tangents};

// The arc lengths of the lane that has `count` points from `first` on.
fn write_lane_cumulative(points: &[f32], first: usize, count: usize, cumulative: &mut [f32])
    requires { (0 < count) × (3 * (first + count) ≤ length points.now) × (first + count ≤ length cumulative.old) }
    ensures { cumulative.new ≡ with_cumulative points.now first count cumulative.old }
{
    let from = 3 * first;
    let to = 3 * (first + count);
    let end = first + count;
    write_cumulative(&points[from..to], &mut cumulative[first..end]);
}

// Its tangents. One function for these and the arc lengths would be passed all that differs: numbers a point, ends, what to write.
fn write_lane_tangents(
    points: &[f32],
    first: usize,
    count: usize,
    ends: Option<Ends>,
    tangents: &mut [f32],
)
    requires { (3 * (first + count) ≤ length points.now) × (3 * (first + count) ≤ length tangents.old) }
    ensures { tangents.new ≡ with_tangents points.now first count ends tangents.old }
{
    let from = 3 * first;
    let to = 3 * (first + count);
    write_tangents(&points[from..to], count, ends, &mut tangents[from..to]);
}

// The tangents at the two ends of lane i, where it gives them.
#[tactic(auto, unfolding(crate::specs::Rows::lane_ends))]
fn lane_ends(lanes: &[usize], ends: &[f32], i: usize) -> Option<Ends>
    requires { (6 * i + 6 ≤ length lanes.now) × (6 * i + 6 ≤ length ends.now) }
    ensures { result ≡ lane_ends lanes.now ends.now i }
{
    let start = tangent(ends, 2 * i);
    let end = tangent(ends, 2 * i + 1);
    if lanes[6 * i + 3] == 0 {
        None
    } else {
        Some(Ends { start, end })
    }
}

// Writes the arc lengths of n lanes.
pub fn build_cumulative(lanes: &[usize], n: usize, points: &[f32], cumulative: &mut [f32])
    requires { Rows lanes.now n points.now × (points_before lanes.now n ≤ length cumulative.old) }
    ensures { cumulative.new ≡ over (cumulative_rows lanes.now points.now n) cumulative.old }
{
    for i in 0..n {
        let first = lanes[6 * i + 4];
        let count = lanes[6 * i + 5];
        write_lane_cumulative(points, first, count, cumulative);
    }
}

// Writes the tangents of n lanes.
pub fn build_tangents(lanes: &[usize], n: usize, points: &[f32], ends: &[f32], tangents: &mut [f32])
    requires { Rows lanes.now n points.now × TangentRoom lanes.now n ends.now tangents.old }
    ensures { tangents.new
        ≡ over (tangent_rows lanes.now points.now ends.now n) tangents.old }
{
    for i in 0..n {
        let first = lanes[6 * i + 4];
        let count = lanes[6 * i + 5];
        write_lane_tangents(points, first, count, lane_ends(lanes, ends, i), tangents);
    }
}
