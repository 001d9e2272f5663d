// geometry.rs: a lane's polyline, queried by arc length. It stands in parts of the flat tables: `points` (x y z of each),
// `cumulative` (the arc length at each point) and `tangents` (x y z at each). `specs/` says what each function answers.
// What needs one list alone takes that list, or is a method of `ArcLengths` where they have to rise; what needs both is a method of `Polyline`.
#![tactic(auto)]

ghost use Rattle.std.specs.Prelude.{◌≡◌, ◌+◌, ◌*◌, ◌<◌, ◌≤◌, length};
ghost use Rattle.geometry.specs.Polyline.{Line, point_at, vector_at, segment_length, cumulative_of, arc_length};
ghost use Rattle.geometry.specs.Polyline.{horizontal, direction_of, outgoing_at, end_or, with_vector, tangents_of};
ghost use Rattle.geometry.specs.Partition.{Rising};
ghost use Rattle.geometry.specs.Locate.{segment_of, local_t, locate_of, place_on, heading_on, point_along, pose_along};
ghost use Rattle.geometry.specs.Project.{left_normal, fraction_along, hit_along, nearer_at, project_segments, project_of};

use coords::{Point, Vector};

// A position and a horizontal heading along a lane.
#[repr(C)]
#[derive(Clone, Copy, Default)]
pub struct Pose {
    pub position: Point,
    pub heading: Vector,
}

// The result of projecting a point onto a polyline: arc length, nearest place, and the signed distance to the left of it.
#[repr(C)]
#[derive(Clone, Copy, Default)]
pub struct Projection {
    pub s: f32,
    pub point: Point,
    pub offset: f32,
}

// A segment and the fraction of it.
#[repr(C)]
#[derive(Clone, Copy)]
pub struct Located {
    pub segment: usize,
    pub t: f32,
}

// The tangents that a lane's record gives at its two ends.
#[derive(Clone, Copy)]
pub struct Ends {
    pub start: Vector,
    pub end: Vector,
}

// The nearest projection so far, and its squared distance.
#[derive(Clone, Copy)]
pub struct Nearer {
    pub dist: f32,
    pub best: Projection,
}

// The arc length at each of at least two points, which never falls.
#[derive(Clone, Copy)]
pub struct ArcLengths<'a> {
    pub cumulative: &'a [f32],
    pub ghost rising: { (2 ≤ length cumulative.now) × Rising cumulative.now },
}

// A lane's points, of which there are at least two, and the arc length at each.
#[derive(Clone, Copy)]
pub struct Polyline<'a> {
    pub points: &'a [f32],
    pub cumulative: &'a [f32],
    pub ghost line: { Line points.now cumulative.now },
}

const UP: Vector = Vector {
    x: 0.0,
    y: 0.0,
    z: 1.0,
};

// Point i.
#[tactic(auto, unfolding(crate::specs::Polyline::point_at))]
pub fn vertex(points: &[f32], i: usize) -> Point
    requires { 3 * i + 2 < length points.now }
    ensures { result ≡ point_at points.now i }
{
    let k = 3 * i;
    Point {
        x: points[k],
        y: points[k + 1],
        z: points[k + 2],
    }
}

// The tangent at point i. One function for this and `vertex` would need a conversion of three numbers to each type: no plainer.
#[tactic(auto, unfolding(crate::specs::Polyline::vector_at))]
pub fn tangent(tangents: &[f32], i: usize) -> Vector
    requires { 3 * i + 2 < length tangents.now }
    ensures { result ≡ vector_at tangents.now i }
{
    let k = 3 * i;
    Vector {
        x: tangents[k],
        y: tangents[k + 1],
        z: tangents[k + 2],
    }
}

// The length of segment i.
pub fn segment_length(points: &[f32], i: usize) -> f32
    requires { 3 * i + 5 < length points.now }
    ensures { result ≡ segment_length points.now i }
{
    vertex(points, i).distance_to(vertex(points, i + 1))
}

// Writes the arc length at each point.
pub fn write_cumulative(points: &[f32], cumulative: &mut [f32])
    requires { (0 < length cumulative.old) × (3 * length cumulative.old ≤ length points.now) }
    ensures { cumulative.new ≡ cumulative_of points.now (length cumulative.old) }
{
    let mut acc = 0.0;
    cumulative[0] = acc;
    for i in 0..cumulative.len() - 1 {
        acc += segment_length(points, i);
        cumulative[i + 1] = acc;
    }
}

// A vector dropped onto the ground plane.
fn horizontal(v: Vector) -> Vector
    ensures { result ≡ horizontal v }
{
    Vector {
        x: v.x,
        y: v.y,
        z: 0.0,
    }
}

// The unit direction from p to q in the ground plane, zero where it has none.
fn direction(p: Point, q: Point) -> Vector
    ensures { result ≡ direction_of p q }
{
    horizontal(q - p).normalize_or_zero()
}

// The direction of the segment that starts at point i of n, zero at the last.
fn outgoing(points: &[f32], n: usize, i: usize) -> Vector
    requires { (i < n) × (3 * n ≤ length points.now) }
    ensures { result ≡ outgoing_at points.now n i }
{
    if i + 1 < n {
        direction(vertex(points, i), vertex(points, i + 1))
    } else {
        Vector::ZERO
    }
}

// A given end tangent at the two ends where it has a direction, and the chord elsewhere.
#[tactic(auto, unfolding(crate::specs::Polyline::end_or))]
fn end_or(chord: Vector, ends: Option<Ends>, n: usize, i: usize) -> Vector
    requires { i < n }
    ensures { result ≡ end_or chord ends n i }
{
    match ends {
        Some(given) if i == 0 => horizontal(given.start).normalize_or(chord),
        Some(given) if i == n - 1 => horizontal(given.end).normalize_or(chord),
        _ => chord,
    }
}

// Writes v as entry i of a list of vectors. By `lists::put_row`, tried, `write_tangents` took 3.5 % more instructions.
fn write_vector(to: &mut [f32], i: usize, v: Vector)
    requires { 3 * i + 2 < length to.old }
    ensures { to.new ≡ with_vector to.old i v }
{
    let k = 3 * i;
    to[k] = v.x;
    to[k + 1] = v.y;
    to[k + 2] = v.z;
}

// Writes the tangent at each of n points; C gives n, since its list of points may hold more. With n as `tangents.len() / 3`, tried, it took 4 % more
// instructions.
pub fn write_tangents(points: &[f32], n: usize, ends: Option<Ends>, tangents: &mut [f32])
    requires { (3 * n ≤ length points.now) × (length tangents.old ≡ 3 * n) }
    ensures { tangents.new ≡ tangents_of points.now n ends }
{
    let mut incoming = Vector::ZERO;
    for i in 0..n {
        let out = outgoing(points, n, i);
        let chord = (incoming + out).normalize_or_zero();
        write_vector(tangents, i, end_or(chord, ends, n, i));
        incoming = out;
    }
}

// Total arc length.
pub fn length(cumulative: &[f32]) -> f32
    requires { 0 < length cumulative.now }
    ensures { result ≡ arc_length cumulative.now }
{
    cumulative[cumulative.len() - 1]
}

// The fraction of segment i at s; 0 on a segment of at most 1e-6.
#[tactic(auto, unfolding(crate::specs::Locate::local_t))]
fn local_t(cumulative: &[f32], i: usize, s: f32) -> f32
    requires { i + 1 < length cumulative.now }
    ensures { result ≡ local_t cumulative.now i s }
{
    let seg_len = cumulative[i + 1] - cumulative[i];
    if seg_len > 1e-6 {
        (s - cumulative[i]) / seg_len
    } else {
        0.0
    }
}

impl ArcLengths<'_> {
    // The segment that holds s: the last vertex at or before it, never the last point. `road` has the same of f64, and says why.
    fn segment(self, s: f32) -> usize
        ensures { result ≡ segment_of self.entry.cumulative.now s }
    {
        let n = self.cumulative.partition_point(|c| *c <= s);
        n.saturating_sub(1).min(self.cumulative.len() - 2)
    }

    // The segment that holds s, and the fraction of it, with s clamped to the polyline.
    #[tactic(auto, using(crate::specs::LocateLaws::segment_inside), unfolding(crate::specs::Locate::locate_of))]
    pub fn locate(self, s: f32) -> Located
        ensures { result ≡ locate_of self.entry.cumulative.now s }
    {
        let within = float::clamp(s, 0.0, length(self.cumulative));
        let i = self.segment(within);
        Located {
            segment: i,
            t: local_t(self.cumulative, i, within),
        }
    }
}

// The place at the fraction of a segment.
fn place_on(points: &[f32], at: Located) -> Point
    requires { 3 * at.segment + 5 < length points.now }
    ensures { result ≡ place_on points.now at }
{
    let i = at.segment;
    vertex(points, i).lerp(vertex(points, i + 1), at.t)
}

// The heading at the fraction of a segment.
fn heading_on(tangents: &[f32], at: Located) -> Vector
    requires { 3 * at.segment + 5 < length tangents.now }
    ensures { result ≡ heading_on tangents.now at }
{
    let i = at.segment;
    tangent(tangents, i)
        .lerp(tangent(tangents, i + 1), at.t)
        .normalize_or_zero()
}

// The unit normal to the left of a heading.
#[tactic(auto, unfolding(crate::specs::Project::left_normal))]
pub fn left_normal(heading: Vector) -> Vector
    ensures { result ≡ left_normal heading }
{
    UP.cross(horizontal(heading)).normalize_or_zero()
}

// The fraction of the segment from a along ab that is nearest to p.
#[tactic(auto, unfolding(crate::specs::Project::fraction_along))]
fn fraction(a: Point, ab: Vector, p: Point) -> f32
    ensures { result ≡ fraction_along a ab p }
{
    let len2 = ab.length_squared();
    if len2 > 1e-9 {
        float::clamp((p - a).dot(ab) / len2, 0.0, 1.0)
    } else {
        0.0
    }
}

// The projection of p that lies at `closest`, at the fraction t of a segment along ab that begins at the arc length `start`.
#[tactic(auto, unfolding(crate::specs::Project::hit_along))]
fn hit(start: f32, ab: Vector, t: f32, closest: Point, p: Point) -> Projection
    ensures { result ≡ hit_along start ab t closest p }
{
    let heading = horizontal(ab).normalize_or_zero();
    Projection {
        s: start + ab.length() * t,
        point: closest,
        offset: horizontal(p - closest).dot(left_normal(heading)),
    }
}

impl Polyline<'_> {
    // The place at arc length s.
    #[tactic(auto, using(crate::specs::LocateLaws::located_inside), unfolding(crate::specs::Locate::point_along))]
    pub fn point_at(self, s: f32) -> Point
        requires { Rising self.cumulative.now }
        ensures { result ≡ point_along self.entry.points.now self.entry.cumulative.now s }
    {
        let arcs = ArcLengths {
            cumulative: self.cumulative,
        };
        place_on(self.points, arcs.locate(s))
    }

    // The place and the horizontal heading at arc length s.
    #[tactic(auto, using(crate::specs::LocateLaws::located_inside), unfolding(crate::specs::Locate::pose_along))]
    pub fn pose_at(self, tangents: &[f32], s: f32) -> Pose
        requires { (length tangents.now ≡ length self.points.now) × Rising self.cumulative.now }
        ensures { result ≡ pose_along self.entry.points.now self.entry.cumulative.now tangents.now s }
    {
        let arcs = ArcLengths {
            cumulative: self.cumulative,
        };
        let at = arcs.locate(s);
        Pose {
            position: place_on(self.points, at),
            heading: heading_on(tangents, at),
        }
    }

    // Segment i in place of the best so far, where it is nearer.
    #[tactic(auto, unfolding(crate::specs::Project::nearer_at))]
    fn nearer_at(self, p: Point, i: usize, best: Nearer) -> Nearer
        requires { i + 1 < length self.cumulative.now }
        ensures { result ≡ nearer_at self.entry.points.now self.entry.cumulative.now p i best }
    {
        let start = self.cumulative[i];
        let a = vertex(self.points, i);
        let ab = vertex(self.points, i + 1) - a;
        let t = fraction(a, ab, p);
        let closest = a + ab * t;
        let dist = (p - closest).length_squared();
        if dist < best.dist {
            Nearer {
                dist,
                best: hit(start, ab, t, closest, p),
            }
        } else {
            best
        }
    }

    // The nearest place to p on the segments `first` to `end - 1`. Of places as near the first wins.
    pub fn project_segments(self, p: Point, first: usize, end: usize) -> Projection
        requires { (first < length self.cumulative.now) × (end < length self.cumulative.now) }
        ensures { result ≡ project_segments self.entry.points.now self.entry.cumulative.now p first end }
    {
        let mut best = Nearer {
            dist: 1.0 / 0.0,
            best: Projection {
                s: self.cumulative[first],
                point: vertex(self.points, first),
                offset: 0.0,
            },
        };
        for i in first..end {
            best = self.nearer_at(p, i, best);
        }
        best.best
    }

    // The nearest place to p on the whole polyline.
    pub fn project(self, p: Point) -> Projection
        ensures { result ≡ project_of self.entry.points.now self.entry.cumulative.now p }
    {
        self.project_segments(p, 0, self.cumulative.len() - 1)
    }
}
