// The functions of `geometry` and `road` for Rust or C to link, each with its contract. The caller keeps what a `requires` says: C lends the
// lists one by one, so that the facts about them stand at each call.
#![tactic(auto)]

ghost use Rattle.std.specs.Prelude.{◌≡◌, ◌*◌, ◌≤◌, ◌<◌, length};
ghost use Rattle.geometry.specs.Polyline.{Line, cumulative_of, tangents_of};
ghost use Rattle.geometry.specs.Partition.{Rising};
ghost use Rattle.geometry.specs.Locate.{locate_of, point_along, pose_along};
ghost use Rattle.geometry.specs.Project.{project_segments, project_of};
ghost use Rattle.road.specs.Along.{Stationed, along_of, station_of, centerline_of};
ghost use Rattle.geometry_c.specs.ForC.{as_centerline, ends_given};

use coords::{Point, Vector};
use geometry::{ArcLengths, Located, Polyline, Pose, Projection};
use road::StationedLane;

// For C, whether a lane's record gives tangents at its two ends, and the two.
#[repr(C)]
#[derive(Clone, Copy)]
pub struct Ends {
    pub given: bool,
    pub start: Vector,
    pub end: Vector,
}

impl From<Ends> for Option<geometry::Ends> {
    ghost from_gives = { λ ends found. found ≡ ends_given ends };

    fn from(ends: Ends) -> Option<geometry::Ends> {
        let found = geometry::Ends {
            start: ends.start,
            end: ends.end,
        };
        ends.given.then_some(found)
    }
}

// For C, whether the station lies on the section, and how far along the centerline it is, 0 where it does not.
#[repr(C)]
#[derive(Clone, Copy, Default)]
pub struct Centerline {
    pub on: bool,
    pub s: f32,
}

impl From<Option<f32>> for Centerline {
    ghost from_gives = { λ found answer. answer ≡ as_centerline found };

    fn from(found: Option<f32>) -> Centerline {
        match found {
            Some(s) => Centerline { on: true, s },
            None => Centerline::default(),
        }
    }
}

#[unsafe(no_mangle)]
pub extern "C" fn kartsodi_write_cumulative(points: &[f32], cumulative: &mut [f32])
    requires { (0 < length cumulative.old) × (3 * length cumulative.old ≤ length points.now) }
    ensures { cumulative.new ≡ cumulative_of points.now (length cumulative.old) }
{
    geometry::write_cumulative(points, cumulative);
}

#[unsafe(no_mangle)]
pub extern "C" fn kartsodi_write_tangents(
    points: &[f32],
    n: usize,
    ends: Ends,
    tangents: &mut [f32],
)
    requires { (3 * n ≤ length points.now) × (length tangents.old ≡ 3 * n) }
    ensures { tangents.new ≡ tangents_of points.now n (ends_given ends) }
{
    geometry::write_tangents(points, n, ends.into(), tangents);
}

#[unsafe(no_mangle)]
pub extern "C" fn kartsodi_locate(cumulative: &[f32], s: f32) -> Located
    requires { (2 ≤ length cumulative.now) × Rising cumulative.now }
    ensures { result ≡ locate_of cumulative.now s }
{
    ArcLengths { cumulative }.locate(s)
}

#[unsafe(no_mangle)]
pub extern "C" fn kartsodi_point_at(points: &[f32], cumulative: &[f32], s: f32) -> Point
    requires { Line points.now cumulative.now × Rising cumulative.now }
    ensures { result ≡ point_along points.now cumulative.now s }
{
    Polyline { points, cumulative }.point_at(s)
}

#[unsafe(no_mangle)]
pub extern "C" fn kartsodi_pose_at(
    points: &[f32],
    cumulative: &[f32],
    tangents: &[f32],
    s: f32,
) -> Pose
    requires { Line points.now cumulative.now × (length tangents.now ≡ length points.now) × Rising cumulative.now }
    ensures { result ≡ pose_along points.now cumulative.now tangents.now s }
{
    Polyline { points, cumulative }.pose_at(tangents, s)
}

#[unsafe(no_mangle)]
pub extern "C" fn kartsodi_project_segments(
    points: &[f32],
    cumulative: &[f32],
    p: Point,
    first: usize,
    end: usize,
) -> Projection
    requires { Line points.now cumulative.now × (first < length cumulative.now) × (end < length cumulative.now) }
    ensures { result ≡ project_segments points.now cumulative.now p first end }
{
    Polyline { points, cumulative }.project_segments(p, first, end)
}

#[unsafe(no_mangle)]
pub extern "C" fn kartsodi_project(points: &[f32], cumulative: &[f32], p: Point) -> Projection
    requires { Line points.now cumulative.now }
    ensures { result ≡ project_of points.now cumulative.now p }
{
    Polyline { points, cumulative }.project(p)
}

#[unsafe(no_mangle)]
pub extern "C" fn kartsodi_along<'a>(
    points: &'a [f32],
    cumulative: &'a [f32],
    stations: &'a [f64],
    s: f64,
) -> f32
    requires { Stationed points.now cumulative.now stations.now }
    ensures { result ≡ along_of points.now stations.now s }
{
    let line = Polyline { points, cumulative };
    let lane = StationedLane { line, stations };
    lane.along(s)
}

#[unsafe(no_mangle)]
pub extern "C" fn kartsodi_station_at<'a>(
    points: &'a [f32],
    cumulative: &'a [f32],
    stations: &'a [f64],
    arc: f32,
) -> f64
    requires { Stationed points.now cumulative.now stations.now }
    ensures { result ≡ station_of points.now stations.now arc }
{
    let line = Polyline { points, cumulative };
    let lane = StationedLane { line, stations };
    lane.station_at(arc)
}

#[unsafe(no_mangle)]
pub extern "C" fn kartsodi_centerline_s<'a>(
    start: f64,
    end: f64,
    points: &'a [f32],
    cumulative: &'a [f32],
    stations: &'a [f64],
    s: f64,
) -> Centerline
    requires { Stationed points.now cumulative.now stations.now }
    ensures { result ≡ as_centerline (centerline_of start end points.now stations.now s) }
{
    let line = Polyline { points, cumulative };
    let lane = StationedLane { line, stations };
    Centerline::from(lane.centerline_s(start, end, s))
}
