// road.rs, the named part: from a road station to metres along a lane, and back. A lane stands in its parts of the flat tables:
// `points` (x y z of each) and `cumulative` (the arc length at each), and its section's `stations`, one for each point.
// `specs/` says what each function answers.
#![tactic(auto)]

ghost use Rattle.std.specs.Prelude.{◌≡◌, ◌+◌, ◌<◌, length};
ghost use Rattle.geometry.specs.Partition.{Rising};
ghost use Rattle.geometry.specs.Locate.{segment_of};
ghost use Rattle.road.specs.Along.{Stationed, fraction_at, along_of, reached_by, part_of, station_on, station_of, centerline_of};

use geometry::Polyline;

// A lane's points with their arc lengths, and the station of each.
#[derive(Clone, Copy)]
pub struct StationedLane<'a> {
    pub line: Polyline<'a>,
    pub stations: &'a [f64],
    pub ghost stationed: { Stationed line.points.now line.cumulative.now stations.now },
}

// The last station at or before s, never the last of all.
// No plainer as one `last_at<T: Real>` with `geometry`'s `segment`: `Real` has no `<=`, and the clauses would speak of `map T.float` of the list.
fn station_before(stations: &[f64], s: f64) -> usize
    requires { (1 < length stations.now) × Rising stations.now }
    ensures { result ≡ segment_of stations.now s }
{
    let n = stations.partition_point(|x| *x <= s);
    n.saturating_sub(1).min(stations.len() - 2)
}

// The fraction of the way from station i to the next at which s lies.
#[tactic(auto, unfolding(crate::specs::Along::fraction_at))]
fn fraction(stations: &[f64], i: usize, s: f64) -> f64
    requires { i + 1 < length stations.now }
    ensures { result ≡ fraction_at stations.now i s }
{
    let from = stations[i];
    float::clamp((s - from) / (stations[i + 1] - from), 0.0, 1.0)
}

// The first segment that ends at or past `arc`, and the last where none does.
fn reached(cumulative: &[f32], arc: f32) -> usize
    requires { (1 < length cumulative.now) × Rising cumulative.now }
    ensures { result ≡ reached_by cumulative.now arc }
{
    let n = cumulative[1..].partition_point(|end| !(*end >= arc));
    n.min(cumulative.len() - 2)
}

// The fraction of a segment of length `step`, begun at `before`, at which `arc` lies.
#[tactic(auto, unfolding(crate::specs::Along::part_of))]
fn part(step: f32, before: f32, arc: f32) -> f32
    ensures { result ≡ part_of step before arc }
{
    if step > 0.0 {
        float::clamp((arc - before) / step, 0.0, 1.0)
    } else {
        0.0
    }
}

// The station at the fraction f of the way from station i to the next.
#[tactic(auto, unfolding(crate::specs::Along::station_on))]
fn station_on(stations: &[f64], i: usize, f: f32) -> f64
    requires { i + 1 < length stations.now }
    ensures { result ≡ station_on stations.now i f }
{
    let from = stations[i];
    from + (stations[i + 1] - from) * float::f32_to_f64(f)
}

impl StationedLane<'_> {
    // How far along the lane the road station s is, in metres from its first point.
    #[tactic(auto, using(crate::specs::AlongLaws::station_inside))]
    pub fn along(self, s: f64) -> f32
        ensures { result ≡ along_of self.entry.line.points.now self.entry.stations.now s }
    {
        let i = station_before(self.stations, s);
        let part = float::nearest_f64_to_f32(fraction(self.stations, i, s));
        self.line.cumulative[i] + geometry::segment_length(self.line.points, i) * part
    }

    // The road station `arc` metres along the lane from its first point, the inverse of `along`.
    #[tactic(auto, using(crate::specs::AlongLaws::reached_inside))]
    pub fn station_at(self, arc: f32) -> f64
        ensures { result ≡ station_of self.entry.line.points.now self.entry.stations.now arc }
    {
        let i = reached(self.line.cumulative, arc);
        let len = geometry::segment_length(self.line.points, i);
        station_on(self.stations, i, part(len, self.line.cumulative[i], arc))
    }

    // How far along the centerline the station s is, where it lies from `start` to `end` of the lane's section.
    #[tactic(auto, unfolding(crate::specs::Along::centerline_of))]
    pub fn centerline_s(self, start: f64, end: f64, s: f64) -> Option<f32>
        ensures { result ≡ centerline_of start end self.entry.line.points.now self.entry.stations.now s }
    {
        if start <= s && s <= end {
            Some(self.along(s))
        } else {
            None
        }
    }
}
