// The pose on a lane at an arc length, over the rows of a plan.
#![tactic(auto)]

ghost use Rattle.std.specs.Prelude.{◌≡◌, ◌<◌};
ghost use Rattle.geometry.specs.Locate.{pose_along};
ghost use Rattle.rows.specs.Rows.{arcs_of, points_of, tangents_of};
ghost use Rattle.pose.specs.Lanes.{posed_by, pose_row, Polyline, Polylines};

use geometry::Pose;
use plan_find::find_lane;
use plan_format::{LaneId, Refusal};

// What C gets for `pose`: document 01's number, 0 with the pose; zeros where refused.
#[repr(C)]
#[derive(Clone, Copy)]
pub struct Posed {
    pub number: usize,
    pub pose: Pose,
}

impl From<Result<Pose, Refusal>> for Posed {
    ghost from_gives = { λ found answer. answer ≡ posed_by found };

    fn from(found: Result<Pose, Refusal>) -> Posed {
        match found {
            Ok(pose) => Posed { number: 0, pose },
            Err(refusal) => Posed {
                number: refusal.number(),
                pose: Pose::default(),
            },
        }
    }
}

// The lanes of a plan with the tangents at their points.
#[derive(Clone, Copy)]
pub struct Lanes<'a> {
    pub lanes: branches::Lanes<'a>,
    pub tangents: &'a [f32],
    pub ghost polylines: { Polylines lanes.count lanes.rows.now lanes.points.now lanes.cumulative.now tangents.now },
}

impl<'a> Lanes<'a> {
    // The pose on the lane of row i.
    fn pose_on(&self, i: usize, s: f32) -> Pose
        requires { i < self.now.lanes.count }
        ensures { result ≡ pose_along (points_of self.now.lanes.rows.now self.now.lanes.points.now i)
            (arcs_of self.now.lanes.rows.now self.now.lanes.cumulative.now i)
            (tangents_of self.now.lanes.rows.now self.now.tangents.now i) s }
    {
        let lanes = self.lanes;
        let rows = lanes.rows;
        let first = rows[6 * i + 4];
        let end = first + rows[6 * i + 5];
        let line = lanes.line(i);
        line.pose_at(&self.tangents[3 * first..3 * end], s)
    }

    // The pose on a lane at the arc length s, which is clamped to the lane; 12 for a lane that is not among the rows. A NaN s is not clamped:
    // it lies on the first segment and gives a NaN position with a zero heading, or that segment's start where it is at most 1e-6 long.
    pub fn pose(&self, lane: LaneId, s: f32) -> Result<Pose, Refusal>
        ensures { posed_by result ≡ pose_row lane.0 s self.now.lanes.count self.now.lanes.rows.now self.now.lanes.points.now
            self.now.lanes.cumulative.now self.now.tangents.now }
    {
        let lanes = self.lanes;
        let i = find_lane(lane, lanes.rows, lanes.count).ok_or(Refusal::NotOnALane)?;
        Ok(self.pose_on(i, s))
    }
}
