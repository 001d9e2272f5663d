// The nearest lane to a point, over a plan's rows: the index of the lanes that drive is built in local arrays, and asked.
// `specs/Nearest.antt` says what is answered.
#![tactic(auto)]

ghost use Rattle.std.specs.Prelude.{◌≡◌, ℕ, map};
ghost use Rattle.network.specs.Lanes.{drives_table};
ghost use Rattle.network.specs.Nearest.{nearest_lane};
ghost use Rattle.network.specs.Tables.{lanes_from, told};
ghost use Rattle.nearest.specs.Nearest.{Searchable, nearest_among, nearest_by};
ghost use Rattle.coords.specs.declared.Point.{Point};

use coords::Point;
use geometry::Projection;
use network::{Nearest, Spans};
use plan_format::{LaneId, Refusal};

// The nearest lane, and the place on it.
#[derive(Clone, Copy)]
pub struct NearestLane {
    pub lane: LaneId,
    pub projection: Projection,
}

// What C gets for `nearest_lane`: document 01's number, 0 for an answer; the lane, and the place on it. All else is zero where refused.
#[repr(C)]
#[derive(Clone, Copy)]
pub struct NearestAnswer {
    pub number: usize,
    pub lane: LaneId,
    pub projection: Projection,
}

impl From<Result<NearestLane, Refusal>> for NearestAnswer {
    ghost from_gives = { λ found answer. answer ≡ nearest_by found };

    fn from(found: Result<NearestLane, Refusal>) -> NearestAnswer {
        match found {
            Ok(nearest) => NearestAnswer {
                number: 0,
                lane: nearest.lane,
                projection: nearest.projection,
            },
            Err(refusal) => NearestAnswer {
                number: refusal.number(),
                lane: LaneId(0),
                projection: Projection::default(),
            },
        }
    }
}

// The lanes of a plan: a row for each, and the place and the arc length of each point. Not the struct of `pose` or of `branches`: those ask that
// arc lengths rise, this one that they are the sums of the segments and that the spans are few, so that one for all would ask more of each caller.
// C gives the count apart, since its list may hold more rows.
#[derive(Clone, Copy)]
pub struct Lanes<'a> {
    pub rows: &'a [usize],
    pub count: usize,
    pub points: &'a [f32],
    pub cumulative: &'a [f32],
    pub ghost searchable: { Searchable rows.now points.now cumulative.now count },
}

impl<'a> Lanes<'a> {
    // The lane nearest to each of some points: its row and the projection onto it, or none. One index answers for all.
    pub fn nearest_rows<const N: usize>(&self, ps: [Point; N]) -> [Option<Nearest>; N]
        ensures { result ≡ map (λ (p : Point). told (nearest_lane drives_table
            (lanes_from self.now.rows.now self.now.points.now self.now.count 0) p)) ps.entry }
    {
        // As long as the largest index, of 1,152 spans: no heap, by a rule of the project.
        let mut spans = [0usize; 3456];
        let mut boxes = [0.0f32; 4608];
        let mut ranges = [0usize; 4608];
        let index = network::driving(
            self.rows,
            self.count,
            self.points,
            &mut spans,
            &mut boxes,
            &mut ranges,
        );
        let spans = Spans {
            lanes: self.rows,
            points: self.points,
            cumulative: self.cumulative,
            spans: &spans,
            boxes: &boxes,
            ranges: &ranges,
            index,
        };
        // A counted loop: `ps.map(..)` was tried, and the proof that each answer is of these spans did not close.
        let mut found = [None; N];
        for i in 0..N {
            found[i] = spans.nearest_lane(ps[i]);
        }
        found
    }

    // The nearest lane to p, 9 where a coordinate is not finite, 10 where no lane drives.
    pub fn nearest_lane(&self, p: Point) -> Result<NearestLane, Refusal>
        ensures { nearest_by result ≡ nearest_among (lanes_from self.now.rows.now self.now.points.now self.now.count 0) p }
    {
        if !p.is_finite() {
            return Err(Refusal::NotAPoint);
        }
        let [best] = self.nearest_rows([p]);
        let b = best.ok_or(Refusal::NoneDrives)?;
        Ok(NearestLane {
            lane: LaneId(self.rows[6 * b.row]),
            projection: b.projection,
        })
    }
}
