// advance.rs, the loop of `advance`: branches are taken on along the lanes, one at a time, until none is left or the keys do not fit.
// `specs/Explore.antt` says what each function makes of a state, `specs/Held.antt` how a `State` holds it.
#![tactic(auto)]

ghost use Rattle.std.specs.Prelude.{◌≡◌, ◌+◌, ◌<◌, ◌≤◌};
ghost use Rattle.arrayvec.specs.ArrayVec.{array_vec_len};
ghost use Rattle.branches.specs.Held.{tables_of};
ghost use Rattle.explore.specs.Explore.{follow, step, run_from};
ghost use Rattle.explore.specs.Held.{state_of};

use branches::{Branch, Front, Leaving, Plan};
use ends::Found;

// How far a run has come: its branches and keys, and the places given.
#[derive(Drop)]
pub struct State {
    pub front: Front,
    pub found: Found,
}

impl State {
    // The branch b, taken off, goes on or ends.
    fn follow(&mut self, plan: &Plan, ahead: bool, b: Branch)
        requires { (b.lane < plan.now.lanes.count) × (array_vec_len self.old.found.out < 1026) }
        ensures followed { state_of self.new ≡ follow (tables_of plan.now) ahead b (state_of self.old) }
        ensures one { array_vec_len self.new.found.out ≤ array_vec_len self.old.found.out + 1 }
    {
        let i = b.lane;
        let space = branches::room(b.up, plan.lanes.length(i), b.arc);
        if b.remaining > space {
            let l = Leaving {
                lane: i,
                up: b.up,
                exit: plan.lanes.exit_point(i, b.up),
                left: b.left,
                remaining: b.remaining - space,
            };
            let end = plan.link_end(ahead, i);
            let count = plan.link_count(ahead, i);
            if self
                .front
                .enter_links(&plan.lanes, plan.links, end, count, ahead, l)
            {
                return;
            }
        }
        self.found.place(plan, ahead, b, space);
    }

    // The newest branch is taken off, and followed where its lane is in the plan.
    #[tactic(auto, unfolding(crate::specs::Explore::step_from), using(branches::specs::HeldLaws::pushed))]
    fn step(&mut self, plan: &Plan, ahead: bool)
        requires { array_vec_len self.old.found.out < 1026 }
        ensures stepped { state_of self.new ≡ step (tables_of plan.now) ahead (state_of self.old) }
        ensures one { array_vec_len self.new.found.out ≤ array_vec_len self.old.found.out + 1 }
    {
        let Some(b) = self.front.todo.pop() else {
            return;
        };
        if b.lane < plan.lanes.count {
            self.follow(plan, ahead, b);
        }
    }

    // At most 1,026 steps, while branches are left and the keys fit, from a state with no places.
    pub fn run(&mut self, plan: &Plan, ahead: bool)
        requires { array_vec_len self.old.found.out ≡ 0 }
        ensures { state_of self.new ≡ run_from (tables_of plan.now) ahead 1026 (state_of self.old) }
    {
        for _ in 0..1026usize {
            if self.front.todo.is_empty() || self.front.full {
                return;
            }
            self.step(plan, ahead);
        }
    }
}
