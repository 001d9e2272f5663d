// The public calls: a plan's file, a query and tables to work in; the answer or its number, for every input. Each stands in a crate of its own.
// `route` is that of lanes_promise, whose contract has demand 3 besides.
#![tactic(auto)]

pub use lanes_advance::advance;
pub use lanes_beside::beside;
pub use lanes_nearest::nearest_lane;
pub use lanes_pose::pose;
pub use lanes_promise::route;
