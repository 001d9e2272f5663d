// What the route query reads.
ghost use Rattle.sampling.specs.Passes.{PathRows};
ghost use Rattle.sampling.specs.Structs.{tables_in};
ghost use Rattle.route.specs.Route.{Routable};

use sampling::LinkedLanes;

// The rows of a plan's lanes, which can be searched too.
#[derive(Clone, Copy)]
pub(crate) struct RouteRows<'a> {
    pub linked: LinkedLanes<'a>,
    pub ghost routable: { Routable (tables_in linked) linked.lanes.count },
}

// A path of lanes, from the arc length `s` on the first to `t` on the last.
#[derive(Clone, Copy)]
pub(crate) struct Drive<'a> {
    pub linked: LinkedLanes<'a>,
    pub path: &'a [usize],
    pub s: f32,
    pub t: f32,
    pub ghost in_rows: { PathRows path.now linked.lanes.count },
}
