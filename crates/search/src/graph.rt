// The lanes of a plan and the links between them, as the search reads them.
ghost use Rattle.std.specs.Prelude.{◌*◌, ◌≤◌, length};
ghost use Rattle.search.specs.LaneGraph.{Readable, lane_graph};

// The first `count` lanes of the tables `lanes`, `fans` and `links`, and the length of each. A lane is its row in the tables, which are flat as C
// lends them.
#[derive(Clone, Copy)]
pub struct Graph<'a> {
    pub count: usize,
    pub lanes: &'a [usize],
    pub fans: &'a [usize],
    pub links: &'a [usize],
    pub lengths: &'a [f32],
    pub ghost numbered: { 6 * count ≤ length lanes.now },
    pub ghost readable: { Readable (lane_graph count fans.now links.now lengths.now) },
}
