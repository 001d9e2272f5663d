// `read_plan` for Rust and C, to compare it with another reader. C lends the tables one by one.
#![tactic(auto)]

ghost use Rattle.plan_format.specs.Tables.{tables};
ghost use Rattle.plan_format.specs.Reading.{Answers, opened, short};

use plan_format::Read;

#[unsafe(no_mangle)]
pub extern "C" fn kartsodi_read_plan(
    file: &[u8],
    side: usize,
    lanes: &mut [usize],
    points: &mut [f32],
    ends: &mut [f32],
    fans: &mut [usize],
    links: &mut [usize],
    sections: &mut [usize],
    bounds: &mut [f64],
    stations: &mut [f64],
    places: &mut [usize],
) -> Read
    ensures { Answers
        (opened
        (short
        (tables lanes.old points.old ends.old fans.old links.old
        sections.old bounds.old stations.old places.old))
        side file.now)
        result
        (tables lanes.old points.old ends.old fans.old links.old
        sections.old bounds.old stations.old places.old)
        (tables lanes.new points.new ends.new fans.new links.new
        sections.new bounds.new stations.new places.new) }
{
    Read::from(plan::read_plan(
        file, side, lanes, points, ends, fans, links, sections, bounds, stations, places,
    ))
}
