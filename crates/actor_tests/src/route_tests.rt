//! The readers and the homes of all nodes in one row, of the line 0 - 1 - 2 - 3 of unit weights and
//! of paths.

ghost use Rattle.std.specs.Prelude.{◌<◌};
ghost use Rattle.visit_log.specs.Homes.{AreHomes};
ghost use Rattle.visit_log.specs.Routes.{AreRoutes};

use crate::plays::{Over, Subject, play};
use crate::rows::{row_of, rows_in, step_of};
use crate::sameness::same_shown;
use region_plan::Plan;
use std::alloc::Global;
use std::process::Abort;
use std::test::Fail;
use visit_log::{Height, Homes, Routes};

// How many entries are ahead of a reader of a node, and where a climb is past so many of them.
fn climb(routes: &Routes, plan: &Plan, reader: [u32; 4]) -> Option<(usize, Option<Height>)>
    requires are { AreRoutes plan.now routes.now }
{
    let [node, level, index, count] = reader;
    if node >= plan.nodes() || level >= plan.levels() {
        return None;
    }
    if index as usize >= plan.readers(level, node).len() {
        return None;
    }
    let ahead = routes.ahead(node, level, index).len();
    if count as usize >= ahead {
        return Some((ahead, None));
    }
    Some((ahead, Some(routes.past(node, level, index, count as usize))))
}

// The most looks of a find from a node, if there is such a node.
fn most_looks(routes: &Routes, plan: &Plan, node: u32) -> Option<u64>
    requires are { AreRoutes plan.now routes.now }
{
    if node < plan.nodes() {
        return Some(routes.most_looks(plan, node));
    }
    None
}

// The places of a node's homes, if there is such a node.
fn homes_of<'a>(homes: &'a Homes, plan: &Plan, node: u32) -> Option<&'a [u32]>
    requires are { AreHomes plan.now homes.now }
{
    if node < plan.nodes() {
        return Some(homes.of(node));
    }
    None
}

// A climb, the most looks from a node, or else its homes.
fn play_row(
    rt: &impl Abort,
    alloc: Global,
    place: usize,
    plan: &Plan,
    routes: &Routes,
    homes: &Homes,
    step: &str,
    wanted: &str,
)
    requires routes { AreRoutes plan.now routes.now }
    requires homes { AreHomes plan.now homes.now }
{
    let (name, numbers) = step_of(step);
    match name {
        "climb" => same_shown(rt, alloc, place, &climb(routes, plan, numbers), wanted),
        "looks" => same_shown(
            rt,
            alloc,
            place,
            &most_looks(routes, plan, numbers[0]),
            wanted,
        ),
        _ => same_shown(rt, alloc, place, &homes_of(homes, plan, numbers[0]), wanted),
    }
}

// Each row is a node, with a level, a place among the readers there and how many entries a climb
// passes, or alone.
pub fn play_over(rt: &impl Abort, alloc: Global, plan: &Plan, rows: &str) {
    let routes = Routes::new(alloc, plan).expect(rt, "memory");
    let homes = Homes::new(alloc, plan).expect(rt, "memory");
    for place in 0..rows_in(rows) {
        let (step, wanted) = row_of(rows, place);
        play_row(rt, alloc, place, plan, &routes, &homes, step, wanted);
    }
}

#[test]
fn on_the_line(rt: HostRuntime) -> Result<(), Fail> {
    let rows = "climb 3 0 0 0>Some((4, Some(Height { level: 0, index: 0, weight: 0 })))|\
        climb 3 0 0 1>Some((4, Some(Height { level: 0, index: 1, weight: 6 })))|\
        climb 3 0 0 2>Some((4, Some(Height { level: 1, index: 0, weight: 6 })))|\
        climb 3 0 0 3>Some((4, Some(Height { level: 2, index: 0, weight: 12 })))|\
        climb 3 0 0 4>Some((4, None))|\
        climb 3 0 1 1>Some((3, Some(Height { level: 1, index: 0, weight: 0 })))|\
        climb 3 2 0 0>Some((1, Some(Height { level: 2, index: 0, weight: 0 })))|\
        climb 3 2 0 1>Some((1, None))|\
        climb 0 0 0 1>Some((3, Some(Height { level: 1, index: 0, weight: 0 })))|\
        climb 3 0 2 0>None|\
        climb 4 0 0 0>None|\
        climb 0 3 0 0>None|\
        looks 3>Some(12)|\
        looks 0>Some(11)|\
        looks 4>None|\
        homes 3>Some([5, 6, 7])|\
        homes 0>Some([4, 6, 7])|\
        homes 4>None|";
    play(&rt, rt.alloc(), Over::Line, Subject::Routes, &[rows])
}

#[test]
fn over_one_level(rt: HostRuntime) -> Result<(), Fail> {
    let rows = "climb 1023 0 0 0>Some((1, Some(Height { level: 0, index: 0, weight: 0 })))|\
        climb 1023 0 0 1>Some((1, None))|";
    play(&rt, rt.alloc(), Over::MostNodes, Subject::Routes, &[rows])
}
