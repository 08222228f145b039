//! Censuses of the line 0 - 1 - 2 - 3 of unit weights, and of places.
ghost use Rattle.std.specs.Prelude.{◌≡◌, ◌<◌, ◌^◌, length};
ghost use Rattle.region_plan.specs.Plan.{nodes_of};
ghost use Rattle.visit_log.specs.Cells.{GoWith};

use crate::sameness::is_like;
use census_text::{census, census_of_places};
use entry_word::{Key, PresenceMark, pack_mark};
use region_plan::Plan;
use std::alloc::Global;
use std::process::Abort;
use std::test::Fail;
use test_networks::line_of_four;
use visit_log::{PlainCells, cell_numbers};

// A mark is put into the presence cell of a subscriber at a node.
fn put(plan: &Plan, cells: &mut PlainCells, node: u32, sub: u32, mark: PresenceMark)
    requires goes { GoWith plan.now cells.old }
    requires node { node < nodes_of plan.now }
    requires sub { sub < cells.old.subs }
    ensures goes { GoWith plan.now cells.new }
    ensures subs { cells.new.subs ≡ cells.old.subs }
{
    cell_numbers();
    cells.put(plan, Key::Presence { node, sub }, pack_mark(mark));
}

fn census_is(
    rt: &impl Abort,
    alloc: Global,
    place: usize,
    plan: &Plan,
    cells: &PlainCells,
    subs: u32,
    wanted: &str,
)
    requires goes { GoWith plan.now cells.now }
    requires subs { subs ≡ cells.now.subs }
{
    let text = census(alloc, plan, cells, subs).expect(rt, "memory");
    is_like(rt, place, &text, wanted);
}

// Marks are put into the cells of two subscribers who start at node 3.
fn play(rt: &impl Abort, alloc: Global, plan: &Plan, cells: &mut PlainCells)
    requires goes { GoWith plan.now cells.old }
    requires nodes { nodes_of plan.now ≡ 4 }
    requires subs { cells.old.subs ≡ 2 }
{
    put(plan, cells, 3, 0, PresenceMark::Here { number: 0 });
    let wanted = "node 3 count 2 subs 0 1\nend 2\n";
    census_is(rt, alloc, 0, plan, cells, 2, wanted);
    put(plan, cells, 3, 0, PresenceMark::Gone { number: 1, to: 2 });
    let wanted = "node 3 count 1 subs 1\nend 1\n";
    census_is(rt, alloc, 1, plan, cells, 2, wanted);
    put(plan, cells, 2, 0, PresenceMark::Here { number: 1 });
    let wanted = "node 2 count 1 subs 0\nnode 3 count 1 subs 1\nend 2\n";
    census_is(rt, alloc, 2, plan, cells, 2, wanted);
    put(plan, cells, 3, 1, PresenceMark::Off { number: 0 });
    let wanted = "node 2 count 1 subs 0\nend 1\n";
    census_is(rt, alloc, 3, plan, cells, 2, wanted);
}

fn play_over(rt: &impl Abort, alloc: Global, plan: &Plan)
    requires nodes { nodes_of plan.now ≡ 4 }
{
    let mut cells = PlainCells::new(alloc, plan, &[3, 3]).expect(rt, "memory");
    play(rt, alloc, plan, &mut cells);
}

// As many subscribers as there may be, all at node 1 of four.
fn is_crowd(rt: &impl Abort, alloc: Global, plan: &Plan)
    requires nodes { nodes_of plan.now ≡ 4 }
{
    let cells = PlainCells::new(alloc, plan, &[1; 64]).expect(rt, "memory");
    let wanted = "node 1 count 64 subs 0 1 2 3 * 61 62 63\nend 64\n";
    census_is(rt, alloc, 64, plan, &cells, 64, wanted);
}

#[test]
fn who_is_where(rt: HostRuntime) -> Result<(), Fail> {
    let (plan, _) = line_of_four(rt.alloc())?;
    play_over(&rt, rt.alloc(), &plan);
    is_crowd(&rt, rt.alloc(), &plan);
    Ok(())
}

// The census of places is this text; or begins and ends so, where a `*` stands between.
fn tells_places(rt: &impl Abort, alloc: Global, nodes: u32, places: &[Option<u32>], wanted: &str)
    requires few { length places.now < 2 ^ 32 }
{
    let text = census_of_places(alloc, nodes, places).expect(rt, "memory");
    is_like(rt, places.len(), &text, wanted);
}

#[test]
fn who_is_where_by_places(rt: HostRuntime) {
    let places = [Some(3), None, Some(1), Some(3)];
    let here = "node 1 count 1 subs 2\nnode 3 count 2 subs 0 3\nend 3\n";
    tells_places(&rt, rt.alloc(), 4, &places, here);
    tells_places(&rt, rt.alloc(), 1024, &[None; 64], "end 0\n");
    let crowd = "node 1023 count 64 subs 0 1 2 3 * 61 62 63\nend 64\n";
    tells_places(&rt, rt.alloc(), 1024, &[Some(1023); 64], crowd);
}
