//! Reports on the line 0 - 1 - 2 - 3 of unit weights, by several programs.
ghost use Rattle.std.specs.Prelude.{◌≡◌, ◌≤◌, length};
ghost use Rattle.net_reader.specs.Seen.{seen_input};
ghost use Rattle.net_reader.specs.Valid.{IsValid};
ghost use Rattle.report_check.specs.Verdicts.{most_bytes};

use crate::playing::{Table, play};
use crate::sameness::{same_text, shown};
use distances::Distances;
use net_reader::Input;
use region_plan::Plan;
use report_check::{Flaw, check};
use std::alloc::Global;
use std::process::Abort;
use std::test::Fail;

const MOST_BYTES: usize = 67_108_864;

/// One subscriber at 3 and one caller, actor 1; the subscriber moves, and then it is looked for.
pub const MOVED: &str =
    "track 1\nnodes 4\nk 2\nedge 0 1 1\nedge 1 2 1\nedge 2 3 1\nsub 3\ncallers 1\n\
move 0 2\nfind 1 3 0\n";

/// The same subscriber switches off and on, and is looked for.
pub const SWITCHED: &str = "track 2\nnodes 4\nk 2\nedge 0 1 1\nedge 1 2 1\nedge 2 3 1\nsub 3\n\
callers 1\noff 0\non 0\nfind 1 3 0\n";

/// The verdict on a report on an input over its plan, as `{:?}` shows it.
pub fn verdict_by(
    rt: &impl Abort,
    alloc: Global,
    input: &Input,
    plan: &Plan,
    distances: &Distances,
    report: &str,
) -> Vec<u8>
    requires valid { IsValid (seen_input input.now) }
    requires distances { distances.now ≡ plan.now.distances }
{
    assert!(rt; report.len() <= MOST_BYTES);
    let verdict = check(alloc, input, plan, distances, report.as_bytes()).expect(rt, "memory");
    shown(rt, alloc, &verdict).into_bytes()
}

#[test]
fn moves_and_finds(rt: HostRuntime) -> Result<(), Fail> {
    let rows = "move 0 1 3 2 weight 1 first 0 commit 3 last 5\n\
find 1 3 0 at 2 number 1 level 0 weight 5 first 6 last 8\norder 0 0 0 0 0 0 1 1 1\nend 9\n>\
Sound|\
move 0 1 3 2 weight 1 first 0 commit 3 last 5\n\
find 1 3 0 at 3 number 1 level 0 weight 5 first 6 last 8\norder 0 0 0 0 0 0 1 1 1\nend 9\n>\
Unsound { line: 2, cause: Place }|\
move 0 1 3 2 weight 1 first 0 commit 3 last 5\n\
find 1 3 0 at 2 number 1 level 0 weight 145 first 6 last 8\norder 0 0 0 0 0 0 1 1 1\nend 9\n>\
Unsound { line: 2, cause: Weight }|\
move 0 1 3 2 weight 1 first 0 commit 5 last 5\n\
find 1 3 0 at 2 number 1 level 0 weight 5 first 6 last 8\norder 0 0 0 0 0 0 1 1 1\nend 9\n>\
Unsound { line: 1, cause: Tickets }|\
move 0 1 3 2 weight 1 first 0 commit 3 last 5\n\
again 1 3 0 none weight 5 first 6 last 8\norder 0 0 0 0 0 0 1 1 1\nend 9\n>\
Unsound { line: 2, cause: Again }|\
>Unsound { line: 1, cause: Form }|";
    play(&rt, rt.alloc(), Table::Moved, rows)
}

#[test]
fn switches(rt: HostRuntime) -> Result<(), Fail> {
    let rows = "switch 0 off 3 number 0 ticket 0\nswitch 0 on 3 number 0 ticket 2\n\
off 1 3 0 at 3 number 0 level - weight 0 first 1 last 1\norder 0 1 0\nend 3\n>\
Sound|\
switch 0 off 3 number 0 ticket 0\nswitch 0 on 3 number 0 ticket 2\n\
find 1 3 0 at 3 number 0 level - weight 0 first 1 last 1\norder 0 1 0\nend 3\n>\
Unsound { line: 3, cause: Place }|";
    play(&rt, rt.alloc(), Table::Switched, rows)?;
    same_text(&rt, 2, Flaw::Tickets.name().as_bytes(), b"tickets");
    Ok(())
}
