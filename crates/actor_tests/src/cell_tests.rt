//! Cells and their numbers, of the line 0 - 1 - 2 - 3 of unit weights, whose level 0 has two
//! clusters, and of paths.

ghost use Rattle.std.specs.Prelude.{◌≡◌, ◌<◌, ◌≤◌, IfOk, IfSome};
ghost use Rattle.region_plan.specs.Cells.{IsCell};
ghost use Rattle.region_plan.specs.Plan.{nodes_of};
ghost use Rattle.visit_log.specs.Cells.{GoWith};

use crate::plays::{self, Over, Subject};
use crate::rows::{halves, row_of, rows_in, step_of, within};
use crate::sameness::same_shown;
use entry_word::Key;
use region_plan::Plan;
use std::alloc::{AllocError, Global};
use std::process::Abort;
use std::test::Fail;
use visit_log::{PlainCells, cell_count, cell_number, key_node};

// The key of an entry of so many subscribers, if there is such a cell.
fn entry_of(plan: &Plan, subs: u32, level: u32, cluster: u32, sub: u32) -> Option<Key>
    ensures { IfSome result (IsCell plan.now subs) }
{
    if level >= plan.levels() || cluster >= plan.clusters(level) || sub >= subs {
        return None;
    }
    Some(Key::Entry {
        level,
        cluster,
        sub,
    })
}

// The key `presence NODE SUB` or `entry LEVEL CLUSTER SUB` of a cell of so many subscribers, if
// there is such a cell.
fn cell_of(plan: &Plan, subs: u32, words: &str) -> Option<Key>
    ensures { IfSome result (IsCell plan.now subs) }
{
    let (kind, [first, second, third, _]) = step_of(words);
    match kind {
        "presence" if first < plan.nodes() && second < subs => Some(Key::Presence {
            node: first,
            sub: second,
        }),
        "entry" => entry_of(plan, subs, first, second, third),
        _ => None,
    }
}

// Puts a word, if there is such a cell, and tells what the cell then holds.
fn put(cells: &mut PlainCells, plan: &Plan, subs: u32, words: &str) -> Option<u64>
    requires goes { GoWith plan.now cells.old }
    requires subs { cells.old.subs ≡ subs }
    ensures goes { GoWith plan.now cells.new }
    ensures subs { cells.new.subs ≡ subs }
{
    let (word, cell) = halves(words, ' ');
    let key = cell_of(plan, subs, cell)?;
    cells.put(plan, key, word.parse::<u64>().ok()?);
    Some(cells.look(plan, key))
}

// How many presences of subscriber 0 at two nodes hold nothing.
fn empty_presences(cells: &PlainCells, plan: &Plan, one: u32, two: u32) -> Option<u64>
    requires goes { GoWith plan.now cells.now }
    requires some { 1 ≤ cells.now.subs }
{
    if one >= plan.nodes() || two >= plan.nodes() {
        return None;
    }
    Some(cells.count_empty(0, &[one, two]) as u64)
}

// How many clusters a level has, if there is such a level.
fn clusters_of(plan: &Plan, level: u32) -> Option<u64> {
    if level < plan.levels() {
        return Some(u64::from(plan.clusters(level)));
    }
    None
}

// What a cell holds, its number, or its node.
fn told_of_cell(cells: &PlainCells, plan: &Plan, subs: u32, name: &str, cell: &str) -> Option<u64>
    requires goes { GoWith plan.now cells.now }
    requires subs { cells.now.subs ≡ subs }
{
    let key = cell_of(plan, subs, cell)?;
    match name {
        "look" => Some(cells.look(plan, key)),
        "number" => Some(cell_number(plan, subs, key)),
        "node" => Some(u64::from(key_node(plan, key))),
        _ => None,
    }
}

// What cells tell without a change: how many of two presences hold nothing, how many cells, levels,
// and clusters of a level there are, or what one cell tells.
fn told_of(cells: &PlainCells, plan: &Plan, subs: u32, step: &str) -> Option<u64>
    requires goes { GoWith plan.now cells.now }
    requires subs { cells.now.subs ≡ subs }
    requires some { 1 ≤ subs }
{
    let (name, [first, second, ..]) = step_of(step);
    match name {
        "empty" => empty_presences(cells, plan, first, second),
        "count" => Some(cell_count(plan, subs)),
        "levels" => Some(u64::from(plan.levels())),
        "clusters" => clusters_of(plan, first),
        _ => told_of_cell(cells, plan, subs, name, halves(step, ' ').1),
    }
}

// What is seen of a step: nothing where there is no such cell or level.
fn take(cells: &mut PlainCells, plan: &Plan, subs: u32, step: &str) -> Option<u64>
    requires goes { GoWith plan.now cells.old }
    requires subs { cells.old.subs ≡ subs }
    requires some { 1 ≤ subs }
    ensures goes { GoWith plan.now cells.new }
    ensures subs { cells.new.subs ≡ subs }
{
    match step.strip_prefix("put ") {
        Some(words) => put(cells, plan, subs, words),
        None => told_of(cells, plan, subs, step),
    }
}

// Each row is a step over the cells of so many subscribers. The word 2^48 is that of a subscriber's
// presence at its start node, and 2^48 and a node's number more that of an entry that leads there.
fn play(rt: &impl Abort, alloc: Global, cells: &mut PlainCells, plan: &Plan, subs: u32, rows: &str)
    requires goes { GoWith plan.now cells.old }
    requires subs { cells.old.subs ≡ subs }
    requires some { 1 ≤ subs }
{
    'steps: for place in 0..rows_in(rows) {
        let (step, wanted) = row_of(rows, place);
        let seen = take(cells, plan, subs, step);
        same_shown(rt, alloc, place, &seen, wanted);
    }
}

// The cells of so many subscribers, which all start at one node.
fn cells_of(alloc: Global, plan: &Plan, home: u32, subs: u32) -> Result<PlainCells, AllocError>
    requires inside { home < nodes_of plan.now }
    requires some { 1 ≤ subs }
    requires few { subs ≤ 64 }
    ensures goes { IfOk result (GoWith plan.now) }
    ensures subs { IfOk result (λ cells. cells.subs ≡ subs) }
{
    let homes = vec![in alloc; home; subs as usize]?;
    PlainCells::new(alloc, plan, &homes)
}

/// Plays rows over the cells of so many subscribers, from 1 to 64, which all start at one node.
pub fn play_from(rt: &impl Abort, alloc: Global, plan: &Plan, home: u32, subs: u32, rows: &str) {
    let (home, subs) = (within(rt, home, 0, plan.nodes()), within(rt, subs, 1, 65));
    let mut cells = cells_of(alloc, plan, home, subs).expect(rt, "memory");
    play(rt, alloc, &mut cells, plan, subs, rows);
}

#[test]
fn on_the_line(rt: HostRuntime) -> Result<(), Fail> {
    let opening = "levels>Some(3)|\
        clusters 0>Some(2)|\
        look presence 3 0>Some(281474976710656)|\
        look presence 0 0>Some(0)|\
        look entry 0 1 0>Some(281474976710659)|\
        empty 0 3>Some(1)|\
        empty 3 0>Some(0)|\
        empty 0 0>Some(2)|\
        put 0 entry 0 1 0>Some(0)|\
        look entry 0 1 0>Some(0)|\
        put 0 presence 3 0>Some(0)|\
        empty 3 0>Some(2)|\
        look presence 3 0>Some(0)|";
    let numbers = "clusters 0>Some(2)|\
        clusters 1>Some(1)|\
        count>Some(16)|\
        number presence 3 1>Some(7)|\
        node presence 3 1>Some(3)|\
        number entry 1 0 1>Some(13)|\
        node entry 1 0 1>Some(0)|";
    let one = Subject::Cells { home: 3, subs: 1 };
    plays::play(&rt, rt.alloc(), Over::Line, one, &[opening])?;
    let two = Subject::Cells { home: 3, subs: 2 };
    plays::play(&rt, rt.alloc(), Over::Line, two, &[numbers])
}

// At the lowest level every third node leads a cluster of the first phase, 44 in all, and then
// come 43 of each of two more phases.
#[test]
fn past_two_words(rt: HostRuntime) -> Result<(), Fail> {
    let rows = "levels>Some(9)|\
        clusters 0>Some(130)|\
        clusters 1>Some(130)|\
        clusters 8>Some(130)|\
        count>Some(83200)|\
        number presence 129 63>Some(8319)|\
        number entry 1 64 5>Some(20741)|\
        number entry 8 129 63>Some(83199)|\
        node entry 0 43 0>Some(129)|\
        node entry 0 44 0>Some(1)|\
        node entry 0 129 0>Some(128)|\
        look entry 0 43 63>Some(281474976710785)|\
        look entry 0 44 63>Some(0)|\
        put 7 entry 0 44 63>Some(7)|\
        look entry 0 44 63>Some(7)|\
        look entry 0 44 62>Some(0)|\
        look entry 0 43 63>Some(281474976710785)|";
    let subject = Subject::Cells {
        home: 129,
        subs: 64,
    };
    plays::play(&rt, rt.alloc(), Over::PastTwoWords, subject, &[rows])
}

#[test]
fn at_the_most_nodes(rt: HostRuntime) -> Result<(), Fail> {
    let rows = "levels>Some(1)|\
        clusters 0>Some(1)|\
        count>Some(65600)|\
        number entry 0 0 63>Some(65599)|\
        look presence 1023 63>Some(281474976710656)|\
        put 0 presence 1023 63>Some(0)|\
        look presence 1023 63>Some(0)|\
        look presence 1023 62>Some(281474976710656)|";
    let subject = Subject::Cells {
        home: 1023,
        subs: 64,
    };
    plays::play(&rt, rt.alloc(), Over::MostNodes, subject, &[rows])
}

// A word of the narrow cells, and then a wide one beside it.
fn play_word(rt: &impl Abort, alloc: Global, word: u64) -> Result<(), Fail> {
    let rows = format!(in alloc;
        "put 17732927827674111 presence 0 0>Some(17732927827674111)|\
        look presence 3 0>Some(281474976710656)|\
        put {word} presence 1 0>Some({word})|\
        look presence 0 0>Some(17732927827674111)|\
        look presence 3 0>Some(281474976710656)|\
        look entry 0 1 0>Some(281474976710659)|\
        empty 2 1>Some(1)|\
        put 1 presence 0 0>Some(1)|\
        put 0 presence 1 0>Some(0)|\
        empty 1 2>Some(2)|\
        empty 1 0>Some(1)|"
    )
    .expect(rt, "memory");
    let subject = Subject::Cells { home: 3, subs: 1 };
    plays::play(rt, alloc, Over::Line, subject, &[rows.as_str()])
}

// Cells are kept in 32 bits until a word comes that has a bit between its parts; a bit on each side
// of each part, and of all words the last.
#[test]
fn words_of_every_width(rt: HostRuntime) -> Result<(), Fail> {
    let words = [
        1u64 << 10,
        1 << 15,
        1 << 32,
        1 << 47,
        1 << 54,
        1 << 63,
        u64::MAX,
    ];
    for place in 0..words.len() {
        play_word(&rt, rt.alloc(), words[place])?;
    }
    Ok(())
}
