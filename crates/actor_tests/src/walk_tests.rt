//! Finds over the line 0 - 1 - 2 - 3 of unit weights, and over a path of the most nodes.
ghost use Rattle.std.specs.Prelude.{◌≡◌, ◌<◌};
ghost use Rattle.region_plan.specs.Plan.{nodes_of};
ghost use Rattle.walk.specs.Walks.{IsWalkOver, IsWordBelow};
ghost use Rattle.walk.specs.declared.progress.Progress.{Progress};

use crate::plays::{self, Over, Subject};
use crate::rows::{row_of, rows_in};
use crate::sameness::same_shown;
use distances::Distances;
use entry_word::{PresenceMark, pack_mark};
use net_graph::MAX_NODES;
use region_plan::Plan;
use std::alloc::Global;
use std::process::Abort;
use std::test::Fail;
use walk::{Walk, empty_words};

// The word that a read has by its name, which names no node beyond the plan, whatever the cell: of
// a subscriber that is here with move number 7, which an entry reads as the address of node 0 with
// that number; that is coming from node 0; that left for node 0 or for the last node; or nothing.
fn word_of(plan: &Plan, name: &str) -> u64
    requires { 0 < nodes_of plan.now }
    ensures { (progress : Progress) → IsWordBelow (nodes_of plan.now) progress result }
{
    empty_words();
    match name {
        "here" => pack_mark(PresenceMark::Here { number: 7 }),
        "coming" => pack_mark(PresenceMark::Coming { number: 1, from: 0 }),
        "gone-to-first" => pack_mark(PresenceMark::Gone { number: 1, to: 0 }),
        "gone-to-last" if plan.nodes() == MAX_NODES => pack_mark(PresenceMark::Gone {
            number: 1,
            to: 1023,
        }),
        _ => 0,
    }
}

// The walk reads the word of a name.
fn read(walk: &mut Walk, plan: &Plan, distances: &Distances, name: &str)
    requires goes { IsWalkOver plan.now walk.old }
    requires belongs { plan.now.distances ≡ distances.now }
    ensures { IsWalkOver plan.now walk.new }
{
    let word = word_of(plan, name);
    walk.saw(plan, distances, word);
}

// The walk is sent from one end of the path to the other and back, so many times.
fn go_to_and_fro(walk: &mut Walk, plan: &Plan, distances: &Distances, times: u32)
    requires goes { IsWalkOver plan.now walk.old }
    requires belongs { plan.now.distances ≡ distances.now }
    ensures { IsWalkOver plan.now walk.new }
{
    'hops: for _ in 0..times {
        read(walk, plan, distances, "gone-to-last");
        read(walk, plan, distances, "gone-to-first");
    }
}

// The walk goes on where its climb is.
fn resume(walk: &mut Walk, plan: &Plan)
    requires goes { IsWalkOver plan.now walk.old }
    ensures { IsWalkOver plan.now walk.new }
{
    if let Some(climb) = walk.climb() {
        walk.resume(climb);
    }
}

// Where a walk climbs: the level, the place among its readers and the weight.
fn climb_of(walk: &Walk) -> Option<(u32, u32, u64)> {
    let climb = walk.climb()?;
    Some((climb.level, climb.index, climb.weight))
}

fn play_row(
    rt: &impl Abort,
    alloc: Global,
    place: usize,
    walk: &mut Walk,
    plan: &Plan,
    distances: &Distances,
    step: &str,
    wanted: &str,
)
    requires goes { IsWalkOver plan.now walk.old }
    requires belongs { plan.now.distances ≡ distances.now }
    ensures { IsWalkOver plan.now walk.new }
{
    match step {
        "next" => same_shown(rt, alloc, place, &walk.next(plan), wanted),
        "answer" => same_shown(rt, alloc, place, &walk.answer(), wanted),
        "climb" => same_shown(rt, alloc, place, &climb_of(walk), wanted),
        "resume" => resume(walk, plan),
        "to-and-fro" => go_to_and_fro(walk, plan, distances, 513),
        _ => read(walk, plan, distances, step),
    }
}

// Each row is a step of a walk: what comes next, its answer, or where it climbs, and how it is
// shown; that it goes on there; 513 times that it reads in turn that the subscriber left for the
// last node and for the first; or what it reads.
fn play(
    rt: &impl Abort,
    alloc: Global,
    walk: &mut Walk,
    plan: &Plan,
    distances: &Distances,
    rows: &str,
)
    requires goes { IsWalkOver plan.now walk.old }
    requires belongs { plan.now.distances ≡ distances.now }
{
    'steps: for place in 0..rows_in(rows) {
        let (step, wanted) = row_of(rows, place);
        play_row(rt, alloc, place, walk, plan, distances, step, wanted);
    }
}

/// A find of the last of so many subscribers from a node; rows of one that can't begin are its
/// fault.
pub fn play_from(
    rt: &impl Abort,
    alloc: Global,
    plan: &Plan,
    distances: &Distances,
    from: u32,
    subs: u32,
    rows: &str,
)
    requires belongs { plan.now.distances ≡ distances.now }
{
    match Walk::new(from, subs.saturating_sub(1), subs, plan) {
        Ok(mut walk) => play(rt, alloc, &mut walk, plan, distances, rows),
        Err(fault) => same_shown(rt, alloc, 0, &fault, rows),
    }
}

#[test]
fn on_the_line(rt: HostRuntime) -> Result<(), Fail> {
    let no_entry = "next>Some(Presence { node: 3, sub: 0 })|\
        answer>None|\
        nothing|\
        next>Some(Entry { level: 0, cluster: 0, sub: 0 })|\
        nothing|\
        next>Some(Entry { level: 0, cluster: 1, sub: 0 })|\
        nothing|\
        next>Some(Entry { level: 1, cluster: 0, sub: 0 })|\
        nothing|\
        nothing|\
        next>None|\
        answer>Some(Again { why: NoEntry, weight: 18 })|";
    let climbs = "climb>None|\
        resume|\
        nothing|\
        climb>Some((0, 0, 0))|\
        nothing|\
        resume|\
        climb>Some((0, 1, 6))|\
        next>Some(Entry { level: 0, cluster: 1, sub: 0 })|\
        nothing|\
        climb>Some((1, 0, 6))|\
        nothing|\
        climb>Some((2, 0, 12))|\
        nothing|\
        climb>None|\
        answer>Some(Again { why: NoEntry, weight: 18 })|";
    let at_origin = "here|answer>Some(At { node: 3, number: 7, level: None, weight: 0 })|";
    let subject = Subject::Walk { from: 3, subs: 1 };
    plays::play(
        &rt,
        rt.alloc(),
        Over::Line,
        subject,
        &[no_entry, climbs, at_origin],
    )
}

#[test]
fn refusals(rt: HostRuntime) -> Result<(), Fail> {
    let beyond = Subject::Walk { from: 4, subs: 1 };
    plays::play(&rt, rt.alloc(), Over::Line, beyond, &["NoNode"])?;
    let nobody = Subject::Walk { from: 0, subs: 0 };
    plays::play(&rt, rt.alloc(), Over::Line, nobody, &["NoSubscriber"])
}

// The last of 64 subscribers is looked for from the last node. A chase has three looks more than
// there are nodes, and its last hop isn't made.
#[test]
fn over_the_most_nodes(rt: HostRuntime) -> Result<(), Fail> {
    let looks = "next>Some(Presence { node: 1023, sub: 63 })|\
        nothing|\
        next>Some(Entry { level: 0, cluster: 0, sub: 63 })|\
        nothing|\
        answer>Some(Again { why: NoEntry, weight: 2046 })|";
    let finds = "nothing|\
        here|\
        next>Some(Presence { node: 0, sub: 63 })|\
        here|\
        answer>Some(At { node: 0, number: 7, level: Some(0), weight: 1023 })|";
    let chase = "coming|\
        to-and-fro|\
        answer>None|\
        next>Some(Presence { node: 0, sub: 63 })|\
        gone-to-last|\
        answer>Some(Again { why: Chased, weight: 1050621 })|";
    let subject = Subject::Walk {
        from: 1023,
        subs: 64,
    };
    plays::play(
        &rt,
        rt.alloc(),
        Over::MostNodes,
        subject,
        &[looks, finds, chase],
    )
}

fn sends<T: Send>() {}

#[test]
fn another_thread_may_have_it(_rt: HostRuntime) {
    sends::<Walk>();
}
