//! Handsets over the line 0 - 1 - 2 - 3 of unit weights, and over paths.
ghost use Rattle.std.specs.Prelude.{◌≡◌};
ghost use Rattle.handset.specs.Condition.{GoesWith};

use crate::plays::{self, Over, Subject};
use crate::rows::{row_of, rows_in, step_of, within};
use crate::sameness::same_shown;
use distances::Distances;
use entry_word::{Act, Key, Visit, unpack_address, unpack_mark};
use handset::{Handset, SwitchFault};
use region_plan::{Plan, plan_is_sound};
use std::alloc::Global;
use std::process::Abort;
use std::test::Fail;

// Makes the write that comes next: one that commits in two calls, all others in one.
fn write(handset: &mut Handset, plan: &Plan) -> Option<Visit>
    requires { GoesWith plan.now handset.old }
    ensures { GoesWith plan.now handset.new }
{
    if !handset.commits() {
        return handset.write(plan);
    }
    let visit = handset.next(plan)?;
    handset.made(plan);
    Some(visit)
}

// Makes the writes that are left, up to a limit, and tells how many they were.
fn write_all(handset: &mut Handset, plan: &Plan, limit: u32) -> u32
    requires { GoesWith plan.now handset.old }
    ensures { GoesWith plan.now handset.new }
{
    'writes: for made in 0..limit {
        if write(handset, plan).is_none() {
            return made;
        }
    }
    limit
}

// Begins a switch.
fn turn(handset: &mut Handset, plan: &Plan, off: bool) -> Result<(), SwitchFault>
    requires { GoesWith plan.now handset.old }
    ensures { GoesWith plan.now handset.new }
{
    // The call has the plan at hand for the proof.
    plan_is_sound(plan);
    handset.switch(off)
}

// A write is shown by its actor, its key's numbers and what its word says.
fn shows_write(rt: &impl Abort, alloc: Global, place: usize, visit: Option<Visit>, wanted: &str) {
    let Some(
        Visit {
            actor,
            act: Act::Put(key, word),
        },
    ) = visit
    else {
        return same_shown(rt, alloc, place, &visit, wanted);
    };
    match key {
        Key::Presence { node, sub } => {
            let mark = unpack_mark(word);
            same_shown(rt, alloc, place, &(actor, node, sub, mark), wanted)
        }
        Key::Entry {
            level,
            cluster,
            sub,
        } => {
            let address = unpack_address(word);
            same_shown(
                rt,
                alloc,
                place,
                &(actor, level, cluster, sub, address),
                wanted,
            )
        }
    }
}

// What is seen of a handset: its subscriber, its place, its number, its weight, and whether it is
// off.
fn seen(handset: &Handset) -> (u32, u32, u32, u64, bool) {
    (
        handset.sub(),
        handset.place(),
        handset.number(),
        handset.weight(),
        handset.is_off(),
    )
}

// Makes it again of the words of its state, and tells how many they are.
fn reload(rt: &impl Abort, alloc: Global, handset: &mut Handset, plan: &Plan) -> u32
    requires { GoesWith plan.now handset.old }
    ensures { GoesWith plan.now handset.new }
{
    let count = handset.state_length(plan);
    let words = handset.state(alloc).expect(rt, "memory");
    *handset = Handset::of_state(alloc, plan, &words).expect(rt, "state");
    count
}

// A write of a handset, as many as are left up to a limit, the words of its state, the handset that
// is made of them in its place, or a look at it.
fn play_write(
    rt: &impl Abort,
    alloc: Global,
    place: usize,
    handset: &mut Handset,
    plan: &Plan,
    step: &str,
    wanted: &str,
)
    requires { GoesWith plan.now handset.old }
    ensures { GoesWith plan.now handset.new }
{
    let (name, [limit, ..]) = step_of(step);
    match name {
        "write" => shows_write(rt, alloc, place, write(handset, plan), wanted),
        "writes" => same_shown(rt, alloc, place, &write_all(handset, plan, limit), wanted),
        "state" => same_shown(rt, alloc, place, &handset.state(alloc), wanted),
        "reload" => same_shown(rt, alloc, place, &reload(rt, alloc, handset, plan), wanted),
        _ => same_shown(rt, alloc, place, &seen(handset), wanted),
    }
}

// What begins: a move or a switch; or else a write, its state or a look.
fn play_row(
    rt: &impl Abort,
    alloc: Global,
    place: usize,
    handset: &mut Handset,
    plan: &Plan,
    distances: &Distances,
    step: &str,
    wanted: &str,
)
    requires goes { GoesWith plan.now handset.old }
    requires belongs { plan.now.distances ≡ distances.now }
    ensures { GoesWith plan.now handset.new }
{
    let (name, [number, ..]) = step_of(step);
    match name {
        "move" => {
            let begun = handset.begin(plan, distances, number);
            same_shown(rt, alloc, place, &begun, wanted)
        }
        "off" => same_shown(rt, alloc, place, &turn(handset, plan, true), wanted),
        "on" => same_shown(rt, alloc, place, &turn(handset, plan, false), wanted),
        _ => play_write(rt, alloc, place, handset, plan, step, wanted),
    }
}

// Each row is a step of a handset at rest at its start: a look at it, a move or a switch that
// begins, the write that comes next, or as many as are left up to a limit.
fn play(
    rt: &impl Abort,
    alloc: Global,
    handset: &mut Handset,
    plan: &Plan,
    distances: &Distances,
    rows: &str,
)
    requires goes { GoesWith plan.now handset.old }
    requires belongs { plan.now.distances ≡ distances.now }
{
    'steps: for place in 0..rows_in(rows) {
        let (step, wanted) = row_of(rows, place);
        play_row(rt, alloc, place, handset, plan, distances, step, wanted);
    }
}

/// A handset at rest at a node of a plan.
pub fn play_from(
    rt: &impl Abort,
    alloc: Global,
    plan: &Plan,
    distances: &Distances,
    home: u32,
    rows: &str,
)
    requires belongs { plan.now.distances ≡ distances.now }
{
    let home = within(rt, home, 0, plan.nodes());
    let mut handset = Handset::new(alloc, 0, home, plan).expect(rt, "memory");
    play(rt, alloc, &mut handset, plan, distances, rows)
}

// Two moves, what is refused, and switches.
#[test]
fn on_the_line(rt: HostRuntime) -> Result<(), Fail> {
    let moves = "look>(0, 3, 0, 0, false)|\
        move 2>Ok(())|\
        write>(0, 2, 0, Some(Coming { number: 1, from: 3 }))|\
        write>(0, 0, 0, 0, Some(Some(Address { number: 1, node: 2 })))|\
        write>(0, 1, 0, 0, Some(Some(Address { number: 1, node: 2 })))|\
        look>(0, 3, 0, 1, false)|\
        state>Ok([0, 3, 0, 0, 3, 0, 1, 3, 2, 1, 1, 3, 3, 3, 0, 0, 1, 3])|\
        reload>18|\
        write>(0, 3, 0, Some(Gone { number: 1, to: 2 }))|\
        look>(0, 2, 1, 1, false)|\
        write>(0, 2, 0, Some(Here { number: 1 }))|\
        write>(0, 0, 1, 0, Some(None))|\
        write>None|\
        move 0>Ok(())|\
        look>(0, 2, 1, 2, false)|\
        writes 6>6|\
        write>(0, 2, 0, Some(Empty))|\
        write>(0, 3, 0, Some(Empty))|\
        write>None|\
        look>(0, 0, 2, 2, false)|";
    let refusals = "move 4>Err(NoNode)|\
        move 3>Err(SamePlace)|\
        on>Err(Already)|\
        move 2>Ok(())|\
        move 0>Err(UnderWay)|\
        off>Err(UnderWay)|";
    let switches = "off>Ok(())|\
        look>(0, 3, 0, 0, false)|\
        write>(0, 3, 0, Some(Off { number: 0 }))|\
        look>(0, 3, 0, 0, true)|\
        move 2>Err(IsOff)|\
        move 3>Err(SamePlace)|\
        on>Ok(())|\
        write>(0, 3, 0, Some(Here { number: 0 }))|";
    let subject = Subject::Handset { home: 3 };
    let tables = [moves, refusals, switches];
    plays::play(&rt, rt.alloc(), Over::Line, subject, &tables)
}

// The first move renews eight levels and erases at each. The second one has the weight that the
// top level still lacks, so that it renews and erases at all nine and purges two nodes.
#[test]
fn moves_past_two_words(rt: HostRuntime) -> Result<(), Fail> {
    let rows = "move 65>Ok(())|\
        writes 18>18|\
        write>(0, 7, 129, 0, Some(None))|\
        write>None|\
        look>(0, 65, 1, 64, false)|\
        move 1>Ok(())|\
        writes 22>22|\
        write>(0, 129, 0, Some(Empty))|\
        write>None|\
        look>(0, 1, 2, 64, false)|";
    let subject = Subject::Handset { home: 129 };
    plays::play(&rt, rt.alloc(), Over::PastTwoWords, subject, &[rows])
}

#[test]
fn a_move_over_the_most_nodes(rt: HostRuntime) -> Result<(), Fail> {
    let rows = "move 1024>Err(NoNode)|\
        move 0>Ok(())|\
        look>(0, 1023, 0, 1023, false)|\
        writes 4>4|\
        write>(0, 1023, 0, Some(Empty))|\
        write>None|\
        look>(0, 0, 1, 1023, false)|";
    let subject = Subject::Handset { home: 1023 };
    plays::play(&rt, rt.alloc(), Over::MostNodes, subject, &[rows])
}

fn sends<T: Send>() {}

#[test]
fn another_thread_may_have_it(_rt: HostRuntime) {
    sends::<Handset>();
}
