//! Sets on both sides of a word of 64 numbers, and at the most room.
ghost use Rattle.std.specs.Prelude.{◌≡◌, ◌≤◌, IfOk, length};

use crate::rows::{check, five_numbers, question_of, tell, tell_node, within};
use crate::sameness::same;
use crate::subjects::ask;
use node_set::{NodeSet, lanes_absorb, lanes_meet};
use std::alloc::{AllocError, Global};
use std::process::Abort;
use std::test::Fail;

/// The set of these numbers.
pub fn set_of(alloc: Global, room: u32, numbers: &[u32]) -> Result<NodeSet, AllocError>
    requires { room ≤ 1024 }
    ensures { IfOk result (λ set. set.room ≡ room) }
{
    let mut set = NodeSet::empty(alloc, room)?;
    'numbers: for number in numbers {
        if *number < room {
            set.insert(*number);
        }
    }
    Ok(set)
}

// Whether a set has a number.
fn has(set: &NodeSet, v: u32) -> bool {
    v < set.room() && set.has(v)
}

/// Tells the room of a set, how many numbers it has, and which: those that it says that it has, and
/// those that come next where it has them, so that each number comes twice.
pub fn tell_set(told: &mut Vec<u64>, set: &NodeSet) {
    tell(told, u64::from(set.room()));
    tell(told, u64::from(set.count()));
    for v in 0..1024 {
        if has(set, v) {
            tell(told, u64::from(v));
        }
        if set.next_from(v) == Some(v) {
            tell(told, u64::from(v));
        }
    }
}

// Changes a set by another one.
fn change(set: &mut NodeSet, other: &NodeSet, name: &str)
    requires { set.old.room ≡ other.now.room }
{
    match name {
        "absorb" => set.absorb(other),
        "assign" => set.assign(other),
        "keep" => set.keep(other),
        "remove" => set.remove(other),
        "clear" => set.clear(),
        _ => {}
    }
}

// Tells whether two sets meet, either way.
fn tell_meet(told: &mut Vec<u64>, set: &NodeSet, other: &NodeSet) {
    if set.room() == other.room() {
        tell(told, u64::from(set.meets(other)));
        tell(told, u64::from(other.meets(set)));
    }
}

// Changes a set by another one. Tells whether they met before, both sets, and whether they meet.
fn tell_change(told: &mut Vec<u64>, set: &mut NodeSet, other: &NodeSet, name: &str)
    requires { set.old.room ≡ other.now.room }
{
    tell_meet(told, set, other);
    change(set, other, name);
    tell_set(told, set);
    tell_set(told, other);
    tell_meet(told, set, other);
}

// Tells the next number from this one on, or a change by the set of these numbers.
fn tell_row(
    rt: &impl Abort,
    alloc: Global,
    set: &mut NodeSet,
    name: &str,
    numbers: [u32; 5],
    told: &mut Vec<u64>,
) {
    if name == "next" {
        return tell_node(told, set.next_from(numbers[0]));
    }
    let room = within(rt, set.room(), 0, 1024);
    if let Ok(other) = set_of(alloc, room, &numbers) {
        tell_change(told, set, &other, name);
    }
}

fn play_row(rt: &impl Abort, alloc: Global, set: &mut NodeSet, head: &str, row: &str) {
    let (name, numbers) = question_of(row);
    let mut told = Vec::new(alloc);
    tell_row(rt, alloc, set, name, numbers, &mut told);
    check(rt, alloc, head, row, &told);
}

fn play_rows(rt: &impl Abort, alloc: Global, set: &mut NodeSet, head: &str, rows: &str) {
    for row in rows.split_terminator('|') {
        play_row(rt, alloc, set, head, row);
    }
}

/// Plays the changes of a set: its room, and the numbers that it has before them.
pub fn play_set(rt: &impl Abort, alloc: Global, head: &str, rows: &str) {
    let numbers = five_numbers(head);
    let room = within(rt, numbers[0], 0, 1024);
    let mut set = set_of(alloc, room, &numbers).expect(rt, "memory");
    play_rows(rt, alloc, &mut set, head, rows);
}

// Each row is a change, whether the two sets met before, the room, the count and the numbers of
// either, which come twice, and whether the sets meet then. A look changes nothing.
#[test]
fn sets_on_both_sides_of_a_word(rt: HostRuntime) -> Result<(), Fail> {
    let subjects = "set 130:look = 0 0  130 0  130 0  0 0|;\
        set 130 63 64 129 64:look = 0 0  130 3 63 63 64 64 129 129  130 0  0 0|;\
        set 1024 0:absorb 1023 = 0 0  1024 2 0 0 1023 1023  1024 1 1023 1023  1 1|;\
        set 0:absorb = 0 0  0 0  0 0  0 0|;\
        set 130 2:\
        assign 0 63 64 129 = 0 0  130 4 0 0 63 63 64 64 129 129 \
        130 4 0 0 63 63 64 64 129 129  1 1|\
        keep 1 63 129 = 1 1  130 2 63 63 129 129  130 3 1 1 63 63 129 129  1 1|;\
        set 130 0 63 64 129:\
        remove 1 63 129 = 1 1  130 2 0 0 64 64  130 3 1 1 63 63 129 129  0 0|\
        clear 0 = 1 1  130 0  130 1 0 0  0 0|;\
        set 300 0 63 64 290:\
        next 0 = 0|next 1 = 63|next 64 = 64|next 65 = 290|next 290 = 290|next 291 = none|\
        next 4294967295 = none|;";
    ask(&rt, rt.alloc(), subjects)
}

// Words of which the last one below a count is another than those before it, and those behind it
// are 1.
fn last_of(count: usize, last: u64) -> [u64; 17]
    requires { count ≤ 16 }
{
    let mut words = [0; 17];
    for place in count..17 {
        words[place] = 1;
    }
    if count > 0 {
        words[count - 1] = last;
    }
    words
}

// Whether lanes of so many words meet where the last word does, and where none does.
fn lanes_met(count: usize) -> [u64; 2]
    requires { count ≤ 16 }
{
    let (last, zeros) = (last_of(count, 1), last_of(count, 0));
    [
        u64::from(lanes_meet(&last[..count], &last[..count])),
        u64::from(lanes_meet(&last[..count], &zeros[..count])),
    ]
}

// What lanes of so many words have absorbed, and the words behind them.
fn lanes_absorbed(count: usize) -> [u64; 17]
    requires { count ≤ 16 }
{
    let mut both = last_of(count, 2);
    lanes_absorb(&mut both[..count], &last_of(count, 1)[..count]);
    both
}

#[test]
fn lanes_of_every_length(rt: HostRuntime) {
    for count in 0..17 {
        same(
            &rt,
            "lanes",
            "meet",
            &lanes_met(count),
            &[u64::from(count > 0), 0],
        );
        same(
            &rt,
            "lanes",
            "absorb",
            &lanes_absorbed(count),
            &last_of(count, 3),
        );
    }
}

// The numbers go 0, 1, .., 6, and again from 0.
fn sevens() -> [u32; 1024] {
    let mut numbers = [0; 1024];
    for place in 0..1024 {
        numbers[place] = place as u32 % 7;
    }
    numbers
}

// Three of seven numbers are at most 2. Tells what the set of their places below a length is.
fn tell_low(told: &mut Vec<u64>, length: u64) {
    tell(told, length);
    tell(told, length / 7 * 3 + (length % 7).min(3));
    for place in 0..length {
        if place % 7 <= 2 {
            tell(told, place);
            tell(told, place);
        }
    }
}

fn are_low(rt: &impl Abort, alloc: Global, numbers: &[u32])
    requires { length numbers.now ≤ 1024 }
{
    let set = NodeSet::within(alloc, numbers, 2).expect(rt, "memory");
    let mut told = Vec::new(alloc);
    tell_set(&mut told, &set);
    let mut wanted = Vec::new(alloc);
    tell_low(&mut wanted, numbers.len() as u64);
    same(rt, "places", "within a limit", &told, &wanted);
}

#[test]
fn places_within_a_limit(rt: HostRuntime) {
    for length in [0, 1, 63, 64, 65, 130, 1024] {
        are_low(&rt, rt.alloc(), &sevens()[..length]);
    }
}

// Bytes past two words of which the first, one and the last are low.
#[test]
fn bytes_within_a_limit_past_two_words(rt: HostRuntime) {
    let mut bytes = [9; 130];
    bytes[0] = 3;
    bytes[64] = 4;
    bytes[129] = 0;
    let mut set = set_of(rt.alloc(), 130, &[1]).expect(&rt, "memory");
    set.fill_within(&bytes, 3);
    let mut told = Vec::new(rt.alloc());
    tell_set(&mut told, &set);
    check(
        &rt,
        rt.alloc(),
        "bytes",
        "within 3 = 130 2 0 0 129 129",
        &told,
    );
}
