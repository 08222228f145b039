//! The lines of all actors, one list behind the other.
ghost use Rattle.std.specs.Prelude.{◌≡◌, ◌++◌, ◌+◌, ◌≤◌, flat_map, length, vec_capacity};

use crate::caller::Caller;
use crate::subscriber::Subscriber;
use directory::Done;

// The lines of a list behind others.
fn push_lines(calls: &mut Vec<Done>, lines: &[Done])
    requires room { length calls.old.items + length lines.now ≤ vec_capacity calls.old }
    ensures items { calls.new.items ≡ calls.old.items ++ lines.now }
    ensures capacity { vec_capacity calls.old ≤ vec_capacity calls.new }
{
    if calls.extend_from_slice(lines).is_err() {
        unreachable!()
    }
}

// The lines of all subscribers behind others.
pub fn push_steps(calls: &mut Vec<Done>, subscribers: &[Subscriber])
    requires room { length calls.old.items + length
        (flat_map (λ one. one.lines.items) subscribers.now)
        ≤ vec_capacity calls.old }
    ensures items { calls.new.items
        ≡ calls.old.items ++ flat_map (λ one. one.lines.items) subscribers.now }
    ensures capacity { vec_capacity calls.old ≤ vec_capacity calls.new }
{
    'subscribers: for subscriber in subscribers {
        push_lines(calls, &subscriber.lines);
    }
}

// The lines of all callers behind others.
pub fn push_finds(calls: &mut Vec<Done>, callers: &[Caller])
    requires room { length calls.old.items + length (flat_map (λ one. one.lines.items) callers.now)
        ≤ vec_capacity calls.old }
    ensures items { calls.new.items
        ≡ calls.old.items ++ flat_map (λ one. one.lines.items) callers.now }
    ensures capacity { vec_capacity calls.old ≤ vec_capacity calls.new }
{
    'callers: for caller in callers {
        push_lines(calls, &caller.lines);
    }
}
