//! The actors of all tickets, and the runs of an order.
ghost use Rattle.std.specs.Prelude.{◌≡◌, ◌∷◌, ◌++◌, ◌+◌, ◌-◌, ◌^◌, ◌<◌, ◌≤◌, [], drop, length, replicate, slice_index, vec_capacity};

use std::mem::replace;

// Where the run of equal numbers ends that starts at a place of an order.
pub fn run_end(order: &[u32], start: usize) -> usize
    requires inside { start < length order.now }
    ensures on { start < result }
    ensures within { result ≤ length order.now }
    ensures run { drop start order.now
        ≡ replicate (result - start) (slice_index order.now start) ++ drop result order.now }
{
    for end in start + 1..order.len() {
        if order[end] != order[start] {
            return end;
        }
    }
    order.len()
}

// Logs whose visits the next tickets are.
pub fn log_run(order: &mut Vec<u32>, actor: u32, count: usize)
    requires room { length order.old.items + count ≤ vec_capacity order.old }
    ensures items { order.new.items ≡ order.old.items ++ replicate count actor }
    ensures capacity { vec_capacity order.new ≡ vec_capacity order.old }
    ensures still { count ≡ 0 → order.new ≡ order.old }
{
    match count {
        0 => {}
        // Most runs of an order that changes the actor at each turn.
        1 => order.push_reserved(actor),
        // One by one, since `resize` may take room; and in a list of its own, whose length then
        // needn't be stored each time.
        _ => {
            let alloc = *order.allocator();
            let mut log = replace(order, Vec::new(alloc));
            for _ in 0..count {
                log.push_reserved(actor);
            }
            *order = log;
        }
    }
}

// How many of so many visits an order has room for.
pub fn room_for(order: &Vec<u32>, most: usize) -> usize
    ensures few { result ≤ most }
    ensures fits { length order.now.items + result < 2 ^ 64 }
    ensures full { result ≡ 0 → 1 ≤ most → vec_capacity order.now ≤ length order.now.items }
{
    most.min(order.capacity() - order.len())
}
