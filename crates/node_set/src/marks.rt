//! Sets of balls, by their centres, and what the making of a cover does with them.

ghost use Rattle.std.specs.Prelude.{◌≡◌, ℕ, ◌≤◌, ◌<◌, ◌||◌, cond, filter, length, All, slice_index};
ghost use Rattle.std.specs.Prelude.{IfOk};
ghost use Rattle.node_set.specs.Ascending.{has, IsAscending};
ghost use Rattle.node_set.specs.Nodes.{AreNodes, Nodes};
ghost use Rattle.node_set.specs.Balls.{centres as all_centres, union_of, sets};

use crate::set::{NodeSet, set_is_sound};

/// Makes the set that of all balls.
pub fn fill_all(set: &mut NodeSet)
    ensures { set.new ≡ record { room = set.old.room; members = all_centres set.old.room } }
{
    set.clear();
    let n = set.room();
    for v in 0..n {
        set.insert(v);
    }
}

/// Gives these balls this home.
pub fn set_homes(taken: &NodeSet, number: u32, home: &mut [u32])
    requires { taken.now.room ≡ length home.old }
    ensures { (v : ℕ) → v < length home.old
        → slice_index home.new v ≡ cond (has v taken.now.members) number (slice_index home.old v) }
{
    // Numbers of balls are small.
    set_is_sound(taken);
    let mut from = 0;
    'ball: while let Some(v) = taken.next_from(from) {
        home[v as usize] = number;
        from = v + 1;
    }
}

/// Puts the nodes of the balls round these centres into the set.
pub fn absorb_balls(balls: &[NodeSet], centres: &NodeSet, nodes: &mut NodeSet)
    requires rooms { All (λ (b : Nodes). b.room ≡ nodes.old.room) balls.now }
    requires centres { centres.now.room ≡ length balls.now }
    ensures room { nodes.new.room ≡ nodes.old.room }
    ensures order { IsAscending nodes.old.members → IsAscending nodes.new.members }
    ensures members { (x : ℕ) → has x nodes.new.members
        ≡ (has x (union_of (sets balls.now) centres.now.members) || has x nodes.old.members) }
{
    set_is_sound(centres);
    let mut from = 0;
    'ball: while let Some(v) = centres.next_from(from) {
        nodes.absorb(&balls[v as usize]);
        from = v + 1;
    }
}

/// Finds the waiting balls that have one of these nodes: each row has the centres of the balls that
/// have a node.
pub fn touch(rows: &[NodeSet], waiting: &NodeSet, nodes: &NodeSet, touched: &mut NodeSet)
    requires rooms { All (λ (b : Nodes). b.room ≡ touched.old.room) rows.now }
    requires nodes { nodes.now.room ≡ length rows.now }
    requires waiting { waiting.now.room ≡ touched.old.room }
    ensures room { touched.new.room ≡ touched.old.room }
    ensures sound { AreNodes nodes.now }
    ensures waits { AreNodes waiting.now }
    ensures members { touched.new.members
        ≡ filter (λ v. has v (union_of (sets rows.now) nodes.now.members)) waiting.now.members }
{
    set_is_sound(waiting);
    set_is_sound(nodes);
    touched.clear();
    absorb_balls(rows, nodes, touched);
    touched.keep(waiting);
}
