//! All distances by elimination: the nodes are left out one after another, and taken back in the
//! opposite order.

ghost use Rattle.std.specs.Prelude.{◌≡◌, [], ◌+◌, ◌*◌, ◌<◌, ◌≤◌, ◌⊎◌, All, IfOk, OnOk, IfSome, length, replicate, true};
ghost use Rattle.net_graph.specs.declared.edge.TheConstants.{MAX_NODES};
ghost use Rattle.distances.specs.Remaining.{IsLeftBelow};
ghost use Rattle.distances.specs.NodesLeftOut.{AreAllLeftOut, IsEliminated, IsFilled, IsLeftOutWithin, IsTakenBack};
ghost use Rattle.distances.specs.Lowering.{IsNodeWritten};

use crate::near_nodes::{Near, fold_rows, lower_pairs, near_of};
use crate::weights::FAR;
use std::alloc::{AllocError, Global};

/// A node that was left out, and the nodes near it then.
#[derive(Drop)]
pub(crate) struct LeftOut {
    pub(crate) node: usize,
    pub(crate) near: Vec<Near>,
}

// The node of lesser degree, of a node and one that may be there.
fn lesser(best: Option<usize>, node: usize, degrees: &[usize]) -> usize
    requires node { node < length degrees.now }
    requires best { IfSome best (λ other. other < length degrees.now) }
    ensures { (result ≡ node) ⊎ (best ≡ Some result) }
{
    match best {
        Some(other) if degrees[other] <= degrees[node] => other,
        _ => node,
    }
}

// A node of least degree among those that are left. It is apart from what leaves nodes out, so that
// its loop stays short.
#[inline(never)]
fn least_left(left: &[bool], degrees: &[usize]) -> Option<usize>
    requires { length left.now ≡ length degrees.now }
    ensures { IsLeftBelow (length left.now) left.now result }
{
    let mut best = None;
    for (node, is_left) in left.iter().enumerate() {
        if *is_left {
            if degrees[node] <= 1 {
                return Some(node);
            }
            best = Some(lesser(best, node, degrees));
        }
    }
    best
}

// Leaves out the nodes that are left, one of least degree after another.
fn leave_out_each(
    alloc: Global,
    table: &mut [u32],
    n: usize,
    width: usize,
    degrees: &mut [usize],
    left: &mut [bool],
    mine: &mut [u32],
) -> Result<Vec<LeftOut>, AllocError>
    requires few { n ≤ MAX_NODES }
    requires wide { n ≤ width }
    requires narrow { width ≤ 2048 }
    requires count { length table.old ≡ n * width }
    requires degrees { length degrees.old ≡ n }
    requires light { All (λ w. w ≤ FAR) table.old }
    requires left { left.old ≡ replicate n true }
    requires mine { length mine.old ≡ n }
    ensures left_out { IfOk result (λ left_out. AreAllLeftOut n width table.old left_out.items) }
    ensures light { OnOk result (All (λ w. w ≤ FAR) table.new) }
{
    let mut left_out = Vec::with_capacity(alloc, n)?;
    while let Some(node) = least_left(left, degrees) {
        left[node] = false;
        let near = near_of(alloc, &table[node * width..node * width + n], left)?;
        let counts = left_out.len().wrapping_add(near.len()).wrapping_add(1) < n;
        lower_pairs(table, n, width, &near, degrees, mine, counts);
        left_out.push(LeftOut { node, near })?;
    }
    Ok(left_out)
}

// Leaves out all nodes.
fn leave_out_all(
    alloc: Global,
    table: &mut [u32],
    n: usize,
    width: usize,
    degrees: &mut [usize],
) -> Result<Vec<LeftOut>, AllocError>
    requires few { n ≤ MAX_NODES }
    requires wide { n ≤ width }
    requires narrow { width ≤ 2048 }
    requires count { length table.old ≡ n * width }
    requires degrees { length degrees.old ≡ n }
    requires light { All (λ w. w ≤ FAR) table.old }
    ensures left_out { IfOk result (λ left_out. AreAllLeftOut n width table.old left_out.items) }
    ensures light { OnOk result (All (λ w. w ≤ FAR) table.new) }
{
    let mut left = vec![in alloc; true; n]?;
    let mut mine = vec![in alloc; FAR; n]?;
    leave_out_each(alloc, table, n, width, degrees, &mut left, &mut mine)
}

// Writes row v, and column v at the nodes that are back. At the others a column isn't read before
// their own rows are written, and each of its cells lies in a line of the cache of its own.
fn write_node(table: &mut [u32], n: usize, width: usize, v: usize, mine: &[u32], back: &[usize])
    requires few { n ≤ MAX_NODES }
    requires wide { n ≤ width }
    requires narrow { width ≤ 2048 }
    requires count { length table.old ≡ n * width }
    requires below { v < n }
    requires row { length mine.now ≡ n }
    requires back { All (λ x. x < n) back.now }
    ensures { IsNodeWritten n width v back.now mine.now table.old table.new }
{
    table[v * width..v * width + n].copy_from_slice(mine);
    for x in back {
        table[*x * width + v] = mine[*x];
    }
}

// Takes back a node that was left out, over the nodes that were near it then.
fn take_back(
    table: &mut [u32],
    n: usize,
    width: usize,
    one: &LeftOut,
    back: &[usize],
    mine: &mut [u32],
)
    requires few { n ≤ MAX_NODES }
    requires wide { n ≤ width }
    requires narrow { width ≤ 2048 }
    requires count { length table.old ≡ n * width }
    requires light { All (λ w. w ≤ FAR) table.old }
    requires one { IsLeftOutWithin n one.now }
    requires back { All (λ x. x < n) back.now }
    requires mine { length mine.old ≡ n }
    ensures { IsTakenBack n width one.now back.now mine.new table.old table.new }
{
    fold_rows(mine, table, n, width, &one.near);
    mine[one.node] = 0;
    write_node(table, n, width, one.node, mine, back);
}

// Takes back the nodes that were left out, the last one first.
fn take_back_each(
    table: &mut [u32],
    n: usize,
    width: usize,
    mut left_out: Vec<LeftOut>,
    back: &mut Vec<usize>,
    mine: &mut [u32],
) -> Result<(), AllocError>
    requires few { n ≤ MAX_NODES }
    requires wide { n ≤ width }
    requires narrow { width ≤ 2048 }
    requires count { length table.old ≡ n * width }
    requires light { All (λ w. w ≤ FAR) table.old }
    requires left_out { All (IsLeftOutWithin n) left_out.items }
    requires back { back.old.items ≡ [] }
    requires mine { length mine.old ≡ n }
    ensures { OnOk result (IsFilled n width left_out.items table.new) }
{
    while let Some(last) = left_out.pop() {
        take_back(table, n, width, &last, back, mine);
        back.push(last.node)?;
    }
    Ok(())
}

// Takes back all nodes.
fn take_back_all(
    alloc: Global,
    table: &mut [u32],
    n: usize,
    width: usize,
    left_out: Vec<LeftOut>,
) -> Result<(), AllocError>
    requires few { n ≤ MAX_NODES }
    requires wide { n ≤ width }
    requires narrow { width ≤ 2048 }
    requires count { length table.old ≡ n * width }
    requires light { All (λ w. w ≤ FAR) table.old }
    requires left_out { All (IsLeftOutWithin n) left_out.items }
    ensures { OnOk result (IsFilled n width left_out.items table.new) }
{
    let mut mine = vec![in alloc; FAR; n]?;
    let mut back = Vec::with_capacity(alloc, n)?;
    take_back_each(table, n, width, left_out, &mut back, &mut mine)
}

// Leaves out all nodes of a first table, and takes them back.
pub(crate) fn eliminate(
    alloc: Global,
    table: &mut [u32],
    n: usize,
    width: usize,
    degrees: &mut [usize],
) -> Result<(), AllocError>
    requires few { n ≤ MAX_NODES }
    requires wide { n ≤ width }
    requires narrow { width ≤ 2048 }
    requires count { length table.old ≡ n * width }
    requires degrees { length degrees.old ≡ n }
    requires light { All (λ w. w ≤ FAR) table.old }
    ensures { OnOk result (IsEliminated n width table.old table.new) }
{
    let left_out = leave_out_all(alloc, table, n, width, degrees)?;
    take_back_all(alloc, table, n, width, left_out)
}
