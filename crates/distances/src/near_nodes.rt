//! The nodes near one that is left out or taken back, and what they lower.

ghost use Rattle.std.specs.Prelude.{◌≡◌, ◌+◌, ◌*◌, ◌<◌, ◌≤◌, All, IfOk, length, replicate, true};
ghost use Rattle.net_graph.specs.declared.edge.TheConstants.{MAX_NODES};
ghost use Rattle.net_graph.specs.Walks.{among};
ghost use Rattle.distances.specs.Lowering.{Among, AreNearBelow, IsLowered, IsWithin, OwnOffer, PairOffer, RowOffer};

use crate::weights::{FAR, lower, lower_span};
use std::alloc::{AllocError, Global};

/// A node that is left, and the weight to it.
#[derive(Clone, Copy)]
pub(crate) struct Near {
    pub(crate) node: u32,
    pub(crate) weight: u32,
}

// The nodes that are left and to which a row has a weight.
pub(crate) fn near_of(alloc: Global, row: &[u32], left: &[bool]) -> Result<Vec<Near>, AllocError>
    requires few { length row.now ≤ MAX_NODES }
    requires same { length row.now ≡ length left.now }
    ensures { IfOk result (λ near.
        AreNearBelow (length row.now) row.now (λ x. among left.now x ≡ true) near.items) }
{
    let mut near = Vec::new(alloc);
    for (node, is_left) in left.iter().enumerate() {
        if *is_left && row[node] < FAR {
            near.push(Near {
                node: node as u32,
                weight: row[node],
            })?;
        }
    }
    Ok(near)
}

// Lowers the cells of a near node and each other one to the sums of their weights.
fn lower_row(table: &mut [u32], n: usize, width: usize, a: Near, near: &[Near])
    requires few { n ≤ MAX_NODES }
    requires wide { n ≤ width }
    requires narrow { width ≤ 2048 }
    requires count { length table.old ≡ n * width }
    requires a { IsWithin n a }
    requires near { All (IsWithin n) near.now }
    ensures { IsLowered (Among near.now (PairOffer width a)) table.old table.new }
{
    for b in near {
        lower(
            table,
            a.node as usize * width + b.node as usize,
            a.weight + b.weight,
        );
    }
}

// Writes the weights of near nodes at their places, and FAR elsewhere.
fn spread(weights: &mut [u32], near: &[Near])
    requires { All (IsWithin (length weights.old)) near.now }
    ensures { IsLowered (Among near.now OwnOffer) (replicate (length weights.old) FAR) weights.new }
{
    weights.fill(FAR);
    for b in near {
        lower(weights, b.node as usize, b.weight);
    }
}

// Lowers the cells of a near node and each other one to the sums of their weights, the whole row at
// once.
fn lower_whole_row(table: &mut [u32], n: usize, width: usize, a: Near, near: &[Near], mine: &[u32])
    requires few { n ≤ MAX_NODES }
    requires wide { n ≤ width }
    requires narrow { width ≤ 2048 }
    requires count { length table.old ≡ n * width }
    requires a { IsWithin n a }
    requires near { All (IsWithin n) near.now }
    requires light { All (λ w. w ≤ FAR) table.old }
    requires width { length mine.now ≡ n }
    requires mine { IsLowered (Among near.now OwnOffer) (replicate n FAR) mine.now }
    ensures { IsLowered (Among near.now (PairOffer width a)) table.old table.new }
{
    lower_span(table, a.node as usize * width, mine, 0, n, a.weight);
}

// How many of the cells of a near node and each other one have no weight.
fn count_far(table: &[u32], n: usize, width: usize, a: Near, near: &[Near]) -> usize
    requires few { n ≤ MAX_NODES }
    requires wide { n ≤ width }
    requires narrow { width ≤ 2048 }
    requires count { length table.now ≡ n * width }
    requires a { IsWithin n a }
    requires near { All (IsWithin n) near.now }
{
    let mut more: usize = 0;
    for b in near {
        if table[a.node as usize * width + b.node as usize] == FAR && a.node != b.node {
            more = more.wrapping_add(1);
        }
    }
    more
}

// Lowers the cell of each two near nodes to the sum of their weights, and counts their degrees
// anew.
pub(crate) fn lower_pairs(
    table: &mut [u32],
    n: usize,
    width: usize,
    near: &[Near],
    degrees: &mut [usize],
    mine: &mut [u32],
    counts: bool,
)
    requires few { n ≤ MAX_NODES }
    requires wide { n ≤ width }
    requires narrow { width ≤ 2048 }
    requires count { length table.old ≡ n * width }
    requires near { All (IsWithin n) near.now }
    requires degrees { length degrees.old ≡ n }
    requires light { All (λ w. w ≤ FAR) table.old }
    requires width { length mine.old ≡ n }
    ensures { IsLowered (Among near.now (λ a. Among near.now (PairOffer width a))) table.old
        table.new }
{
    let by_row = 5 * near.len() > n;
    if by_row {
        spread(mine, near);
    }
    for a in near {
        let more = if counts {
            count_far(table, n, width, *a, near)
        } else {
            0
        };
        if by_row {
            lower_whole_row(table, n, width, *a, near, mine);
        } else {
            lower_row(table, n, width, *a, near);
        }
        let degree = degrees[a.node as usize];
        degrees[a.node as usize] = degree.wrapping_add(more).wrapping_sub(1);
    }
}

// Lowers weights to those through a near node.
fn lower_through(weights: &mut [u32], table: &[u32], n: usize, width: usize, near: Near)
    requires few { n ≤ MAX_NODES }
    requires wide { n ≤ width }
    requires narrow { width ≤ 2048 }
    requires count { length table.now ≡ n * width }
    requires light { All (λ w. w ≤ FAR) table.now }
    requires near { IsWithin n near }
    requires row { length weights.old ≡ n }
    ensures { IsLowered (RowOffer n width table.now near) weights.old weights.new }
{
    lower_span(
        weights,
        0,
        table,
        near.node as usize * width,
        n,
        near.weight,
    );
}

// The least weights through near nodes.
pub(crate) fn fold_rows(weights: &mut [u32], table: &[u32], n: usize, width: usize, near: &[Near])
    requires few { n ≤ MAX_NODES }
    requires wide { n ≤ width }
    requires narrow { width ≤ 2048 }
    requires count { length table.now ≡ n * width }
    requires light { All (λ w. w ≤ FAR) table.now }
    requires near { All (IsWithin n) near.now }
    requires row { length weights.old ≡ n }
    ensures { IsLowered (Among near.now (RowOffer n width table.now)) (replicate n FAR)
        weights.new }
{
    weights.fill(FAR);
    for a in near {
        lower_through(weights, table, n, width, *a);
    }
}
