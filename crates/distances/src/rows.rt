//! Rows of a table that are wider than it has columns, and side by side again.

ghost use Rattle.std.specs.Prelude.{◌≡◌, ◌*◌, ◌≤◌, length};
ghost use Rattle.net_graph.specs.declared.edge.TheConstants.{MAX_NODES};
ghost use Rattle.distances.specs.Rows.{AreClosed};

// A table of more nodes than this gets wider rows: a smaller one lies in the caches as a whole.
const CLOSE_NODES: usize = 256;

// How wide the rows of a table of `n` nodes are while columns are written. A wide row is an odd
// number of lines of the cache, so that the cells of a column lie in different sets of it.
pub(crate) fn width_for(n: usize) -> usize
    requires { n ≤ MAX_NODES }
    ensures wide { n ≤ result }
    ensures narrow { result ≤ 2048 }
{
    if n <= CLOSE_NODES {
        n
    } else {
        n / 32 * 32 + 48
    }
}

// Moves the rows together, and leaves out what is behind them. Drawn into its caller, it would copy
// two cells at once, and not eight.
#[inline(never)]
pub(crate) fn close_rows(table: &mut Vec<u32>, n: usize, width: usize)
    requires few { n ≤ MAX_NODES }
    requires wide { n ≤ width }
    requires narrow { width ≤ 2048 }
    requires count { length table.old.items ≡ n * width }
    ensures { AreClosed n width table.old.items table.new.items }
{
    if n == width {
        return;
    }
    for u in 0..n {
        table.copy_within(u * width..u * width + n, u * n);
    }
    table.truncate(n * n);
}
