//! The lines of a list of actors, 64 on each.
ghost use Rattle.std.specs.Prelude.{◌≡◌, ◌⊎◌, ◌<◌, ◌≤◌, ◌∷◌, [], length};
ghost use Rattle.text_line.specs.OrderLines.{order_line, order_lines};

use crate::line::Line;

const MOST_ON_A_LINE: usize = 64;

// The line of these actors, which are at most 64.
fn write_order(line: &mut Line, actors: &[u32])
    requires empty { line.old ≡ [] }
    requires few { length actors.now ≤ 64 }
    ensures { line.new ≡ order_line actors.now }
{
    line.word("order");
    line.actors(actors);
    line.word("\n");
}

// How many actors the next line has, where so many are left.
fn count_on_line(left: usize) -> usize
    ensures few { result ≤ 64 }
    ensures within { result ≤ left }
    ensures most { (result ≡ 64) ⊎ (result ≡ left) }
{
    left.min(MOST_ON_A_LINE)
}

/// Writes the next line of these actors, of whom there are some, and gives those behind it.
pub fn write_next_order<'a>(line: &mut Line, actors: &'a [u32]) -> &'a [u32]
    requires empty { line.old ≡ [] }
    requires some { 0 < length actors.now }
    ensures line { order_lines actors.now ≡ line.new ∷ order_lines result.now }
    ensures shorter { length result.now < length actors.now }
{
    let (now, later) = actors.split_at(count_on_line(actors.len()));
    write_order(line, now);
    later
}
