//! The scan of words for the next bit that is set.

ghost use Rattle.std.specs.Prelude.{◌≡◌, ◌+◌, ◌*◌, ◌/◌, ◌<◌, ◌≤◌, ℕ, IfNone, IfSome, false, length};
ghost use Rattle.node_set.specs.Ascending.{has};
ghost use Rattle.node_set.specs.Nodes.{set_bits};
ghost use Rattle.node_set.specs.Scan.{IsNext, IsNoneFrom};

// The number of the first bit that is set, from `from` on.
pub(crate) fn next_bit(words: &[u64], from: usize) -> Option<usize>
    requires { length words.now ≤ 16 }
    ensures some { IfSome result (IsNext (set_bits words.now) from) }
    ensures none { IfNone result (IsNoneFrom (set_bits words.now) from) }
{
    let first = from / 64;
    if first < words.len() {
        let rest = words[first] >> (from % 64);
        if rest != 0 {
            return Some(from + rest.trailing_zeros() as usize);
        }
    }
    next_word(words, first, from)
}

// The number of the first bit that is set, from `from` on, where none is in the word of `from`.
fn next_word(words: &[u64], first: usize, from: usize) -> Option<usize>
    requires few { length words.now ≤ 16 }
    requires first { first ≡ from / 64 }
    requires none { (x : ℕ) → from ≤ x → x < 64 * (first + 1) → has x (set_bits words.now) ≡ false }
    ensures some { IfSome result (IsNext (set_bits words.now) from) }
    ensures none { IfNone result (IsNoneFrom (set_bits words.now) from) }
{
    for i in first + 1..words.len() {
        if words[i] != 0 {
            return Some(64 * i + words[i].trailing_zeros() as usize);
        }
    }
    None
}
