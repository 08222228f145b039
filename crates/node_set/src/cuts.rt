//! Lists of words side by side: the bits of one that are set in another, or aren't.

ghost use Rattle.std.specs.Prelude.{◌≡◌, length};
ghost use Rattle.node_set.specs.Lanes.{AreWordsKept, AreWordsRemoved};

// Leaves at each place of `a` the bits that are set in both lists, which have one length.
pub(crate) fn words_keep(a: &mut [u64], b: &[u64])
    requires { length a.old ≡ length b.now }
    ensures { AreWordsKept a.old b.now a.new }
{
    for i in 0..a.len() {
        a[i] &= b[i];
    }
}

// Leaves at each place of `a` the bits that aren't set in `b`, which has the same length.
pub(crate) fn words_remove(a: &mut [u64], b: &[u64])
    requires { length a.old ≡ length b.now }
    ensures { AreWordsRemoved a.old b.now a.new }
{
    for i in 0..a.len() {
        a[i] &= !b[i];
    }
}
