//! A copy to the front of a buffer.
ghost use Rattle.std.specs.Prelude.{◌≡◌, ◌≤◌, ◌++◌, length, take, drop};

// Copies so many bytes from the front of one slice to the front of another, whose rest stays as it
// was.
pub(crate) fn copy_front(from: &[u8], into: &mut [u8], count: usize)
    requires from { count ≤ length from.now }
    requires into { count ≤ length into.old }
    ensures { into.new ≡ take count from.now ++ drop count into.old }
{
    into[..count].copy_from_slice(&from[..count]);
}
