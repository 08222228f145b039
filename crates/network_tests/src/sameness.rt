//! Comparisons that tell what was found where it isn't what was wanted.
use std::process::Abort;

/// Stops with both lists where they differ, and says which row of which subject it is.
pub fn same(rt: &impl Abort, subject: &str, row: &str, found: &[u64], wanted: &[u64]) {
    assert!(rt;
        found == wanted,
        "{subject}: {row}: {found:?}, not {wanted:?}"
    );
}
