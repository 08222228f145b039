//! Comparisons that tell what was found where it isn't what was wanted. In each `place` tells which
//! of a test's comparisons it is.
use std::process::Abort;

/// Stops with both numbers where they differ.
pub(crate) fn same_number(rt: &impl Abort, place: usize, found: u64, wanted: u64) {
    assert!(rt; found == wanted, "at {place}: {found}, not {wanted}");
}

/// Stops with both texts where they differ.
pub(crate) fn same_text(rt: &impl Abort, place: usize, found: &[u8], wanted: &[u8]) {
    assert!(rt; found == wanted, "at {place}: {found:?}, not {wanted:?}");
}
