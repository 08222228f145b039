//! The comparison of what was found with what is wanted, as texts.
use std::alloc::Global;
use std::fmt::Debug;
use std::process::Abort;

/// Stops where a value isn't shown by `{:?}` as is wanted. `place` tells which of a test's
/// comparisons it is.
pub fn same_shown<T: Debug>(rt: &impl Abort, alloc: Global, place: usize, found: &T, wanted: &str) {
    let shown = format!(in alloc; "{found:?}").expect(rt, "memory");
    assert!(rt;
        shown.as_str() == wanted,
        "at {place}: {shown}, not {wanted}"
    );
}
