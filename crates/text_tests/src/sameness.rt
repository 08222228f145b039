//! Comparisons that tell what was found where it isn't what was wanted. In each `place` tells which
//! of a test's comparisons it is.
use std::alloc::Global;
use std::fmt::Debug;
use std::process::Abort;

/// Stops with both values where they differ.
pub fn same<T: PartialEq + Debug + Drop>(rt: &impl Abort, place: usize, found: T, wanted: T) {
    assert!(rt; found == wanted, "at {place}: {found:?}, not {wanted:?}");
}

/// Stops with both lists where they differ.
pub fn same_numbers(rt: &impl Abort, place: usize, found: &[u64], wanted: &[u64]) {
    same(rt, place, found, wanted);
}

/// Stops with both texts where they differ.
pub fn same_text(rt: &impl Abort, place: usize, found: &[u8], wanted: &[u8]) {
    same(rt, place, found, wanted);
}

// Whether a text begins and ends as is wanted, where a `*` stands between.
fn is_around(found: &[u8], wanted: &str) -> bool {
    match wanted.split_once('*') {
        Some((first, last)) => {
            found.starts_with(first.as_bytes()) && found.ends_with(last.as_bytes())
        }
        None => false,
    }
}

/// Stops with both texts where they differ, and a text doesn't begin and end as is wanted either
/// where a `*` stands between.
pub fn is_like(rt: &impl Abort, place: usize, found: &[u8], wanted: &str) {
    if !is_around(found, wanted) {
        same_text(rt, place, found, wanted.as_bytes());
    }
}

/// What `{:?}` shows of a value.
pub fn shown<T: Debug>(rt: &impl Abort, alloc: Global, value: &T) -> String {
    format!(in alloc; "{value:?}").expect(rt, "memory")
}

/// Stops where the value that was found isn't shown by `{:?}` as is wanted.
pub fn same_shown<T: Debug>(rt: &impl Abort, alloc: Global, place: usize, found: &T, wanted: &str) {
    same(rt, place, shown(rt, alloc, found).as_str(), wanted);
}
