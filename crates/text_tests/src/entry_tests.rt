//! The table of words, both ways, and words of no kind.
use crate::sameness::same;
use entry_word::{Address, PresenceMark, pack_address, pack_mark, unpack_address, unpack_mark};
use std::process::Abort;

// A mark and its word, both ways.
fn mark_is(rt: &impl Abort, place: usize, mark: PresenceMark, word: u64) {
    same(rt, place, pack_mark(mark), word);
    same(rt, place, unpack_mark(word), Some(mark));
}

#[test]
fn the_table_of_marks(rt: HostRuntime) {
    mark_is(&rt, 0, PresenceMark::Empty, 0);
    mark_is(
        &rt,
        1,
        PresenceMark::Here { number: 0 },
        0x0001_0000_0000_0000,
    );
    mark_is(
        &rt,
        2,
        PresenceMark::Gone { number: 1, to: 2 },
        0x0002_0000_0001_0002,
    );
    mark_is(
        &rt,
        3,
        PresenceMark::Coming { number: 1, from: 3 },
        0x0003_0000_0001_0003,
    );
    mark_is(
        &rt,
        4,
        PresenceMark::Off { number: 0 },
        0x0004_0000_0000_0000,
    );
}

// An entry and its word, both ways.
fn address_is(rt: &impl Abort, place: usize, address: Option<Address>, word: u64) {
    same(rt, place, pack_address(address), word);
    same(rt, place, unpack_address(word), Some(address));
}

#[test]
fn the_table_of_entries(rt: HostRuntime) {
    address_is(&rt, 0, None, 0);
    address_is(
        &rt,
        1,
        Some(Address { number: 1, node: 2 }),
        0x0001_0000_0001_0002,
    );
}

#[test]
fn words_of_no_mark(rt: HostRuntime) {
    let words = [
        1,
        0x0000_0000_0001_0000,
        0x0001_0000_0000_0001,
        0x0004_0000_0000_0001,
        0x0005_0000_0000_0000,
        u64::MAX,
    ];
    for place in 0..words.len() {
        same(&rt, place, unpack_mark(words[place]), None);
    }
}

#[test]
fn words_of_no_address(rt: HostRuntime) {
    let words = [
        1,
        0x0000_0000_0001_0000,
        0x0002_0000_0001_0002,
        0x0003_0000_0001_0003,
    ];
    for place in 0..words.len() {
        same(&rt, place, unpack_address(words[place]), None);
    }
}
