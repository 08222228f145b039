//! The texts of small loads whole, and of large ones by their length and their sum.
use crate::loads::load_text_of;
use crate::playing::{Table, play};
use crate::sameness::{is_like, same_numbers};
use std::alloc::Global;
use std::process::Abort;
use std::test::Fail;

/// A load is to make this text.
pub fn makes(rt: &impl Abort, alloc: Global, place: usize, words: &str, wanted: &str) {
    is_like(rt, place, &load_text_of(rt, alloc, words), wanted);
}

// Each row is a load, and the text that it is to make.
#[test]
fn small_loads(rt: HostRuntime) -> Result<(), Fail> {
    let rows = "make 42 2 2 1 0 1>\
        track 1\nnodes 2\nk 2\nedge 0 1 8\nedge 1 0 4\nsub 1\ncallers 0\nmove 0 0\n\
        order 0 0 0 0 0 0 0 0\n|\
        make 0 1 1 1 0 0>\
        track 1\nnodes 1\nk 1\nsub 0\ncallers 0\n|\
        make 7 1 1 1 1 2>\
        track 1\nnodes 1\nk 1\nsub 0\ncallers 1\nfind 1 0 0\nfind 1 0 0\n\
        order 1 1 1 0 0 0 0 0 1 1 0 0 1 1 0 0\n|\
        make 1 5 2 2 0 3>\
        track 1\nnodes 5\nk 2\nedge 0 1 10\nedge 0 2 9\nedge 1 3 16\nedge 1 4 5\n\
        edge 2 2 1\nedge 2 1 10\nsub 3\nsub 0\ncallers 0\nmove 0 4\nmove 0 2\nmove 1 3\n\
        order 1 0 1 1 0 1 0 0 1 1 1 1 0 1 1 0 1 1 0 1 1 0 1 0\n|\
        make 3 4 3 2 2 9>\
        track 1\nnodes 4\nk 3\nedge 0 1 6\nedge 0 2 1\nedge 1 3 7\nedge 3 0 7\n\
        edge 0 0 11\nsub 1\nsub 2\ncallers 2\nmove 1 1\nfind 3 2 1\nmove 1 3\nfind 2 1 1\n\
        move 0 2\nfind 2 2 0\nmove 0 0\nfind 3 0 0\nmove 1 0\n\
        order 2 2 2 1 3 3 3 3 1 1 2 0 2 2 0 2 1 3 1 2 2 3 2 0 3 2 0 2 1 3 2 0 3 0 2 3 2 2 0 3 \
        1 1 1 3 3 1 0 1 2 0 1 1 1 2 0 2 1 1 2 1 1 3 0 1\norder 1 2 1 0 2 2 1 0\n|";
    play(&rt, rt.alloc(), Table::Made, rows)
}

// The 64-bit sum of Fowler, Noll and Vo over bytes, each put in before the multiplication.
fn sum_of(bytes: &[u8]) -> u64 {
    let mut sum = 0xcbf2_9ce4_8422_2325u64;
    for byte in bytes {
        sum = (sum ^ u64::from(*byte)).wrapping_mul(0x100_0000_01b3);
    }
    sum
}

// The text of a load has this length and this sum.
fn is_large(rt: &impl Abort, alloc: Global, words: &str, long: u64, sum: u64) {
    let text = load_text_of(rt, alloc, words);
    same_numbers(rt, 0, &[text.len() as u64, sum_of(&text)], &[long, sum]);
}

// Lengths and sums are those of scripts/made.py.
#[test]
fn large_loads(rt: HostRuntime) {
    let alloc = rt.alloc();
    is_large(
        &rt,
        alloc,
        "make 42 256 4 64 64 8192",
        325_492,
        0xd3c9_0ee3_0ddb_809a,
    );
    is_large(
        &rt,
        alloc,
        "make 7 1024 3 64 64 16384",
        668_496,
        0x8a4f_01eb_7d25_ab8c,
    );
    let heavy = "make 999999999999999999 256 8 64 64 8193";
    is_large(&rt, alloc, heavy, 325_689, 0x1324_b5dd_9ea5_16b0);
    is_large(
        &rt,
        alloc,
        "make 5 257 2 1 0 1",
        5_528,
        0x981d_8404_9308_4dfd,
    );
    is_large(
        &rt,
        alloc,
        "make 6 256 1 1 64 8192",
        296_328,
        0x0dc9_ad78_bffc_aa93,
    );
}
