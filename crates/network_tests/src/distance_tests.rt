//! Distances on paths, and where all nodes are neighbours.
use crate::rows::{Asked, ask_made, ask_rows, five_numbers, tell, tell_all, tell_unknown, within};
use crate::set_tests::tell_set;
use crate::subjects::ask;
use distances::Distances;
use net_graph::MAX_NODES;
use std::alloc::Global;
use std::process::Abort;
use std::test::Fail;
use test_networks::complete;

// The distance between two nodes, both ways.
fn tell_between(distances: &Distances, u: u32, v: u32, told: &mut Vec<u64>) {
    if u < distances.nodes() && v < distances.nodes() {
        tell(told, distances.between(u, v));
        tell(told, distances.between(v, u));
    }
}

fn tell_row(distances: &Distances, u: u32, told: &mut Vec<u64>) {
    if u < distances.nodes() {
        tell_all(told, distances.row(u));
    }
}

// The set of the nodes about a node.
fn tell_ball(alloc: Global, distances: &Distances, v: u32, radius: u32, told: &mut Vec<u64>) {
    if v < distances.nodes() {
        if let Ok(ball) = distances.ball(alloc, v, u64::from(radius)) {
            tell_set(told, &ball);
        }
    }
}

impl Asked for Distances {
    fn answer(&self, alloc: Global, name: &str, numbers: [u32; 5], told: &mut Vec<u64>) {
        let [first, second, ..] = numbers;
        match name {
            "nodes" => tell(told, u64::from(self.nodes())),
            "diameter" => tell(told, self.diameter()),
            "between" => tell_between(self, first, second, told),
            "row" => tell_row(self, first, told),
            "ball" => tell_ball(alloc, self, first, second, told),
            _ => tell_unknown(told),
        }
    }
}

/// Asks distances, and a copy of them.
pub fn ask_twice(rt: &impl Abort, alloc: Global, distances: &Distances, head: &str, rows: &str) {
    ask_rows(rt, alloc, distances, head, rows);
    ask_made(rt, alloc, distances.copy(), head, rows);
}

/// Asks the distances where so many nodes are all neighbours.
pub fn ask_complete(rt: &impl Abort, alloc: Global, head: &str, rows: &str) -> Result<(), Fail> {
    let n = within(rt, five_numbers(head)[0], 1, MAX_NODES);
    let graph = complete(alloc, n)?;
    ask_made(rt, alloc, Distances::new(alloc, &graph), head, rows);
    Ok(())
}

// Where all are neighbours whole rows are lowered, sixteen weights at once and one by one.
#[test]
fn distances_of_networks(rt: HostRuntime) -> Result<(), Fail> {
    let subjects = "path 4 1:\
        nodes = 4|\
        diameter = 3|\
        between 0 3 = 3 3|\
        between 2 1 = 1 1|\
        between 1 1 = 0 0|\
        row 2 = 2 1 0 1|\
        ball 1 1 = 4 3 0 0 1 1 2 2|;\
        complete 37:\
        nodes = 37|\
        diameter = 10|\
        between 3 9 = 6 6|\
        between 36 0 = 10 10|\
        between 36 26 = 10 10|;\
        path 1024 1048576:\
        nodes = 1024|\
        diameter = 1072693248|\
        between 1023 1 = 1071644672 1071644672|;\
        path 130 5:\
        ball 128 10 = 130 4 126 126 127 127 128 128 129 129|;";
    ask(&rt, rt.alloc(), subjects)
}
