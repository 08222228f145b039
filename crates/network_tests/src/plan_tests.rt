//! Plans of paths: of the line 0 - 1 - 2 - 3 of unit weights, of one and two nodes, and past a word
//! and up to the most nodes.
ghost use Rattle.std.specs.Prelude.{◌≤◌};
ghost use Rattle.distances.specs.Table.{AreDistancesOf};

use crate::rows::{Asked, WORD, ask_made, five_numbers, tell, tell_all, tell_unknown, within};
use crate::subjects::{ask, ask_path};
use distances::Distances;
use net_graph::Graph;
use region_plan::Plan;
use std::alloc::{AllocError, Global};
use std::process::Abort;
use std::test::Fail;

// Nodes, k, levels, degree, stretch and the most writes.
fn tell_whole(plan: &Plan, told: &mut Vec<u64>) {
    tell(told, u64::from(plan.nodes()));
    tell(told, u64::from(plan.k()));
    tell(told, u64::from(plan.levels()));
    tell(told, u64::from(plan.degree()));
    tell(told, plan.stretch());
    tell(told, plan.most_writes());
}

// For each level 1 where it is known to repeat the one below, else 0.
fn tell_repeats(plan: &Plan, told: &mut Vec<u64>) {
    for i in 0..plan.levels() {
        tell(told, u64::from(plan.repeats(i)));
    }
}

// The exponent, the threshold, the phases and the clusters of a level.
fn tell_level(plan: &Plan, i: u32, told: &mut Vec<u64>) {
    if i >= plan.levels() {
        return tell(told, WORD);
    }
    tell(told, u64::from(plan.exponent(i)));
    tell(told, plan.threshold(i));
    tell(told, u64::from(plan.phases(i)));
    tell(told, u64::from(plan.clusters(i)));
}

// The home of a node at a level.
fn tell_home(plan: &Plan, i: u32, v: u32, told: &mut Vec<u64>) {
    if i < plan.levels() && v < plan.nodes() {
        tell(told, u64::from(plan.home(i, v)));
    }
}

// The homes of all nodes at a level.
fn tell_homes(plan: &Plan, i: u32, told: &mut Vec<u64>) {
    for v in 0..plan.nodes() {
        tell_home(plan, i, v, told);
    }
}

// The phase, the leader and the depth of a cluster.
fn tell_cluster(plan: &Plan, i: u32, c: u32, told: &mut Vec<u64>) {
    if i < plan.levels() && c < plan.clusters(i) {
        tell(told, u64::from(plan.phase_of(i, c)));
        tell(told, u64::from(plan.leader(i, c)));
        tell(told, plan.depth(i, c));
    }
}

// The members of a cluster.
fn tell_members(plan: &Plan, i: u32, c: u32, told: &mut Vec<u64>) {
    if i < plan.levels() && c < plan.clusters(i) {
        tell_all(told, plan.members(i, c));
    }
}

// The weight of each member of a cluster.
fn tell_weights(plan: &Plan, i: u32, c: u32, told: &mut Vec<u64>) {
    if i < plan.levels() && c < plan.clusters(i) {
        for v in 0..plan.nodes() {
            if plan.member(i, c, v) {
                tell(told, plan.tree_weight(i, c, v));
            }
        }
    }
}

// The readers of a node at a level, and then the weights inside these.
fn tell_readers(plan: &Plan, i: u32, v: u32, told: &mut Vec<u64>) {
    if i < plan.levels() && v < plan.nodes() {
        tell_all(told, plan.readers(i, v));
        for place in 0..plan.nodes() {
            if (place as usize) < plan.readers(i, v).len() {
                tell(told, plan.reader_weight(i, v, place));
            }
        }
    }
}

// The most looks from a node.
fn tell_looks(plan: &Plan, v: u32, told: &mut Vec<u64>) {
    if v < plan.nodes() {
        tell(told, plan.most_looks(v));
    }
}

// What is asked of a cluster, or of a node.
fn tell_part(plan: &Plan, name: &str, first: u32, second: u32, told: &mut Vec<u64>) {
    match name {
        "cluster" => tell_cluster(plan, first, second, told),
        "members" => tell_members(plan, first, second, told),
        "weights" => tell_weights(plan, first, second, told),
        "readers" => tell_readers(plan, first, second, told),
        "looks" => tell_looks(plan, first, told),
        _ => tell_unknown(told),
    }
}

impl Asked for Plan {
    fn answer(&self, _alloc: Global, name: &str, numbers: [u32; 5], told: &mut Vec<u64>) {
        let [first, second, ..] = numbers;
        match name {
            "whole" => tell_whole(self, told),
            "repeats" => tell_repeats(self, told),
            "level" => tell_level(self, first, told),
            "homes" => tell_homes(self, first, told),
            "home" => tell_home(self, first, second, told),
            _ => tell_part(self, name, first, second, told),
        }
    }
}

// The plan built with a trade-off, over mean covers with one, or flat.
fn plan_over(
    alloc: Global,
    graph: &Graph,
    distances: &Distances,
    made: &str,
    k: u32,
) -> Result<Plan, AllocError>
    requires belongs { AreDistancesOf graph.now distances.now }
    requires low { 1 ≤ k }
    requires high { k ≤ 8 }
{
    match made {
        "with" => Plan::build(alloc, graph, distances, k),
        "mean" => Plan::build_mean(alloc, graph, distances, k),
        _ => Plan::flat(alloc, graph, distances),
    }
}

/// Asks a plan of a network: how it is made, and its trade-off.
pub fn ask_plan(
    rt: &impl Abort,
    alloc: Global,
    graph: &Graph,
    distances: &Distances,
    made: &str,
    k: u32,
    head: &str,
    rows: &str,
)
    requires { AreDistancesOf graph.now distances.now }
{
    let k = within(rt, k, 1, 8);
    ask_made(
        rt,
        alloc,
        plan_over(alloc, graph, distances, made, k),
        head,
        rows,
    );
}

/// The plan of two nodes has a level for each power of two below the distance between them, and one
/// whose radius reaches it.
pub fn has_levels(rt: &impl Abort, alloc: Global, graph: &Graph, distances: &Distances, apart: u32)
    requires { AreDistancesOf graph.now distances.now }
{
    let plan = Plan::build(alloc, graph, distances, 2).expect(rt, "memory");
    let below = u32::BITS - apart.saturating_sub(1).leading_zeros();
    assert!(rt;
        plan.levels() == below + 1,
        "{apart} apart: {} levels",
        plan.levels()
    );
}

#[test]
fn plans_of_a_line(rt: HostRuntime) -> Result<(), Fail> {
    let subjects = "with 4 1 2:\
        whole = 4 2 3 2 144 13|\
        level 0 = 0 1 2 2|\
        homes 0 = 0 0 0 1|\
        level 1 = 1 1 1 1|\
        homes 1 = 0 0 0 0|\
        level 2 = 2 2 1 1|\
        homes 2 = 0 0 0 0|\
        cluster 0 0 = 0 0 3|\
        members 0 0 = 0 1 2 3|\
        weights 0 0 = 0 1 2 3|\
        cluster 0 1 = 1 3 1|\
        members 0 1 = 2 3|\
        weights 0 1 = 1 0|\
        cluster 1 0 = 0 0 3|\
        weights 1 0 = 0 1 2 3|\
        cluster 2 0 = 0 0 3|\
        members 2 0 = 0 1 2 3|\
        weights 2 0 = 0 1 2 3|\
        readers 0 1 = 0 1|\
        readers 0 2 = 0 1 2 1|\
        readers 0 3 = 0 1 3 0|\
        readers 2 2 = 0 2|\
        looks 2 = 12|\
        looks 0 = 11|\
        repeats = 0 0 0|;\
        flat 4 1 1:\
        whole = 4 1 1 1 40 9|\
        level 0 = 2 1 1 1|\
        homes 0 = 0 0 0 0|\
        cluster 0 0 = 0 0 3|\
        weights 0 0 = 0 1 2 3|\
        readers 0 3 = 0 3|\
        looks 1 = 9|;\
        mean 4 1 2:\
        whole = 4 2 3 2 232 13|\
        level 0 = 0 1 1 2|\
        homes 0 = 0 0 0 1|\
        cluster 0 0 = 0 0 3|\
        members 0 0 = 0 1 2 3|\
        weights 0 0 = 0 1 2 3|\
        cluster 0 1 = 0 3 1|\
        members 0 1 = 2 3|\
        weights 0 1 = 1 0|\
        readers 0 2 = 0 1 2 1|\
        level 2 = 2 2 1 1|\
        homes 2 = 0 0 0 0|\
        repeats = 0 0 0|;";
    ask(&rt, rt.alloc(), subjects)
}

// A level repeats the one below it where no distance lies between their radii: so do those below
// the weight of the only edge. On the line each radius takes another distance in.
#[test]
fn plans_of_one_node_and_of_two(rt: HostRuntime) -> Result<(), Fail> {
    let subjects = "with 1 1 1:\
        whole = 1 1 1 1 40 6|\
        level 0 = 0 1 1 1|\
        homes 0 = 0|\
        cluster 0 0 = 0 0 0|\
        weights 0 0 = 0|;\
        with 2 1 1:\
        whole = 2 1 1 2 56 7|\
        level 0 = 0 1 2 2|\
        homes 0 = 0 1|\
        cluster 0 0 = 0 0 1|\
        weights 0 0 = 0 1|\
        cluster 0 1 = 1 1 1|\
        weights 0 1 = 1 0|\
        readers 0 0 = 0 1 0 1|;\
        with 2 1048576 8:\
        whole = 2 8 21 1 432 47|\
        level 0 = 0 1 1 2|\
        homes 0 = 0 1|\
        level 19 = 19 262144 1 2|\
        homes 19 = 0 1|\
        cluster 19 1 = 0 1 0|\
        weights 19 1 = 0|\
        level 20 = 20 524288 1 1|\
        homes 20 = 0 0|\
        weights 20 0 = 0 1048576|\
        repeats = 0 1 1 1 1 1 1 1 1 1 1 1 1 1 1 1 1 1 1 1 0|;\
        mean 2 1048576 8:\
        repeats = 0 1 1 1 1 1 1 1 1 1 1 1 1 1 1 1 1 1 1 1 0|;";
    ask(&rt, rt.alloc(), subjects)
}

#[test]
fn all_trade_offs_past_two_words(rt: HostRuntime) -> Result<(), Fail> {
    let subjects = "with 130 1 1:whole = 130 1 9 130 2104 151|level 2 = 2 2 9 130|;\
        with 130 1 2:whole = 130 2 9 9 480 151|level 2 = 2 2 9 130|;\
        with 130 1 3:whole = 130 3 9 5 472 151|level 2 = 2 2 3 17|;\
        with 130 1 4:whole = 130 4 9 3 432 151|level 2 = 2 2 3 17|;\
        with 130 1 5:whole = 130 5 9 3 552 151|level 2 = 2 2 3 17|;\
        with 130 1 6:whole = 130 6 9 2 496 151|level 2 = 2 2 2 16|;\
        with 130 1 7:whole = 130 7 9 2 584 151|level 2 = 2 2 2 16|;\
        with 130 1 8:whole = 130 8 9 2 672 151|level 2 = 2 2 2 11|;\
        mean 130 1 1:whole = 130 1 9 2 144 151|level 2 = 2 2 1 15|;\
        mean 130 1 2:whole = 130 2 9 2 232 151|level 2 = 2 2 1 15|;\
        mean 130 1 3:whole = 130 3 9 2 320 151|level 2 = 2 2 1 15|;\
        mean 130 1 4:whole = 130 4 9 2 408 151|level 2 = 2 2 1 15|;\
        mean 130 1 5:whole = 130 5 9 2 496 151|level 2 = 2 2 1 15|;\
        mean 130 1 6:whole = 130 6 9 2 584 151|level 2 = 2 2 1 14|;\
        mean 130 1 7:whole = 130 7 9 2 672 151|level 2 = 2 2 1 14|;\
        mean 130 1 8:whole = 130 8 9 2 760 151|level 2 = 2 2 1 9|;";
    ask(&rt, rt.alloc(), subjects)
}

#[test]
fn the_heaviest_edges_and_the_most_nodes(rt: HostRuntime) -> Result<(), Fail> {
    let subjects = "with 256 1048576 2:\
        whole = 256 2 29 9 480 317|\
        level 19 = 19 262144 1 256|\
        level 23 = 23 4194304 3 17|\
        home 19 255 = 255|\
        home 22 255 = 115|\
        level 28 = 28 134217728 1 1|\
        cluster 28 0 = 0 0 267386880|\
        level 29 = none|;\
        mean 256 1048576 2:\
        whole = 256 2 29 2 232 317|\
        level 22 = 22 2097152 1 29|\
        home 22 255 = 28|\
        level 23 = 23 4194304 1 16|\
        home 23 255 = 15|\
        level 28 = 28 134217728 1 1|;\
        with 1024 1 8:whole = 1024 8 11 3 912 1049|;\
        mean 1024 1 8:\
        whole = 1024 8 11 2 760 1049|\
        level 2 = 2 2 1 113|;\
        flat 1024 1 1:\
        level 0 = 10 1 1 1|\
        cluster 0 0 = 0 0 1023|;";
    ask(&rt, rt.alloc(), subjects)
}

fn shares<T: Sync>() {}

#[test]
fn threads_may_share_them(_rt: HostRuntime) {
    shares::<Plan>();
    shares::<Distances>();
}

/// Asks how many levels the plan of two nodes has, at each distance between them from the first
/// number to the second.
pub fn ask_levels(rt: &impl Abort, alloc: Global, head: &str) -> Result<(), Fail> {
    let [first, last, ..] = five_numbers(head);
    for apart in first..=last {
        ask_path(rt, alloc, "levels", [2, apart, 2, 0, 0], head, "")?;
    }
    Ok(())
}

// Plans of two nodes at each distance from 1 to 1,100, at the last 77 up to 2^20, on both sides of
// each power of two between them, where a level more is wanted, and at ten in a row at ten places
// more.
#[test]
fn a_plan_at_each_diameter(rt: HostRuntime) -> Result<(), Fail> {
    let subjects = "levels 1 1100;\
        levels 2032 2064;levels 4080 4112;levels 8176 8208;levels 16368 16400;\
        levels 32752 32784;levels 65520 65552;levels 131056 131088;levels 262128 262160;\
        levels 524272 524304;levels 1048500 1048576;\
        levels 1500 1509;levels 3000 3009;levels 5000 5009;levels 10000 10009;\
        levels 25000 25009;levels 50000 50009;levels 100000 100009;levels 200000 200009;\
        levels 300000 300009;levels 777777 777786;";
    ask(&rt, rt.alloc(), subjects)
}
