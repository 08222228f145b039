//! Covers and mean covers: of the line 0 - 1 - 2 - 3 of unit weights, by its balls of radius 1; of
//! longer paths; and of balls that don't hold each other's centres.
ghost use Rattle.std.specs.Prelude.{◌≡◌, ◌<◌, ◌≤◌, IfOk, All, length, true};
ghost use Rattle.node_set.specs.Ascending.{has};
ghost use Rattle.node_set.specs.Balls.{sets, AreCentred};
ghost use Rattle.node_set.specs.Nodes.{Nodes};

use crate::rows::{Asked, ask_made, five_numbers, tell, tell_all, tell_unknown, within};
use crate::sameness::same;
use crate::set_tests::tell_set;
use crate::subjects::ask;
use coarse_cover::{Cover, coarsen};
use mean_cover::{MeanCover, coarsen_mean};
use node_set::NodeSet;
use std::alloc::{AllocError, Global};
use std::process::Abort;
use std::test::Fail;

// The nodes of a path at most `reach` away from `v`, and node 1 where `v` is one of the nodes from
// `joined` on.
fn ball_of(alloc: Global, n: u32, v: u32, reach: u32, joined: u32) -> Result<NodeSet, AllocError>
    requires small { n ≤ 1024 }
    requires below { v < n }
    ensures room { IfOk result (λ ball. ball.room ≡ n) }
    ensures centre { IfOk result (λ ball. has v ball.members ≡ true) }
{
    let mut ball = NodeSet::empty(alloc, n)?;
    for node in 0..n {
        if node.abs_diff(v) <= reach || (node == 1 && joined <= v) {
            ball.insert(node);
        }
    }
    ball.insert(v);
    Ok(ball)
}

// The balls of all nodes.
fn balls_of(alloc: Global, n: u32, reach: u32, joined: u32) -> Result<Vec<NodeSet>, AllocError>
    requires { n ≤ 1024 }
    ensures count { IfOk result (λ balls. length balls.items ≡ n) }
    ensures rooms { IfOk result (λ balls. All (λ (b : Nodes). b.room ≡ n) balls.items) }
    ensures centred { IfOk result (λ balls. AreCentred (sets balls.items)) }
{
    let mut balls = Vec::with_capacity(alloc, n as usize)?;
    for v in 0..n {
        balls.push(ball_of(alloc, n, v, reach, joined)?)?;
    }
    Ok(balls)
}

// The number of clusters, that of phases, and the home of each ball.
fn tell_homes(cover: &Cover, told: &mut Vec<u64>) {
    tell_counts(cover, told);
    tell_all(told, &cover.home);
}

// The number of clusters, and that of phases.
fn tell_counts(cover: &Cover, told: &mut Vec<u64>) {
    tell(told, cover.clusters.len() as u64);
    tell(told, u64::from(cover.phases));
}

// The leader, the phase and the nodes of a cluster.
fn tell_cluster(cover: &Cover, place: u32, told: &mut Vec<u64>) {
    if (place as usize) < cover.clusters.len() {
        let cluster = &cover.clusters[place as usize];
        tell(told, u64::from(cluster.first));
        tell(told, u64::from(cluster.phase));
        tell_set(told, &cluster.members);
    }
}

// The lowest node of a set, and how many it has.
fn tell_span(told: &mut Vec<u64>, set: &NodeSet) {
    tell(told, u64::from(set.next_from(0).unwrap_or(1024)));
    tell(told, u64::from(set.count()));
}

// The home of ball `v`; and of cluster `c` the leader, the phase, the lowest node and how many
// nodes it has.
fn tell_on_path(cover: &Cover, v: u32, c: u32, told: &mut Vec<u64>) {
    if (v as usize) < cover.home.len() && (c as usize) < cover.clusters.len() {
        let cluster = &cover.clusters[c as usize];
        tell(told, u64::from(cover.home[v as usize]));
        tell(told, u64::from(cluster.first));
        tell(told, u64::from(cluster.phase));
        tell_span(told, &cluster.members);
    }
}

impl Asked for Cover {
    fn answer(&self, _alloc: Global, name: &str, numbers: [u32; 5], told: &mut Vec<u64>) {
        let [first, second, ..] = numbers;
        match name {
            "homes" => tell_homes(self, told),
            "counts" => tell_counts(self, told),
            "cluster" => tell_cluster(self, first, told),
            "ball" => tell_on_path(self, first, second, told),
            _ => tell_unknown(told),
        }
    }
}

// The number of clusters, and the home of each ball.
fn tell_mean_homes(cover: &MeanCover, told: &mut Vec<u64>) {
    tell(told, cover.clusters.len() as u64);
    tell_all(told, &cover.home);
}

// The leader and the nodes of a cluster.
fn tell_mean_cluster(cover: &MeanCover, place: u32, told: &mut Vec<u64>) {
    if (place as usize) < cover.clusters.len() {
        let cluster = &cover.clusters[place as usize];
        tell(told, u64::from(cluster.first));
        tell_set(told, &cluster.members);
    }
}

// The number of clusters, and the sum of their sizes.
fn tell_mean_counts(cover: &MeanCover, told: &mut Vec<u64>) {
    let mut sum = 0u64;
    for cluster in &cover.clusters {
        sum = sum.saturating_add(u64::from(cluster.members.count()));
    }
    tell(told, cover.clusters.len() as u64);
    tell(told, sum);
}

// The home of ball `v`; and of cluster `c` the leader, the lowest node and how many nodes it has.
fn tell_on_mean_path(cover: &MeanCover, v: u32, c: u32, told: &mut Vec<u64>) {
    if (v as usize) < cover.home.len() && (c as usize) < cover.clusters.len() {
        let cluster = &cover.clusters[c as usize];
        tell(told, u64::from(cover.home[v as usize]));
        tell(told, u64::from(cluster.first));
        tell_span(told, &cluster.members);
    }
}

impl Asked for MeanCover {
    fn answer(&self, _alloc: Global, name: &str, numbers: [u32; 5], told: &mut Vec<u64>) {
        let [first, second, ..] = numbers;
        match name {
            "homes" => tell_mean_homes(self, told),
            "counts" => tell_mean_counts(self, told),
            "cluster" => tell_mean_cluster(self, first, told),
            "ball" => tell_on_mean_path(self, first, second, told),
            _ => tell_unknown(told),
        }
    }
}

// The cover of `n` balls that reach so far, and have node 1 from that of node `joined` on.
fn cover_of(alloc: Global, k: u32, n: u32, reach: u32, joined: u32) -> Result<Cover, AllocError>
    requires low { 1 ≤ k }
    requires high { k ≤ 8 }
    requires small { n ≤ 1024 }
{
    let balls = balls_of(alloc, n, reach, joined)?;
    coarsen(alloc, &balls, k)
}

// Their mean cover.
fn mean_cover_of(
    alloc: Global,
    k: u32,
    n: u32,
    reach: u32,
    joined: u32,
) -> Result<MeanCover, AllocError>
    requires low { 1 ≤ k }
    requires high { k ≤ 8 }
    requires small { n ≤ 1024 }
{
    let balls = balls_of(alloc, n, reach, joined)?;
    coarsen_mean(alloc, &balls, k)
}

/// Asks a cover. Its numbers are the trade-off; and of the balls their number, how far they reach,
/// and the node from which on they have node 1.
pub fn ask_cover(rt: &impl Abort, alloc: Global, head: &str, rows: &str) {
    let [k, n, reach, joined, _] = five_numbers(head);
    let (k, n) = (within(rt, k, 1, 8), within(rt, n, 0, 1024));
    ask_made(rt, alloc, cover_of(alloc, k, n, reach, joined), head, rows);
}

/// Asks a mean cover, of the same numbers.
pub fn ask_mean_cover(rt: &impl Abort, alloc: Global, head: &str, rows: &str) {
    let [k, n, reach, joined, _] = five_numbers(head);
    let (k, n) = (within(rt, k, 1, 8), within(rt, n, 0, 1024));
    let made = mean_cover_of(alloc, k, n, reach, joined);
    ask_made(rt, alloc, made, head, rows);
}

#[test]
fn covers_of_a_line(rt: HostRuntime) -> Result<(), Fail> {
    let subjects = "cover 1 4 1 4:\
        homes = 4 3 0 2 3 1|\
        cluster 0 = 0 0 4 2 0 0 1 1|\
        cluster 1 = 3 0 4 2 2 2 3 3|\
        cluster 2 = 1 1 4 3 0 0 1 1 2 2|\
        cluster 3 = 2 2 4 3 1 1 2 2 3 3|;\
        cover 2 4 1 4:\
        homes = 2 2 0 0 0 1|\
        cluster 0 = 0 0 4 4 0 0 1 1 2 2 3 3|\
        cluster 1 = 3 1 4 2 2 2 3 3|;\
        cover 8 4 1 4:\
        homes = 1 1 0 0 0 0|\
        cluster 0 = 0 0 4 4 0 0 1 1 2 2 3 3|;\
        meancover 1 4 1 4:\
        homes = 2 0 0 0 1|\
        cluster 0 = 0 4 4 0 0 1 1 2 2 3 3|\
        cluster 1 = 3 4 2 2 2 3 3|;\
        meancover 2 4 1 4:\
        homes = 2 0 0 0 1|\
        cluster 0 = 0 4 4 0 0 1 1 2 2 3 3|\
        cluster 1 = 3 4 2 2 2 3 3|;\
        meancover 8 4 1 4:\
        homes = 1 0 0 0 0|\
        cluster 0 = 0 4 4 0 0 1 1 2 2 3 3|;";
    ask(&rt, rt.alloc(), subjects)
}

// Each node reaches itself and node 1 alone, so the row of node 1 has all centres. In the mean
// cover node 0 doesn't reach node 1.
#[test]
fn covers_of_lopsided_balls(rt: HostRuntime) -> Result<(), Fail> {
    let subjects = "cover 1 4 0 0:\
        homes = 4 4 0 1 2 3|\
        cluster 0 = 0 0 4 2 0 0 1 1|\
        cluster 1 = 1 1 4 1 1 1|\
        cluster 2 = 2 2 4 2 1 1 2 2|\
        cluster 3 = 3 3 4 2 1 1 3 3|;\
        cover 2 4 0 0:\
        homes = 1 1 0 0 0 0|\
        cluster 0 = 0 0 4 4 0 0 1 1 2 2 3 3|;\
        meancover 2 4 0 1:\
        homes = 2 0 1 1 1|\
        cluster 0 = 0 4 1 0 0|\
        cluster 1 = 1 4 3 1 1 2 2 3 3|;";
    ask(&rt, rt.alloc(), subjects)
}

#[test]
fn covers_past_a_word_and_at_the_limits(rt: HostRuntime) -> Result<(), Fail> {
    let subjects = "cover 8 1024 5 1024:\
        counts = 98 2|\
        ball 1023 97 = 97 1019 1 1014 10|\
        ball 0 0 = 0 0 0 0 16|;\
        meancover 1 130 2 130:\
        counts = 26 230|ball 4 0 = 0 0 0 7|ball 5 1 = 1 5 3 9|ball 129 25 = 25 125 123 7|;\
        meancover 2 130 2 130:\
        counts = 26 230|ball 4 0 = 0 0 0 7|ball 5 1 = 1 5 3 9|ball 129 25 = 25 125 123 7|;\
        meancover 3 130 2 130:\
        counts = 26 230|ball 4 0 = 0 0 0 7|ball 5 1 = 1 5 3 9|ball 129 25 = 25 125 123 7|;\
        meancover 4 130 2 130:\
        counts = 26 230|ball 4 0 = 0 0 0 7|ball 5 1 = 1 5 3 9|ball 129 25 = 25 125 123 7|;\
        meancover 5 130 2 130:\
        counts = 26 230|ball 4 0 = 0 0 0 7|ball 5 1 = 1 5 3 9|ball 129 25 = 25 125 123 7|;\
        meancover 8 130 2 130:\
        counts = 26 229|ball 5 0 = 0 0 0 11|ball 129 25 = 25 129 127 3|;\
        meancover 1 1024 5 1024:\
        counts = 94 1950|ball 10 0 = 0 0 0 16|ball 1023 93 = 93 1023 1018 6|;\
        meancover 8 1024 5 1024:\
        counts = 93 1941|ball 20 0 = 0 0 0 26|ball 1023 92 = 92 1022 1017 7|;";
    ask(&rt, rt.alloc(), subjects)
}

// The cluster that is the home of ball `v` of a path of 130 nodes by balls that reach two: its
// number, leader, phase, lowest node and how many nodes it has.
//
// Up to the trade-off 3 no ball grows, since five balls aren't too many for 130 of them: each is a
// cluster, and a phase has every fifth one.
fn stay_small(v: u32) -> [u32; 5]
    requires { v < 130 }
{
    let low = v.saturating_sub(2);
    let count = (v + 2).min(129) - low + 1;
    [v % 5 * 26 + v / 5, v, v % 5, low, count]
}

// Above it each cluster of the first phase grows once: it has nine balls about it, and five are its
// own. The four between two such are one cluster of the second phase each.
fn grow_once(v: u32) -> [u32; 5]
    requires { v < 130 }
{
    let own = v / 9;
    if v % 9 < 5 {
        let low = (9 * own).saturating_sub(2);
        [own, 9 * own, 0, low, (9 * own + 6).min(129) - low + 1]
    } else {
        [15 + own, 9 * own + 5, 1, 9 * own + 3, 8]
    }
}

// Tells each ball's home and its parts, and what is wanted of them.
fn tell_balls(cover: &Cover, k: u32, told: &mut Vec<u64>, wanted: &mut Vec<u64>) {
    for v in 0..130 {
        let parts = if k < 4 { stay_small(v) } else { grow_once(v) };
        tell_on_path(cover, v, parts[0], told);
        for part in parts {
            tell(wanted, u64::from(part));
        }
    }
}

// What is wanted of each cluster of the path.
fn has_balls(rt: &impl Abort, alloc: Global, cover: &Cover, k: u32) {
    let (mut told, mut wanted) = (Vec::new(alloc), Vec::new(alloc));
    tell_balls(cover, k, &mut told, &mut wanted);
    same(rt, "all balls", "of a path", &told, &wanted);
}

// How many there are of clusters, and of phases.
fn has_counts(rt: &impl Abort, alloc: Global, cover: &Cover, k: u32) {
    let mut counts = Vec::new(alloc);
    tell_counts(cover, &mut counts);
    let wanted = if k < 4 { [130, 5] } else { [29, 2] };
    same(rt, "counts", "of a path", &counts, &wanted);
}

// What is wanted of the cover of the path.
fn is_wanted(rt: &impl Abort, alloc: Global, cover: &Cover, k: u32) {
    has_balls(rt, alloc, cover, k);
    has_counts(rt, alloc, cover, k);
}

#[test]
fn all_balls_past_a_word(rt: HostRuntime) {
    for k in 1..9 {
        let cover = cover_of(rt.alloc(), k, 130, 2, 130).expect(&rt, "memory");
        is_wanted(&rt, rt.alloc(), &cover, k);
    }
}
