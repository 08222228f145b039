//! The clusters that contain each node, gathered by counting.

ghost use Rattle.std.specs.Prelude.{◌≡◌, ◌+◌, ◌<◌, ◌≤◌, All, IfOk, OnOk, length, slice_index};
ghost use Rattle.node_set.specs.Ascending.{IsAscending};
ghost use Rattle.region_plan.specs.Kept.{IsTable};
ghost use Rattle.net_graph.specs.Starts.{AreStarts};
ghost use Rattle.region_plan.specs.Readers.{AreCounts, AreWritten, HaveRoom, IsCounted};

use crate::clusters::Clusters;
use net_graph::OutOfMemory;
use std::alloc::Global;

// The numbers of the clusters of each node, one node after another, with the weight inside each of
// them from its leader to the node; and where those of each node begin.
#[derive(Drop)]
pub struct ReaderLists {
    pub starts: Vec<u32>,
    pub readers: Vec<u32>,
    pub weights: Vec<u32>,
}

impl ReaderLists {
    // The clusters of so many nodes. They are counted first, so that each node's have their place.
    pub fn new(alloc: Global, clusters: &Clusters, nodes: usize) -> Result<ReaderLists, OutOfMemory>
        requires nodes { nodes ≤ 1024 }
        requires clusters { length clusters.now ≤ nodes }
        ensures { IfOk result (λ lists. IsTable nodes clusters.now lists.starts.items
            lists.readers.items lists.weights.items) }
    {
        let starts = find_starts(alloc, clusters, nodes)?;
        let mut lists = ReaderLists::with_starts(alloc, starts, nodes)?;
        lists.fill(alloc, clusters, nodes)?;
        Ok(lists)
    }

    // Room for the clusters of so many nodes, which begin there.
    fn with_starts(
        alloc: Global,
        starts: Vec<u32>,
        nodes: usize,
    ) -> Result<ReaderLists, OutOfMemory>
        requires count { nodes < length starts.items }
        ensures starts { IfOk result (λ lists. lists.starts.items ≡ starts.items) }
        ensures readers { IfOk result
            (λ lists. length lists.readers.items ≡ slice_index starts.items nodes) }
        ensures weights { IfOk result
            (λ lists. length lists.weights.items ≡ slice_index starts.items nodes) }
    {
        let total = starts[nodes] as usize;
        Ok(ReaderLists {
            starts,
            readers: vec![in alloc; 0u32; total]?,
            weights: vec![in alloc; 0u32; total]?,
        })
    }

    // Writes the clusters of each of so many nodes, and the weights beside them.
    fn fill(&mut self, alloc: Global, clusters: &Clusters, nodes: usize) -> Result<(), OutOfMemory>
        requires few { length clusters.now ≤ 1024 }
        requires room { HaveRoom nodes clusters.now self.old.starts.items }
        requires readers { length self.old.readers.items ≡ slice_index self.old.starts.items nodes }
        requires weights { length self.old.weights.items ≡ slice_index self.old.starts.items nodes }
        ensures { OnOk result (IsTable nodes clusters.now self.new.starts.items
            self.new.readers.items self.new.weights.items) }
    {
        let mut taken = vec![in alloc; 0u32; nodes]?;
        fill_readers(
            clusters,
            &self.starts,
            &mut taken,
            &mut self.readers,
            &mut self.weights,
        );
        Ok(())
    }
}

// Where the clusters of each of so many nodes begin, and where the last ones end.
fn find_starts(alloc: Global, clusters: &Clusters, nodes: usize) -> Result<Vec<u32>, OutOfMemory>
    requires nodes { nodes ≤ 1024 }
    requires clusters { length clusters.now ≤ nodes }
    ensures { IfOk result (λ starts. HaveRoom nodes clusters.now starts.items) }
{
    let mut room = vec![in alloc; 0u32; nodes]?;
    let counts = room.as_mut_slice();
    count_readers(clusters, counts);
    sum_counts(alloc, counts)
}

// Counts the clusters of each node.
fn count_readers(clusters: &Clusters, counts: &mut [u32])
    requires few { length clusters.now ≤ 1024 }
    requires none { AreCounts clusters.now 0 counts.old }
    ensures { AreCounts clusters.now (length clusters.now) counts.new }
{
    for number in 0..clusters.count() as u32 {
        count_members(clusters.nodes(number), counts);
    }
}

// Adds one to the count of each of these nodes. No clause says that members are nodes, so that each
// is tested.
fn count_members(members: &[u32], counts: &mut [u32])
    requires ascending { IsAscending members.now }
    requires small { All (λ count. count ≤ 1024) counts.old }
    ensures { IsCounted members.now counts.old counts.new }
{
    for member in members {
        if (*member as usize) < counts.len() {
            counts[*member as usize] += 1;
        }
    }
}

// Where the readers of each node begin, and where the last ones end.
fn sum_counts(alloc: Global, counts: &[u32]) -> Result<Vec<u32>, OutOfMemory>
    requires few { length counts.now ≤ 1024 }
    requires small { All (λ count. count ≤ 1024) counts.now }
    ensures { IfOk result (λ starts. AreStarts counts.now starts.items) }
{
    let mut starts = Vec::with_capacity(alloc, counts.len() + 1)?;
    let mut sum = 0;
    starts.push(sum)?;
    for count in counts {
        sum += *count;
        starts.push(sum)?;
    }
    Ok(starts)
}

// Writes the numbers of the clusters of each node, and the weights beside them.
fn fill_readers(
    clusters: &Clusters,
    starts: &[u32],
    taken: &mut [u32],
    readers: &mut [u32],
    weights: &mut [u32],
)
    requires few { length clusters.now ≤ 1024 }
    requires room { HaveRoom (length taken.old) clusters.now starts.now }
    requires readers { length readers.old ≡ slice_index starts.now (length taken.old) }
    requires weights { length weights.old ≡ slice_index starts.now (length taken.old) }
    requires none { AreCounts clusters.now 0 taken.old }
    ensures { IsTable (length taken.old) clusters.now starts.now readers.new weights.new }
{
    for number in 0..clusters.count() as u32 {
        fill_cluster(clusters, number, starts, taken, readers, weights);
    }
}

// Writes a cluster's number, and the weight inside it, at the next free place of each of its
// members.
fn fill_cluster(
    clusters: &Clusters,
    number: u32,
    starts: &[u32],
    taken: &mut [u32],
    readers: &mut [u32],
    weights: &mut [u32],
)
    requires number { number < length clusters.now }
    requires few { length clusters.now ≤ 1024 }
    requires room { HaveRoom (length taken.old) clusters.now starts.now }
    requires readers { length readers.old ≡ slice_index starts.now (length taken.old) }
    requires weights { length weights.old ≡ slice_index starts.now (length taken.old) }
    requires counts { AreCounts clusters.now number taken.old }
    requires filled { AreWritten clusters.now starts.now taken.old readers.old weights.old }
    ensures counts { AreCounts clusters.now (number + 1) taken.new }
    ensures filled { AreWritten clusters.now starts.now taken.new readers.new weights.new }
{
    let members = clusters.nodes(number);
    let inside = clusters.weights(number);
    for place in 0..members.len() {
        let v = members[place] as usize;
        if v < taken.len() {
            let next = starts[v] as usize + taken[v] as usize;
            readers[next] = number;
            weights[next] = inside[place];
            taken[v] += 1;
        }
    }
}
