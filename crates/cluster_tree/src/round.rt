//! Clusters that have each node that is no farther from the leader than their farthest member.
ghost use Rattle.std.specs.Prelude.{◌≡◌, ◌<◌, ◌≤◌, All, length, slice_index, true};
ghost use Rattle.node_set.specs.Ascending.{IsAscending};
ghost use Rattle.cluster_tree.specs.Inside.{IsRound, count_within};

// Whether the cluster has each node that is no farther from the leader than a member is. `row` has
// the distances from the leader.
pub fn is_round(row: &[u32], members: &[u32]) -> bool
    requires few { length row.now ≤ 1024 }
    requires members { All (λ v. v < length row.now) members.now }
    requires ascending { IsAscending members.now }
    ensures { result ≡ true → IsRound members.now row.now }
{
    count_within(row, farthest(row, members)) as usize == members.len()
}

// The distance of the farthest member.
fn farthest(row: &[u32], members: &[u32]) -> u32
    requires { All (λ v. v < length row.now) members.now }
    ensures { All (λ v. slice_index row.now v ≤ result) members.now }
{
    let mut far = 0;
    for member in members {
        let distance = row[*member as usize];
        if far < distance {
            far = distance;
        }
    }
    far
}

// How many nodes are so far or nearer.
fn count_within(row: &[u32], far: u32) -> u32
    requires { length row.now ≤ 1024 }
    ensures { result ≡ count_within row.now far }
{
    let mut count = 0;
    for distance in row {
        if *distance <= far {
            count += 1;
        }
    }
    count
}
