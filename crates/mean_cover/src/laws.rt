//! Laws of mean covers, for the layers above: they speak of any balls, as lists of nodes.
ghost use Rattle.mean_cover.specs.Covering.{MeanClustersAreShaped, MeanHomesAreFound};
ghost use Rattle.mean_cover.specs.Covering.{MeanCoversAreSmall};

use whole_powers::powers_add;

/// Each cluster is its leader's ball after at most `k` growths, its leader being a waiting centre,
/// and has the nodes of the balls that it is the home of.
pub fn mean_cluster_shape()
    ensures { MeanClustersAreShaped }
{}

/// Each ball is one of those that its home was grown from.
pub fn mean_home_means()
    ensures { MeanHomesAreFound }
{}

/// The sizes of all clusters are small in the sum: for `n` balls the sum to the power `k` is at
/// most `n` to the power `k + 1`.
pub fn mean_covers_are_small()
    ensures { MeanCoversAreSmall }
{
    powers_add();
}
