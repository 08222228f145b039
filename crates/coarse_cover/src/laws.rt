//! Laws of coarsening, for the layers above: they speak of any balls, as lists of nodes.
ghost use Rattle.coarse_cover.specs.Coarsening.{ClustersAreShaped, CoversAreSparse, HomesAreFound};

use whole_powers::{one_phase, powers_add};

/// Each cluster is its leader's ball after fewer than `k` growths, its leader being a waiting
/// centre, and has the nodes of the balls that it is the home of.
pub fn cluster_shape()
    ensures { ClustersAreShaped }
{}

/// Each ball is one of those that its home was grown from.
pub fn home_means()
    ensures { HomesAreFound }
{}

/// Few clusters overlap: for `n` balls the number `p` of phases has `p` to the power `k` at most
/// `k` to the power `k` times `n`, and no node is in more than `p` clusters.
pub fn covers_are_sparse()
    ensures { CoversAreSparse }
{
    powers_add();
    one_phase();
}
