//! Homes, clusters, faults of trees and distances that are wrong in one part; and which spare sets
//! are taken.
ghost use Rattle.std.specs.Prelude.{◌≡◌, ◌<◌, [], ◌∷◌};
ghost use Rattle.cluster_tree.specs.Faults.{IsTreeFault};
ghost use Rattle.cluster_tree.specs.Inside.{StandBefore};
ghost use Rattle.cluster_tree.specs.declared.fault.TreeFault.TheVariants.{Outside};
ghost use Rattle.coarse_cover.specs.Covers.{AreApart};
ghost use Rattle.distances.specs.Table.{DistanceTable, IsMetric, dist};
ghost use Rattle.node_set.specs.Balls.{AreHomes};
ghost use Rattle.node_set.specs.Nodes.{Nodes};
ghost use Rattle.node_set.specs.Workspaces.{AreSpareLeft, SpareTaken};
ghost use Rattle.worked_examples.specs.Covers.{cluster_with, one_edge};

/// A home that lacks a node of its ball, and one beyond the clusters.
pub fn wrong_homes()
    ensures lacking { AreHomes ((0 ∷ 1 ∷ []) ∷ []) ((0 ∷ []) ∷ []) (0 ∷ []) → ⊥ }
    ensures beyond { AreHomes ([] ∷ []) ([]) (0 ∷ []) → ⊥ }
{}

/// Clusters of one phase that share a node: the first and the last of three, and the last two.
/// Those of two phases may share one.
pub fn wrong_phases()
    ensures around { AreApart (cluster_with 0 (0 ∷ 1 ∷ []) ∷ cluster_with 0 (2 ∷ [])
        ∷ cluster_with 0 (1 ∷ 3 ∷ []) ∷ []) → ⊥ }
    ensures behind { AreApart (cluster_with 0 (0 ∷ []) ∷ cluster_with 0 (1 ∷ 2 ∷ [])
        ∷ cluster_with 0 (2 ∷ 3 ∷ []) ∷ []) → ⊥ }
    ensures other { AreApart (cluster_with 0 (0 ∷ 1 ∷ []) ∷ cluster_with 1 (1 ∷ 2 ∷ []) ∷ []) }
{}

/// What no tree has as its fault, where one edge joins nodes 0 and 1: a member beyond the least
/// that isn't reached, a node that is no member, and a member that is reached. And weights that
/// don't stand before new ones: some that were written over, and some that others were put before.
pub fn wrong_tree_faults()
    ensures later { IsTreeFault one_edge (0 ∷ 1 ∷ 2 ∷ 3 ∷ []) 0 (Outside 3) → ⊥ }
    ensures other { IsTreeFault one_edge (0 ∷ 1 ∷ 3 ∷ []) 0 (Outside 2) → ⊥ }
    ensures reached { IsTreeFault one_edge (0 ∷ 1 ∷ 2 ∷ 3 ∷ []) 0 (Outside 1) → ⊥ }
    ensures over { StandBefore (1 ∷ []) (2 ∷ []) → ⊥ }
    ensures before { StandBefore (1 ∷ []) (2 ∷ 1 ∷ []) → ⊥ }
{}

/// Two nodes of a network are apart.
pub fn wrong_distances()
    ensures { (table : DistanceTable) → IsMetric table → 1 < table.nodes → dist table 0 1 ≡ 0 → ⊥ }
{}

/// The one that was taken of two spare sets is the last, and as many are taken as are told; where
/// some were taken, those that are left come first. Where there are fewer, all are taken.
pub fn worked_spares()
    ensures one { (first last : Nodes) → SpareTaken 1 (first ∷ last ∷ []) (first ∷ []) }
    ensures two { (first last : Nodes) → SpareTaken 1 (first ∷ last ∷ []) [] → ⊥ }
    ensures none { (first last : Nodes) → SpareTaken 1 (first ∷ last ∷ []) (first ∷ last ∷ [])
        → ⊥ }
    ensures all { SpareTaken 1 [] [] }
    ensures front { (first last : Nodes) → AreSpareLeft (first ∷ last ∷ []) (first ∷ []) }
    ensures back { (first last : Nodes) → AreSpareLeft (first ∷ last ∷ []) (last ∷ [])
        → first ≡ last }
    ensures more { (first last : Nodes) → AreSpareLeft (first ∷ []) (first ∷ last ∷ []) → ⊥ }
{}
