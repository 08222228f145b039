//! Graphs of given edges; and the parents in a tree of least walks, on a square with two ways to
//! its far corner.
ghost use Rattle.std.specs.Prelude.{◌≡◌, [], ◌∷◌, ℕ, List, Option, Some, None, length};
ghost use Rattle.net_graph.specs.Network.{IsGraphOf, Network};
ghost use Rattle.net_graph.specs.Trees.{AreParents, at_node};
ghost use Rattle.net_graph.specs.Walks.{make_edge};
ghost use Rattle.worked_examples.specs.Trees.{joined_twice, square, square_weights};

/// What is no graph of given edges: one with an edge that isn't given, one that leaves out an edge
/// beside a lighter one, and one with an edge from a node to itself, though that is given.
pub fn wrong_graphs()
    ensures made_up { (network : Network) → IsGraphOf 2 (make_edge 0 1 3 ∷ []) network
        → network.edges ≡ make_edge 0 1 3 ∷ make_edge 0 1 7 ∷ [] → ⊥ }
    ensures left_out { (network : Network)
        → IsGraphOf 2 (make_edge 0 1 3 ∷ make_edge 0 1 7 ∷ []) network
        → network.edges ≡ make_edge 0 1 3 ∷ [] → ⊥ }
    ensures to_itself { (network : Network)
        → IsGraphOf 2 (make_edge 0 1 3 ∷ make_edge 1 1 5 ∷ []) network
        → network.edges ≡ make_edge 0 1 3 ∷ make_edge 1 1 5 ∷ [] → ⊥ }
{}

/// The parents in the square: none at the root, and at the far corner the lower of two that lead
/// there.
pub fn worked_parents()
    ensures { AreParents square 0 square_weights (None ∷ Some 0 ∷ Some 0 ∷ Some 1 ∷ []) }
{}

/// What no parents are: one too few, one at the root, none elsewhere, one that isn't a node, the
/// higher of two, one over no edge or from a node that is farther, and one over the heavier of two
/// edges.
pub fn wrong_parents()
    ensures few { (parents : List (Option ℕ)) → length parents ≡ 3
        → AreParents square 0 square_weights parents → ⊥ }
    ensures root { (weights parents : List (Option ℕ)) (parent : ℕ)
        → at_node parents 0 ≡ Some parent → AreParents square 0 weights parents → ⊥ }
    ensures missing { (parents : List (Option ℕ)) → at_node parents 2 ≡ None
        → AreParents square 0 square_weights parents → ⊥ }
    ensures beyond { (weights parents : List (Option ℕ)) → at_node parents 2 ≡ Some 4
        → AreParents square 0 weights parents → ⊥ }
    ensures higher { (parents : List (Option ℕ)) → at_node parents 3 ≡ Some 2
        → AreParents square 0 square_weights parents → ⊥ }
    ensures far { (parents : List (Option ℕ)) → at_node parents 3 ≡ Some 0
        → AreParents square 0 square_weights parents → ⊥ }
    ensures farther { (parents : List (Option ℕ)) → at_node parents 1 ≡ Some 3
        → AreParents square 0 square_weights parents → ⊥ }
    ensures heavier { (parents : List (Option ℕ)) → at_node parents 1 ≡ Some 0
        → AreParents joined_twice 0 (Some 0 ∷ Some 2 ∷ []) parents → ⊥ }
{}
