//! Laws of least weights, for the proofs of callers: each function does nothing, and its clause is
//! a law.

ghost use Rattle.std.specs.Prelude.{◌≡◌, ◌≢◌, ◌+◌, ◌<◌, ◌≤◌, ◌↔◌, ℕ, Bool, true, List, All, length};
ghost use Rattle.net_graph.specs.declared.edge.Edge.{Edge};
ghost use Rattle.net_graph.specs.LeastWeights.{LeastWeightsAreBounded, LeastWeightsAreFound};
ghost use Rattle.net_graph.specs.Near.{NearNodesAreWithin};
ghost use Rattle.net_graph.specs.Network.{IsEdge};
ghost use Rattle.net_graph.specs.Walks.{Joins, IsLeastWeight, IsUnreached, IsReached, among, everywhere};

/// Two least weights of walks between the same nodes are equal.
pub fn least_weight_is_one()
    ensures { (edges : List Edge) (inside : ℕ → Bool) (u v w x : ℕ)
        → IsLeastWeight edges inside u v w → IsLeastWeight edges inside u v x → w ≡ x }
{}

/// A least weight is the same from either end.
pub fn least_weight_turned()
    ensures { (edges : List Edge) (inside : ℕ → Bool) (u v w : ℕ)
        → IsLeastWeight edges inside u v w → IsLeastWeight edges inside v u w }
{}

/// What isn't reached from one end isn't reached from the other.
pub fn unreached_turned()
    ensures { (edges : List Edge) (inside : ℕ → Bool) (u v : ℕ)
        → IsUnreached edges inside u v → IsUnreached edges inside v u }
{}

/// The triangle inequality.
pub fn least_weights_add_up()
    ensures { (edges : List Edge) (inside : ℕ → Bool) (u v x a b c : ℕ)
        → IsLeastWeight edges inside u v a → IsLeastWeight edges inside v x b
        → IsLeastWeight edges inside u x c → c ≤ a + b }
{}

/// The least weight from a node inside to itself is 0.
pub fn least_weight_to_itself()
    ensures { (edges : List Edge) (inside : ℕ → Bool) (u : ℕ) → inside u ≡ true
        → IsLeastWeight edges inside u u 0 }
{}

/// A least weight is at most the weight of an edge between the nodes.
pub fn least_weight_of_a_step()
    ensures { (edges : List Edge) (inside : ℕ → Bool) (u v w x : ℕ) → inside u ≡ true
        → inside v ≡ true
        → Joins edges u v x → IsLeastWeight edges inside u v w → w ≤ x }
{}

/// The least weight between different nodes is positive.
pub fn least_weight_is_positive()
    ensures { (n : ℕ) (edges : List Edge) (inside : ℕ → Bool) (u v w : ℕ)
        → All (IsEdge n) edges → u ≢ v → IsLeastWeight edges inside u v w → 1 ≤ w }
{}

/// A node that has a least weight is reached, and one that is unreached has none.
pub fn least_weight_is_reached()
    ensures { (edges : List Edge) (inside : ℕ → Bool) (u v w : ℕ)
        → IsLeastWeight edges inside u v w → IsReached edges inside u v
        × ¬ (IsUnreached edges inside u v) }
{}

/// Where all nodes are allowed, walks go everywhere.
pub fn all_allowed_is_everywhere()
    ensures least { (n : ℕ) (edges : List Edge) (allowed : List Bool) (u v w : ℕ)
        → All (IsEdge n) edges → length allowed ≡ n → All (λ x. x ≡ true) allowed → u < n
        → IsLeastWeight edges (among allowed) u v w ↔ IsLeastWeight edges everywhere u v w }
    ensures unreached { (n : ℕ) (edges : List Edge) (allowed : List Bool) (u v : ℕ)
        → All (IsEdge n) edges → length allowed ≡ n → All (λ x. x ≡ true) allowed → u < n
        → IsUnreached edges (among allowed) u v ↔ IsUnreached edges everywhere u v }
{}

/// Where a walk leads to a node, the number `least_weight` is the least weight of one.
pub fn least_weight_is_found()
    ensures { LeastWeightsAreFound }
{}

/// What a search has found is what lies within the radius of a source: a node whose least weight
/// from the sources is so much is found just where that is at most the radius.
pub fn near_nodes_are_within()
    ensures { NearNodesAreWithin }
{}

/// No least weight is more than a walk through all nodes can weigh.
pub fn least_weight_is_bounded()
    ensures { LeastWeightsAreBounded }
{}

/// Walks lead back, and on from where they end.
pub fn reached_both_ways()
    ensures back { (edges : List Edge) (inside : ℕ → Bool) (u v : ℕ)
        → IsReached edges inside u v → IsReached edges inside v u }
    ensures on { (edges : List Edge) (inside : ℕ → Bool) (u v x : ℕ)
        → IsReached edges inside u v → IsReached edges inside v x → IsReached edges inside u x }
{}
