//! Made loads, computed: the tree and the other edges of seven nodes, and which calls are moves.
ghost use Rattle.std.specs.Prelude.{◌≡◌, [], ◌∷◌, length, map, false, true};
ghost use Rattle.make_load.specs.Load.{is_move, others_of, tree_of};
ghost use Rattle.net_graph.specs.declared.edge.Edge.{Edge};

/// A node's parent is half of it, and half as many other edges as there are nodes are drawn. With
/// callers each second call is a find, and without all are moves.
pub fn worked_made()
    ensures parents { map (λ (edge : Edge). edge.a) (tree_of
        (record { start = 1; nodes = 7; k = 2; subs = 1; callers = 0; calls = 4 })).value
        ≡ 0 ∷ 0 ∷ 1 ∷ 1 ∷ 2 ∷ 2 ∷ [] }
    ensures others { length (others_of
        (record { start = 1; nodes = 7; k = 2; subs = 1; callers = 0; calls = 4 })).value ≡ 3 }
    ensures alone { map (is_move
        (record { start = 1; nodes = 7; k = 2; subs = 1; callers = 0; calls = 4 }))
        (0 ∷ 1 ∷ 2 ∷ 3 ∷ []) ≡ true ∷ true ∷ true ∷ true ∷ [] }
    ensures finds { map (is_move
        (record { start = 1; nodes = 7; k = 2; subs = 1; callers = 1; calls = 4 }))
        (0 ∷ 1 ∷ 2 ∷ 3 ∷ []) ≡ true ∷ false ∷ true ∷ false ∷ [] }
{}
