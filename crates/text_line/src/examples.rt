//! Worked examples, computed: the lines of actors.
ghost use Rattle.std.specs.Prelude.{◌≡◌, ◌++◌, [], ◌∷◌, length, map, codes};
ghost use Rattle.text_line.specs.OrderLines.{order_lines, zeros};

/// The lines of no actor, of three, of 64 and of 129.
pub fn example_orders()
    ensures none { order_lines [] ≡ [] }
    ensures order { order_lines (0 ∷ 1 ∷ 10 ∷ []) ≡ (codes "order 0 1 10" ++ 10 ∷ []) ∷ [] }
    ensures full { map (λ line. length line) (order_lines (zeros 64)) ≡ 134 ∷ [] }
    ensures more { map (λ line. length line) (order_lines (zeros 129)) ≡ 134 ∷ 134 ∷ 8 ∷ [] }
{}
