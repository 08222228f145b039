//! The mean cover of the line of four nodes, computed.
ghost use Rattle.std.specs.Prelude.{◌≡◌, [], ◌∷◌, map};
ghost use Rattle.node_set.specs.Balls.{AreCentred, AreInside, centres, home_of};
ghost use Rattle.mean_cover.specs.Covering.{mean_covering, sum_of_sizes};
ghost use Rattle.mean_cover.specs.Examples.{line_balls, line_end, line_whole};

/// The balls of radius 1 on the line 0 - 1 - 2 - 3 meet what the laws ask, and have two clusters
/// with the trade-off 2, of six nodes in all.
pub fn example_cover()
    ensures clusters { mean_covering line_balls 2 ≡ line_whole ∷ line_end ∷ [] }
    ensures homes { map (home_of (mean_covering line_balls 2)) (centres 4)
        ≡ 0 ∷ 0 ∷ 0 ∷ 1 ∷ [] }
    ensures sum { sum_of_sizes (mean_covering line_balls 2) ≡ 6 }
    ensures centred { AreCentred line_balls }
    ensures inside { AreInside line_balls }
{}
