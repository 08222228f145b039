//! Where the cells of the line of four lie, computed: three levels of 2, 1 and 1 clusters.
ghost use Rattle.std.specs.Prelude.{◌≡◌, [], ◌∷◌, map};
ghost use Rattle.entry_word.specs.declared.visit.Key.TheVariants.{Presence, Entry};
ghost use Rattle.plan_laws.specs.Examples.{line_of_four};
ghost use Rattle.station.specs.Setup.{cell_word, lock_word, tally_word, word_count};
ghost use Rattle.visit_log.specs.Cells.{slot_of, width_of};
ghost use Rattle.visit_log.specs.Homes.{home_place};
ghost use Rattle.visit_log.specs.Numbers.{cell_count, cell_number, clusters_below, key_place};
ghost use Rattle.visit_log.specs.Routes.{entry_place, rung_at, rung_past, ways_past};
ghost use Rattle.worked_examples.specs.Passes.{three_on_line};

/// Cells by number: the presences node by node, and then the entries cluster by cluster and level
/// by level, each time one for each of three subscribers. In plain cells all those of a subscriber
/// stand together.
pub fn worked_cells()
    ensures below { map (clusters_below line_of_four) (0 ∷ 1 ∷ 2 ∷ 3 ∷ []) ≡ 0 ∷ 2 ∷ 3 ∷ 4 ∷ [] }
    ensures places { map (key_place line_of_four)
        (Presence 0 2 ∷ Presence 3 0 ∷ Entry 0 0 1 ∷ Entry 0 1 2 ∷ Entry 1 0 0 ∷ Entry 2 0 2 ∷ [])
        ≡ 0 ∷ 3 ∷ 4 ∷ 5 ∷ 6 ∷ 7 ∷ [] }
    ensures numbers { map (cell_number line_of_four 3)
        (Presence 0 2 ∷ Presence 3 0 ∷ Entry 0 0 1 ∷ Entry 0 1 2 ∷ Entry 1 0 0 ∷ Entry 2 0 2 ∷ [])
        ≡ 2 ∷ 9 ∷ 13 ∷ 17 ∷ 18 ∷ 23 ∷ [] }
    ensures count { cell_count line_of_four 3 ≡ 24 }
    ensures width { width_of line_of_four ≡ 8 }
    ensures slots { map (slot_of line_of_four)
        (Presence 0 2 ∷ Presence 3 0 ∷ Entry 0 0 1 ∷ Entry 0 1 2 ∷ Entry 1 0 0 ∷ Entry 2 0 2 ∷ [])
        ≡ 16 ∷ 3 ∷ 12 ∷ 21 ∷ 6 ∷ 23 ∷ [] }
{}

/// The readers of node 3 in a row over all levels: two of the lowest, one of each above. The places
/// of their entries, what the ways to their leaders weigh, there and back, summed up, and the
/// places of the node's homes.
pub fn worked_rungs()
    ensures rungs { map (rung_past line_of_four 3 (rung_at 0 0)) (0 ∷ 1 ∷ 2 ∷ 3 ∷ [])
        ≡ rung_at 0 0 ∷ rung_at 0 1 ∷ rung_at 1 0 ∷ rung_at 2 0 ∷ [] }
    ensures places { map (entry_place line_of_four 3)
        (rung_at 0 0 ∷ rung_at 0 1 ∷ rung_at 1 0 ∷ rung_at 2 0 ∷ []) ≡ 4 ∷ 5 ∷ 6 ∷ 7 ∷ [] }
    ensures homes { map (home_place line_of_four 3) (0 ∷ 1 ∷ 2 ∷ []) ≡ 5 ∷ 6 ∷ 7 ∷ [] }
    ensures ways { map (ways_past line_of_four 3 (rung_at 0 0)) (0 ∷ 1 ∷ 2 ∷ 3 ∷ 4 ∷ [])
        ≡ 0 ∷ 6 ∷ 6 ∷ 12 ∷ 18 ∷ [] }
{}

/// The words of a tracker's table for three subscribers: the ticket word is the first; then come
/// four lock words, four tally words, and the cells by their numbers.
pub fn worked_words()
    ensures locks { map lock_word (0 ∷ 1 ∷ 3 ∷ []) ≡ 1 ∷ 2 ∷ 4 ∷ [] }
    ensures tallies { map (tally_word three_on_line) (0 ∷ 1 ∷ 3 ∷ []) ≡ 5 ∷ 6 ∷ 8 ∷ [] }
    ensures cells { map (cell_word three_on_line)
        (Presence 0 0 ∷ Presence 0 2 ∷ Presence 3 0 ∷ Entry 0 0 1 ∷ Entry 1 0 0 ∷ Entry 2 0 2 ∷ [])
        ≡ 9 ∷ 11 ∷ 18 ∷ 22 ∷ 27 ∷ 32 ∷ [] }
    ensures count { word_count three_on_line ≡ 33 }
{}
