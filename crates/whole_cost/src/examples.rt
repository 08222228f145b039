//! An example that meets what the laws ask, and bounds that leave a part out.
ghost use Rattle.std.specs.Prelude.{◌≡◌, ◌+◌, ◌*◌, ◌≤◌, [], ◌∷◌, length, List};
ghost use Rattle.busy_finds.specs.Altogether.{MadeFind};
ghost use Rattle.directory.specs.Histories.{History, before};
ghost use Rattle.directory.specs.Legal.{IsLegal};
ghost use Rattle.directory.specs.Orders.{history_of};
ghost use Rattle.directory.specs.Settings.{levels};
ghost use Rattle.plan_laws.specs.Examples.{line_setting};
ghost use Rattle.whole_cost.specs.Examples.{find_at_rest, run_callers, run_history, run_order, run_scripts};
ghost use Rattle.whole_cost.specs.WholeRuns.{AreMade, distance_by_all, most_in_all, passages_by_all, way_in, weigh_by_all, written_in};

/// A run on the line of four: its three finds weigh 7, at distances of 5 in all and with a passage
/// of 1 open before one of them; the move goes 1 and writes 12. Together they weigh 19, and by the
/// bound 144 * 5 + (2 * 144 + 16 * 3 + 4) * 3 * 1 + 2 * 1 = 1742 at most. Without the part for what
/// is written the bound is false of that run with no callers, and without the distances it is of
/// the first find by itself.
pub fn line_run()
    ensures order { history_of line_setting run_scripts run_order ≡ run_history }
    ensures legal { IsLegal line_setting 0 run_history }
    ensures made { AreMade line_setting run_history 0 run_callers }
    ensures finds { weigh_by_all run_callers ≡ 7 }
    ensures distances { distance_by_all line_setting run_history run_callers ≡ 5 }
    ensures passages { passages_by_all line_setting run_history run_callers ≡ 1 }
    ensures way { way_in line_setting 0 run_history ≡ 1 }
    ensures writes { written_in line_setting 0 run_history ≡ 12 }
    ensures most { most_in_all 144 3 line_setting run_history 0 run_callers ≡ 1742 }
    ensures unwritten { ((history : History) (callers : List (List MadeFind))
        → IsLegal line_setting 0 history → AreMade line_setting history 0 callers
        → weigh_by_all callers + written_in line_setting 0 history
        ≤ 144 * distance_by_all line_setting history callers
        + length callers * 144 * (levels line_setting * way_in line_setting 0 history)
        + 2 * passages_by_all line_setting history callers) → ⊥ }
    ensures no_distance { ((history : History) (callers : List (List MadeFind))
        → IsLegal line_setting 0 history → AreMade line_setting history 0 callers
        → weigh_by_all callers + written_in line_setting 0 history
        ≤ (length callers * 144 + 52) * (levels line_setting * way_in line_setting 0 history)
        + 2 * passages_by_all line_setting history callers) → ⊥ }
{}
