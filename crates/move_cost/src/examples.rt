//! Worked examples, computed: what moves on the line of four nodes cost, and how it is told. And
//! what the laws of moves say of some of them, by number.
ghost use Rattle.std.specs.Prelude.{◌≡◌, ◌+◌, ◌++◌, [], ◌∷◌, None, codes, count_by, filter, length, ℕ};
ghost use Rattle.outside.specs.Texts.{◌then◌};
ghost use Rattle.directory.specs.Courses.{Course, last_stop, move_to, next_move, switch_off, switch_on};
ghost use Rattle.directory.specs.Settings.{Setting};
ghost use Rattle.directory.specs.Writes.{entry_at, old_home, purge_writes, step_writes};
ghost use Rattle.plan_laws.specs.Examples.{line_scripts, line_setting};
ghost use Rattle.move_cost.specs.CostText.{costs_text_of};
ghost use Rattle.move_cost.specs.Costs.{cost_lines, erased_levels, is_erasure, is_purge, step_weight};
ghost use Rattle.move_cost.specs.Pace.{ErasuresAreWritten, IsPaced, MoveWeighs, PurgesAreCounted};
ghost use Rattle.move_cost.specs.Rate.{writing_rate};

use crate::laws::plans_are_paced;
use plan_laws::line_has_its_plan;

/// What the moves of a subscriber at the end of the line cost: a move that erases its old address;
/// a second one that purges the trail; a far one that does both at once; there and back; and
/// switches, which cost nothing. Of two subscribers, each is told with its own steps and start. And
/// where clusters wind, an address is brought by the way inside, and erased from outside.
pub fn example_costs()
    ensures erases { cost_lines line_setting (line_scripts (move_to 2 ∷ []) [])
        ≡ record { sub = 0; moves = 1; moved = 1; written = 12; purged = 0 } ∷ [] }
    ensures purges { cost_lines line_setting (line_scripts (move_to 2 ∷ move_to 0 ∷ []) [])
        ≡ record { sub = 0; moves = 2; moved = 3; written = 16; purged = 2 } ∷ [] }
    ensures both { cost_lines line_setting (line_scripts (move_to 0 ∷ []) [])
        ≡ record { sub = 0; moves = 1; moved = 3; written = 12; purged = 1 } ∷ [] }
    ensures back { cost_lines line_setting (line_scripts (move_to 2 ∷ move_to 3 ∷ []) [])
        ≡ record { sub = 0; moves = 2; moved = 2; written = 32; purged = 1 } ∷ [] }
    ensures switches { cost_lines line_setting (line_scripts (switch_off ∷ switch_on ∷ []) [])
        ≡ record { sub = 0; moves = 0; moved = 0; written = 0; purged = 0 } ∷ [] }
    ensures two { cost_lines (record line_setting { starts = 3 ∷ 0 ∷ [] })
        (record { steps = (move_to 2 ∷ []) ∷ (move_to 3 ∷ switch_off ∷ []) ∷ []; finds = [] })
        ≡ record { sub = 0; moves = 1; moved = 1; written = 12; purged = 0 }
        ∷ record { sub = 1; moves = 1; moved = 3; written = 24; purged = 1 } ∷ [] }
    ensures winding { cost_lines (record line_setting { inside = λ level cluster node. 10 + node })
        (line_scripts (move_to 2 ∷ []) [])
        ≡ record { sub = 0; moves = 1; moved = 1; written = 52; purged = 0 } ∷ [] }
{}

/// What the laws of moves say by number: of a move by 3 that renews level 0 alone, 2 from the
/// leader of its home there, and erases nothing; of one that purges two marks; of one that erases
/// no address; and of one that erases that of one level.
pub fn example_moves()
    ensures weighs { MoveWeighs → (setting : Setting) (course : Course) (node : ℕ)
        → setting.distance (last_stop course) node ≡ 3
        → (next_move setting course node).renewed ≡ 0
        → setting.inside 0 (setting.home 0 node) node ≡ 2
        → erased_levels setting course (next_move setting course node) ≡ []
        → step_weight setting course (move_to node) ≡ 10 }
    ensures purges { PurgesAreCounted → (setting : Setting) (course : Course) (node : ℕ)
        → length (purge_writes setting course (next_move setting course node)) ≡ 2
        → count_by is_purge (step_writes setting course (move_to node)) ≡ 2 }
    ensures none { ErasuresAreWritten → (setting : Setting) (course : Course) (node : ℕ)
        → erased_levels setting course (next_move setting course node) ≡ []
        → filter is_erasure (step_writes setting course (move_to node)) ≡ [] }
    ensures one { ErasuresAreWritten → (setting : Setting) (course : Course) (node level : ℕ)
        → erased_levels setting course (next_move setting course node) ≡ level ∷ []
        → filter is_erasure (step_writes setting course (move_to node))
        ≡ entry_at level (old_home setting course level) None ∷ [] }
{}

/// The line of four is renewed at the pace that the bound asks for, with clusters 3 radii wide: a
/// subscriber writes at most 156 times how far it goes.
pub fn example_pace()
    ensures paced { IsPaced line_setting 3 }
    ensures rate { writing_rate 3 3 ≡ 156 }
{
    line_has_its_plan();
    plans_are_paced();
}

/// Texts, of no subscriber and of two.
pub fn example_texts()
    ensures nobody { costs_text_of [] ≡ codes "end" ++ 10 ∷ [] }
    ensures two { costs_text_of
        (record { sub = 0; moves = 1; moved = 1; written = 12; purged = 0 }
        ∷ record { sub = 1; moves = 98; moved = 765; written = 4321; purged = 10 } ∷ [])
        ≡ codes "cost 0 moves 1 moved 1 written 12 purged 0"
        then 10 ∷ codes "cost 1 moves 98 moved 765 written 4321 purged 10"
        then 10 ∷ codes "end" then 10 ∷ [] }
{}
