//! The line of four as a setting that tracks its subscriber, and finds on it in each phase of a move.
ghost use Rattle.std.specs.Prelude.{◌≡◌, ◌*◌, ◌++◌, [], ◌∷◌, Some, replicate};
ghost use Rattle.directory.specs.Courses.{move_to};
ghost use Rattle.directory.specs.Finds.{answer_of, find};
ghost use Rattle.directory.specs.Outcomes.{outcome_of};
ghost use Rattle.directory.specs.declared.answers.Done.TheVariants.{Moved, Found as FoundBy};
ghost use Rattle.directory.specs.declared.answers.Found.TheVariants.{At};
ghost use Rattle.plan_laws.specs.Examples.{line_scripts, line_setting};
ghost use Rattle.stretch_laws.specs.Tracking.{IsTracking, stretch};
ghost use Rattle.worked_examples.specs.Examples.{find_from};
ghost use Rattle.worked_examples.specs.Trails.{end_words};

use plan_laws::line_has_its_plan;
use stretch_laws::plans_track;

/// The line of four tracks its subscriber, with clusters 3 radii wide of which a node reads at
/// most 2 at a level: a quiet find travels at most 137 times its distance. The find from one end to
/// the other travels its distance.
pub fn line_tracks()
    ensures tracks { IsTracking line_setting 3 2 }
    ensures times { stretch 3 2 ≡ 137 }
    ensures travels { answer_of (find line_setting (find_from 0) end_words)
        ≡ Some (At 3 0 (Some 1) 3) }
    ensures distance { line_setting.distance 0 3 ≡ 3 }
{
    line_has_its_plan();
    plans_track();
}

/// A find from node 0 in each phase of a move: before the commit, by an old address and by the new
/// one; between commit and confirm; after the confirm, by the new address and by one that isn't
/// erased yet.
pub fn line_costs()
    ensures before_old { outcome_of line_setting (line_scripts (move_to 2 ∷ []) (find_from 0 ∷ []))
        (replicate 1 0 ++ replicate 4 1) ≡ record {
          calls = Moved 0 1 3 2 1 0 7 9 ∷ FoundBy 1 0 0 3 0 (Some 1) 3 1 4 ∷ [];
          order = replicate 1 0 ++ (replicate 4 1 ++ replicate 5 0);
        } }
    ensures before_new { outcome_of line_setting (line_scripts (move_to 2 ∷ []) (find_from 0 ∷ []))
        (replicate 2 0 ++ replicate 4 1) ≡ record {
          calls = Moved 0 1 3 2 1 0 7 9 ∷ FoundBy 1 0 0 3 0 (Some 0) 3 2 5 ∷ [];
          order = replicate 2 0 ++ (replicate 4 1 ++ replicate 4 0);
        } }
    ensures passage { outcome_of line_setting (line_scripts (move_to 2 ∷ []) (find_from 0 ∷ []))
        (replicate 4 0 ++ replicate 5 1) ≡ record {
          calls = Moved 0 1 3 2 1 0 3 10 ∷ FoundBy 1 0 0 2 1 (Some 0) 4 4 8 ∷ [];
          order = replicate 4 0 ++ (replicate 5 1 ++ replicate 2 0);
        } }
    ensures after_new { outcome_of line_setting (line_scripts (move_to 2 ∷ []) (find_from 0 ∷ []))
        (replicate 5 0 ++ replicate 3 1) ≡ record {
          calls = Moved 0 1 3 2 1 0 3 8 ∷ FoundBy 1 0 0 2 1 (Some 0) 2 5 7 ∷ [];
          order = replicate 5 0 ++ (replicate 3 1 ++ replicate 1 0);
        } }
    ensures after_old { outcome_of line_setting
        (line_scripts (move_to 2 ∷ move_to 3 ∷ []) (find_from 0 ∷ []))
        (replicate 12 0 ++ replicate 4 1) ≡ record {
          calls = Moved 0 1 3 2 1 0 3 5 ∷ Moved 0 2 2 3 1 6 10 17
              ∷ FoundBy 1 0 0 3 2 (Some 0) 3 12 15 ∷ [];
          order = replicate 12 0 ++ (replicate 4 1 ++ replicate 2 0);
        } }
{}
