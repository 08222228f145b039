//! What commands make of the line of four, computed; what a trial tells; and the lines that refuse
//! bytes that are no JSON of an input.
ghost use Rattle.std.specs.Prelude.{◌≡◌, ◌++◌, [], ◌∷◌, List, Some, codes, ℕ};
ghost use Rattle.outside.specs.Texts.{◌then◌};
ghost use Rattle.directory.specs.declared.answers.Done.TheVariants.{Moved};
ghost use Rattle.json_form.specs.Reports.{report_json_of};
ghost use Rattle.json_form.specs.TextOfJson.{IsNoJson, IsShapeless};
ghost use Rattle.net_reader.specs.declared.said.Call.TheVariants.{Move};
ghost use Rattle.plan_laws.specs.Examples.{line_of_four, mean_line_of_four};
ghost use Rattle.report_text.specs.PlanText.{plan_text_of};
ghost use Rattle.report_text.specs.ReportText.{report_of};
ghost use Rattle.word_line.specs.declared.command.Command.TheVariants.{Census, Costs, Cover, FromJson, MeanCover, MeanReplay, Replay, ReplayJson, Stretch, Trial};
ghost use Rattle.track.specs.declared.status.Status.{Status};
ghost use Rattle.track.specs.Examples.{line_input};
ghost use Rattle.track.specs.Results.{IsResult, IsText, text_alone};

use json_form::one_text;
use own_stretch::{line_of_stretches, line_stretches};
use plan_laws::{line_has_its_mean_plan, line_has_its_plan};

/// The plan of the line and its plan over mean covers; the report of a move, over either; and the
/// same as JSON.
pub fn told_results()
    ensures cover { (text : List ℕ) → IsResult Cover (line_input []) text
        → text ≡ plan_text_of line_of_four }
    ensures mean_cover { (text : List ℕ) → IsResult MeanCover (line_input []) text
        → text ≡ plan_text_of mean_line_of_four }
    ensures replay { (text : List ℕ) → IsResult Replay (line_input (Move 2 ∷ [])) text
        → text ≡ report_of (record {
          calls = Moved 0 1 3 2 1 0 3 5 ∷ [];
          order = 0 ∷ 0 ∷ 0 ∷ 0 ∷ 0 ∷ 0 ∷ [];
        }) }
    ensures mean_replay { (text : List ℕ) → IsResult MeanReplay (line_input (Move 2 ∷ [])) text
        → text ≡ report_of (record {
          calls = Moved 0 1 3 2 1 0 3 5 ∷ [];
          order = 0 ∷ 0 ∷ 0 ∷ 0 ∷ 0 ∷ 0 ∷ [];
        }) }
    ensures replay_json { (text : List ℕ) → IsResult ReplayJson (line_input (Move 2 ∷ [])) text
        → text ≡ report_json_of (record {
          calls = Moved 0 1 3 2 1 0 3 5 ∷ [];
          order = 0 ∷ 0 ∷ 0 ∷ 0 ∷ 0 ∷ 0 ∷ [];
        }) }
{
    line_has_its_plan();
    line_has_its_mean_plan();
}

/// Who is where at the end of two moves, at the last node too; what a move costs; and the sums of a
/// load without calls.
pub fn told_sums()
    ensures census { (text : List ℕ)
        → IsResult Census (line_input (Move 2 ∷ Move 3 ∷ [])) text
        → text ≡ (codes "node 3 count 1 subs 0" ++ 10 ∷ []) then (codes "end 1" ++ 10 ∷ []) }
    ensures costs { (text : List ℕ) → IsResult Costs (line_input (Move 2 ∷ [])) text
        → text ≡ (codes "cost 0 moves 1 moved 1 written 12 purged 0" ++ 10 ∷ [])
        then (codes "end" ++ 10 ∷ []) }
    ensures trial { text_alone
        (Trial (record { start = 0; nodes = 1; k = 1; subs = 1; callers = 0; calls = 0 }))
        ≡ Some (codes "summary moves 0 moved 0 finds 0 again 0 travelled 0 visits 0" ++ 10 ∷ []) }
{
    line_has_its_plan();
}

/// The stretches of the line's plan.
pub fn told_stretches()
    ensures { (text : List ℕ) → IsResult Stretch (line_input []) text
        → text ≡ codes "stretch 144 own 14 any 27" ++ 10 ∷ [] }
{
    line_has_its_plan();
    line_of_stretches();
    line_stretches();
}

/// Bytes that are no JSON, and JSON without the shape of an input, are each refused by their line.
pub fn told_refusals()
    ensures no_json { (bytes text : List ℕ) (status : Status) → IsNoJson bytes
        → IsText FromJson bytes status text → text ≡ codes "refused 0 json" ++ 10 ∷ [] }
    ensures no_shape { (bytes text : List ℕ) (status : Status) → IsShapeless bytes
        → IsText FromJson bytes status text → text ≡ codes "refused 0 shape" ++ 10 ∷ [] }
{
    one_text();
}
