//! What holds of every call. Each public function is a law, and does nothing.
ghost use Rattle.std.specs.Prelude.{◌≡◌, ◌<◌, ◌+◌, ◌-◌, ◌*◌, All, List, length, ℕ};
ghost use Rattle.busy_finds.specs.PricedOutcomes.{IsLinePriced};
ghost use Rattle.directory.specs.Census.{census};
ghost use Rattle.move_cost.specs.Costs.{cost_lines};
ghost use Rattle.move_cost.specs.Rate.{IsWithinRate};
ghost use Rattle.net_reader.specs.Input.{Contents};
ghost use Rattle.own_stretch.specs.Plans.{BoundWeights};
ghost use Rattle.region_plan.specs.Matched.{BoundsFinds, HasFewReaders, HasSmallSum};
ghost use Rattle.region_plan.specs.Plan.{PlanData, levels_of};
ghost use Rattle.report_check.specs.declared.verdict.Verdict.TheVariants.{Sound};
ghost use Rattle.report_text.specs.ReportText.{report_of};
ghost use Rattle.scripts.specs.Scripts.{scripts_of};
ghost use Rattle.stretch_laws.specs.NearOutcomes.{IsLineWithin};
ghost use Rattle.stretch_laws.specs.Plans.{bound_of};
ghost use Rattle.trail_laws.specs.Censuses.{IsCounted, who_ends_at};
ghost use Rattle.trail_laws.specs.RightOutcomes.{IsRightLine, TellInTurn, TellRisingNumbers};
ghost use Rattle.word_line.specs.declared.command.Command.TheVariants.{Census, Costs, Cover, MeanCover, MeanReplay, MeanStretch, Replay, ReplayJson, Run, Stretch};
ghost use Rattle.track.specs.Laws.{BytesHaveOneText, IsComplete, IsCompleteAlone, RunsAreReplayed};
ghost use Rattle.report_check.specs.Inputs.{plan_for};
ghost use Rattle.track.specs.Results.{IsCensusText, IsCostText, IsMeanPlanText, IsPlanText, IsReport, IsReportJson, IsReportOver, IsResult, IsRunReport, IsStretchText};
ghost use Rattle.track.specs.Results.{history_for, in_order, mean_plan_for, outcome_for, setting_for, stretches_over, verdict_for};

use json_form::one_text;
use net_reader::text_says_one;

/// To a command that is served without threads, bytes have one text and one status only.
pub fn bytes_have_one_text()
    ensures { BytesHaveOneText }
{
    one_text();
    text_says_one();
}

/// Where the bytes say an input, not too long, and nothing failed, the whole text was written, or
/// memory was wanting; and so it is to a command that reads nothing.
pub fn complete()
    ensures input { IsComplete }
    ensures alone { IsCompleteAlone }
{
    one_text();
    text_says_one();
}

/// The text of a run is the report of one order, which it prints whole, and the replay of the same
/// input with that order has the same text.
pub fn runs_are_replayed()
    ensures { RunsAreReplayed }
{
    text_says_one();
}

/// What a report tells: its lines are right, of answers about one subscriber later ones tell no
/// lower numbers, a caller's finds come in turn, quiet finds have near answers, every find is
/// within its price, and the checker of reports finds no flaw.
pub fn reports_tell()
    ensures right { (contents : Contents) (text : List ℕ) → IsReport contents text
        → All (IsRightLine (setting_for contents) (history_for contents))
        (outcome_for contents).calls }
    ensures rising { (contents : Contents) (text : List ℕ) → IsReport contents text
        → TellRisingNumbers (outcome_for contents).calls }
    ensures in_turn { (contents : Contents) (text : List ℕ) → IsReport contents text
        → TellInTurn (outcome_for contents).calls }
    ensures near { (contents : Contents) (text : List ℕ) → IsReport contents text
        → All (IsLineWithin (bound_of (plan_for contents)) (setting_for contents)
        (history_for contents)) (outcome_for contents).calls }
    ensures priced { (contents : Contents) (text : List ℕ) → IsReport contents text
        → All (IsLinePriced (bound_of (plan_for contents)) (setting_for contents)
        (history_for contents)) (outcome_for contents).calls }
    ensures sound { (contents : Contents) (text : List ℕ) → IsReport contents text
        → verdict_for contents text ≡ Sound }
{}

/// What the texts of other commands tell: a plan bounds its finds and is sparse; one over mean
/// covers has its reach, bounds its finds and is small in the sum; a census lists whom the scripts
/// leave at a node, each just where it stands; costs are within the rate; a report as JSON is that
/// of a report; and the report of a run is one under some order, in which the checker finds no
/// flaw. What each command makes of an input is such a text.
pub fn texts_tell()
    ensures bounding { (contents : Contents) (text : List ℕ) → IsPlanText contents text
        → BoundsFinds (plan_for contents) }
    ensures sparse { (contents : Contents) (text : List ℕ) → IsPlanText contents text
        → HasFewReaders (plan_for contents) }
    ensures mean_reach { (contents : Contents) (text : List ℕ) → IsMeanPlanText contents text
        → (mean_plan_for contents).reach ≡ 2 * contents.k + 1 }
    ensures mean_bounding { (contents : Contents) (text : List ℕ) → IsMeanPlanText contents text
        → BoundsFinds (mean_plan_for contents) }
    ensures mean_small_sum { (contents : Contents) (text : List ℕ) → IsMeanPlanText contents text
        → HasSmallSum (mean_plan_for contents) }
    ensures census_by_scripts { (contents : Contents) (text : List ℕ) → IsCensusText contents text
        → (node : ℕ) → node < contents.nodes
        → census (setting_for contents) (history_for contents) node
        ≡ who_ends_at contents.homes (scripts_of contents) node }
    ensures census_right { (contents : Contents) (text : List ℕ) → IsCensusText contents text
        → (sub node : ℕ) → sub < length contents.homes → node < contents.nodes
        → IsCounted (setting_for contents) (history_for contents) sub node }
    ensures costs_within { (contents : Contents) (text : List ℕ) → IsCostText contents text
        → All (IsWithinRate (2 * contents.k - 1) (levels_of (plan_for contents)))
        (cost_lines (setting_for contents) (scripts_of contents)) }
    ensures json_report { (contents : Contents) (text : List ℕ) → IsReportJson contents text
        → IsReport contents (report_of (outcome_for contents)) }
    ensures run_sound { (contents : Contents) (text : List ℕ) → IsRunReport contents text
        → verdict_for contents text ≡ Sound }
    ensures run_report { (contents : Contents) (text : List ℕ) → IsRunReport contents text
        → (order : List ℕ) × IsReport (in_order contents order) text }
    ensures replay { (contents : Contents) (text : List ℕ) → IsResult Replay contents text
        → IsReport contents text }
    ensures mean_replay { (contents : Contents) (text : List ℕ)
        → IsResult MeanReplay contents text
        → IsReportOver (mean_plan_for contents) contents text }
    ensures census { (contents : Contents) (text : List ℕ) → IsResult Census contents text
        → IsCensusText contents text }
    ensures costs { (contents : Contents) (text : List ℕ) → IsResult Costs contents text
        → IsCostText contents text }
    ensures replay_json { (contents : Contents) (text : List ℕ)
        → IsResult ReplayJson contents text → IsReportJson contents text }
    ensures cover { (contents : Contents) (text : List ℕ) → IsResult Cover contents text
        → IsPlanText contents text }
    ensures mean_cover { (contents : Contents) (text : List ℕ)
        → IsResult MeanCover contents text → IsMeanPlanText contents text }
    ensures run { (contents : Contents) (text : List ℕ) → IsResult Run contents text
        → IsRunReport contents text }
{}

/// What the text of a plan's stretches tells: its own ones bound the weight of finds over it. Such a
/// text is made of an input over either kind of covers.
pub fn stretches_tell()
    ensures bound { (plan : PlanData) (contents : Contents) (text : List ℕ)
        → IsStretchText plan contents text
        → BoundWeights plan contents.homes (stretches_over plan contents).own
        (stretches_over plan contents).any }
    ensures stretch { (contents : Contents) (text : List ℕ) → IsResult Stretch contents text
        → IsStretchText (plan_for contents) contents text }
    ensures mean_stretch { (contents : Contents) (text : List ℕ)
        → IsResult MeanStretch contents text
        → IsStretchText (mean_plan_for contents) contents text }
{}
