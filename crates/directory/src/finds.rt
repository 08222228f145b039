//! Laws of finds.
ghost use Rattle.std.specs.Prelude.{List, Option, fold, length, ℕ, ◌++◌, ◌+◌, ◌≡◌, ◌≤◌};
ghost use Rattle.directory.specs.Finds.{FindCall, Reader, Pursuit, after_word, chases, climb, ended, looks_left};
ghost use Rattle.directory.specs.Histories.{History, tickets};
ghost use Rattle.directory.specs.Looks.{AreLooks};
ghost use Rattle.directory.specs.Parts.{AreNothing, LeadOn, climb_weight};
ghost use Rattle.directory.specs.Settings.{Setting};
ghost use Rattle.directory.specs.declared.answers.Found.{Found};
ghost use Rattle.directory.specs.Statements.{LooksFall};

/// More words change no answer.
pub fn ended_stays()
    ensures { (setting : Setting) (call : FindCall) (found : Found) (words : List ℕ)
        → fold (after_word setting call) (ended found) words ≡ ended found }
{}

/// Each look of a find leaves fewer.
pub fn looks_fall()
    ensures { LooksFall }
{}

/// So no find is longer than its most looks.
pub fn finds_are_short()
    ensures { (setting : Setting) (history : History) (actor : ℕ) (call : FindCall) (earliest : ℕ)
        (pursuit : Pursuit) (tickets : List ℕ)
        → AreLooks setting history actor call earliest pursuit tickets
        → length tickets ≤ looks_left setting call pursuit }
{}

/// The climb and the chase of a find: looks that find nothing, and looks that lead on.
pub fn parts_of_find()
    ensures climb { (setting : Setting) (call : FindCall) (known : Option ℕ) (weight : ℕ)
        (passed later : List Reader) (words : List ℕ) → length words ≡ length passed
        → AreNothing words
        → fold (after_word setting call) (climb known weight (passed ++ later)) words
        ≡ climb known (weight + climb_weight setting call passed) later }
    ensures chase { (setting : Setting) (call : FindCall) (known last_known level : Option ℕ)
        (weight way hops node last : ℕ) (words : List ℕ)
        → LeadOn setting known node words last_known last way
        → fold (after_word setting call) (chases (record {
          known = known;
          level = level;
          weight = weight;
          hops_left = length words + hops;
        }) node) words
        ≡ chases (record {
          known = last_known;
          level = level;
          weight = weight + way;
          hops_left = hops;
        }) last }
{}
