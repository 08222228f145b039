//! Laws of where a subscriber stands.
ghost use Rattle.std.specs.Prelude.{List, [], cond, ℕ, ◌++◌, ◌∷◌, ◌≡◌};
ghost use Rattle.directory.specs.Census.{census};
ghost use Rattle.directory.specs.Histories.{History, cell, is_put_for, puts_to};
ghost use Rattle.directory.specs.Puts.{mark_put, node_put};
ghost use Rattle.directory.specs.Settings.{Setting, start};
ghost use Rattle.directory.specs.Standing.{Commit, commit_of, commits, confirms, passage, standing};
ghost use Rattle.directory.specs.Statements.{CommitsAreMoves, StandsAtStop, CensusIsMark};
ghost use Rattle.entry_word.specs.declared.visit.Visit.{Visit};
ghost use Rattle.std.specs.List.{cons_option, list_any};

use entry_word::mark_words;

/// A commit of a subscriber is listed, and nothing else is.
pub fn commits_after()
    ensures { (sub : ℕ) (history : History) (visit : Visit) → commits sub (history ++ visit ∷ [])
        ≡ commits sub history ++ cond (is_put_for sub visit.act)
        (cons_option (commit_of (node_put visit.act) (mark_put visit.act)) []) [] }
{}

/// The last commit tells where a subscriber stands, and which passage is open until a put confirms
/// it; before any commit it stands at its start node.
pub fn last_commit_tells()
    ensures start { (setting : Setting) (sub : ℕ) (history : History) → commits sub history ≡ []
        → standing setting sub history ≡ start setting sub }
    ensures stands { (setting : Setting) (sub : ℕ) (history : History) (earlier : List Commit)
        (last : Commit)
        → commits sub history ≡ earlier ++ last ∷ [] → standing setting sub history ≡ last.to }
    ensures closed { (setting : Setting) (sub : ℕ) (history : History) → commits sub history ≡ []
        → passage setting sub history ≡ 0 }
    ensures passage { (setting : Setting) (sub : ℕ) (history : History) (earlier : List Commit)
        (last : Commit)
        → commits sub history ≡ earlier ++ last ∷ [] → passage setting sub history
        ≡ cond (list_any (λ visit. confirms last (node_put visit.act) (mark_put visit.act))
        (puts_to sub history)) 0 (setting.distance last.from last.to) }
{}

/// The commits of a legal history are the first moves of its course, so that a subscriber stands at
/// the stop with its number.
pub fn commits_are_moves()
    ensures commits { CommitsAreMoves }
    ensures stands { StandsAtStop }
{
    mark_words();
}

/// A census lists just the subscribers whose presence cell at the node says that they are here.
pub fn census_members()
    ensures { CensusIsMark }
{}
