//! Laws of legal puts.
ghost use Rattle.std.specs.Prelude.{List, ℕ};
ghost use Rattle.directory.specs.Legal.{ArePuts};
ghost use Rattle.directory.specs.Settings.{Setting};
ghost use Rattle.directory.specs.Statements.{BeginningIsLegal, DueIsLegal, FrontsAreLegal, LegalIsAmid, NextIsDecided, ScriptsAreLegal, StepsBeginAtRest};
ghost use Rattle.entry_word.specs.declared.visit.Visit.{Visit};

use entry_word::mark_words;

/// Being legal has one proof at most.
pub fn legal_is_one()
    ensures { (setting : Setting) (sub : ℕ) (puts : List Visit)
        → IsProp (ArePuts setting sub puts) }
{}

/// A front of legal puts is legal.
pub fn front_is_legal()
    ensures { FrontsAreLegal }
{
    mark_words();
}

/// The first visits of steps that a subscriber may make are legal, however many they are.
pub fn script_is_legal()
    ensures { ScriptsAreLegal }
{
    mark_words();
}

/// Which put may come next: that of the step under way, and at rest the first of a step that may
/// come.
pub fn legal_next()
    ensures due { DueIsLegal }
    ensures begins { BeginningIsLegal }
{
    mark_words();
}

/// While a step isn't done, the puts so far decide on the next one.
pub fn next_is_decided()
    ensures { NextIsDecided }
{}

/// Legal puts have done the steps that they begin, but for the last, of which so many writes are
/// made.
pub fn legal_is_amid()
    ensures { LegalIsAmid }
{
    mark_words();
}

/// A put that begins a step comes where the steps before are done.
pub fn steps_begin_at_rest()
    ensures { StepsBeginAtRest }
{
    mark_words();
}
