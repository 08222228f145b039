//! Laws of orders: whose turn it is, and what it makes of the history.
ghost use Rattle.std.specs.Prelude.{All, List, Some, [], ℕ, ◌≡◌};
ghost use Rattle.directory.specs.Histories.{History};
ghost use Rattle.directory.specs.Orders.{IsDone, IsPlayed, Scripts, after_turns, history_of, next};
ghost use Rattle.directory.specs.Settings.{Setting};
ghost use Rattle.directory.specs.Statements.{DoneIsRest, DoneShowsScript, HistoriesAreOrdered, OrdersAreDone, OrdersArePlayed, OwnPutsAlone, PlayedIsLegal, RestKeepsOpening, ScriptsInOrder, TurnsAreFew, TurnsEndAlike, MoreIsPlayed, OrdersAreOwn};
ghost use Rattle.entry_word.specs.declared.visit.Visit.{Visit};

use entry_word::mark_words;

/// The next visit of an actor is its own.
pub fn next_is_own()
    ensures { (setting : Setting) (scripts : Scripts) (history : History) (actor : ℕ)
        (visit : Visit)
        → next setting scripts history actor ≡ Some visit → visit.actor ≡ actor }
{}

/// Each visit was its actor's next one, in the history of an order and of a part of one; and one
/// more next visit keeps that.
pub fn each_visit_is_next()
    ensures order { OrdersArePlayed }
    ensures part { (setting : Setting) (scripts : Scripts) (order : List ℕ)
        → IsPlayed setting scripts (after_turns setting scripts [] order) }
    ensures more { MoreIsPlayed }
{}

/// Turns of actors that are done change nothing.
pub fn idle_turns()
    ensures { (setting : Setting) (scripts : Scripts) (history : History) (idle : List ℕ)
        → All (IsDone setting scripts history) idle
        → after_turns setting scripts history idle ≡ history }
{}

/// An actor that isn't done has made fewer visits than it may, so that its turns until it is done
/// make what all that it may have make.
pub fn turns_are_few()
    ensures few { TurnsAreFew }
    ensures alike { TurnsEndAlike }
{}

/// At the end of an order all scripts are done, so that more turns change nothing.
pub fn all_scripts_done()
    ensures done { OrdersAreDone }
    ensures longer { (setting : Setting) (scripts : Scripts) (order more : List ℕ)
        → after_turns setting scripts (history_of setting scripts order) more
        ≡ history_of setting scripts order }
{}

/// A history in which each visit was its actor's next one is that of the order of its actors,
/// completed.
pub fn order_of_history()
    ensures completed { HistoriesAreOrdered }
    ensures done { OrdersAreOwn }
{}

/// A subscriber's own visits are the first of its script, in order, and all that is put into its
/// cells.
pub fn scripts_in_order()
    ensures script { ScriptsInOrder }
    ensures alone { OwnPutsAlone }
{}

/// Whatever the order, the history is legal for every subscriber.
pub fn every_order_is_legal()
    ensures { PlayedIsLegal }
{
    mark_words();
}

/// A subscriber whose script is done has nothing left to put, and its puts show all its steps.
pub fn done_is_rest()
    ensures rests { DoneIsRest }
    ensures shown { DoneShowsScript }
{
    mark_words();
}

/// Where nobody moves or switches, each cell holds its opening word.
pub fn rest_keeps_opening()
    ensures { RestKeepsOpening }
{}
