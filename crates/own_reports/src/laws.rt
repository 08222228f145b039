//! The laws of the directory's own reports.
ghost use Rattle.own_reports.specs.Reports.{OutcomesHaveForm, OwnReportsAreSound, PlacesAreTold, TicketsAreTold};
ghost use Rattle.own_reports.specs.SoundTexts.{OwnReportsAreSoundTexts};

use directory::{
    all_scripts_done, done_is_rest, each_visit_is_next, every_order_is_legal, lines_are_made,
    lines_grow, looks_fall, next_is_own, own_after, scripts_in_order, tickets_tell, told_by_writes,
    writes_are_small,
};
use entry_word::mark_words;
use region_plan::{plan_is_bounding, plan_is_sparse, plan_means};
use report_check::reports_are_read;
use scripts::{scripts_are_valid, visits_are_few};
use stretch_laws::{plan_outcomes_are_near, plans_track};
use trail_laws::{entries_tell, marks_tell, outcomes_are_right};

/// Under every order each call of a valid input has its tickets, and no ticket is left over.
pub fn tickets_are_told()
    ensures { TicketsAreTold }
{
    all_scripts_done();
    each_visit_is_next();
    lines_are_made();
    lines_grow();
    scripts_in_order();
    scripts_are_valid();
    tickets_tell();
}

/// Under every order each find of a valid input keeps what is asked of its place, of what is to be
/// made again, and of its weight.
pub fn places_are_told()
    ensures { PlacesAreTold }
{
    all_scripts_done();
    done_is_rest();
    each_visit_is_next();
    every_order_is_legal();
    lines_are_made();
    lines_grow();
    mark_words();
    outcomes_are_right();
    plan_is_bounding();
    plan_means();
    plan_outcomes_are_near();
    plans_track();
    scripts_are_valid();
    scripts_in_order();
    tickets_tell();
    told_by_writes();
    writes_are_small();
}

/// Under every order the outcome of a valid input has the form that the checker reads.
pub fn outcomes_have_form()
    ensures { OutcomesHaveForm }
{
    all_scripts_done();
    done_is_rest();
    each_visit_is_next();
    entries_tell();
    every_order_is_legal();
    lines_are_made();
    looks_fall();
    mark_words();
    marks_tell();
    outcomes_are_right();
    plan_is_bounding();
    plan_is_sparse();
    plan_means();
    plan_outcomes_are_near();
    plans_track();
    scripts_are_valid();
    scripts_in_order();
    tickets_tell();
    told_by_writes();
    visits_are_few();
    writes_are_small();
}

/// What the directory reports of a valid input is sound, under every order.
pub fn own_reports_are_sound()
    ensures { OwnReportsAreSound }
{
    outcomes_have_form();
    places_are_told();
    plan_is_bounding();
    plan_is_sparse();
    plan_means();
    plans_track();
    reports_are_read();
    tickets_are_told();
}

/// What the directory reports of a valid input is a sound text, under every order: each line is
/// that of a call, tickets fall into runs, answers name places, finds that are to be made again met
/// a move, weights are within what is promised, and the order is the one that was given, completed.
pub fn own_reports_are_sound_texts()
    ensures { OwnReportsAreSoundTexts }
{
    all_scripts_done();
    each_visit_is_next();
    lines_grow();
    next_is_own();
    own_after();
    places_are_told();
    plan_is_sparse();
    plan_means();
    scripts_are_valid();
    scripts_in_order();
}
