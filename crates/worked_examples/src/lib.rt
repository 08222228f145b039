//! Worked examples of the directory, computed from its definitions over the plan of the line of
//! four nodes. A definition that says something else is refused here.
#![tactic(auto)]

mod bounds;
mod calls;
mod cells;
mod censuses;
mod chases;
mod closing;
mod costs;
mod covers;
mod faults;
mod finds;
mod grammar;
mod handsets;
mod made;
mod marks;
mod moments;
mod moves;
mod nexts;
mod orders;
mod others;
mod passes;
mod plans;
mod powers;
mod puts;
mod readings;
mod refusals;
mod rules;
mod texts;
mod tracks;
mod trails;
mod trees;
mod valid;
mod whole;
mod words;
mod wrong;

pub use bounds::{worked_bounds, worked_callers, worked_rooms};
pub use calls::{
    wrong_additions, wrong_answers, wrong_finds, wrong_steps, wrong_stops, wrong_weights,
};
pub use cells::{worked_cells, worked_rungs, worked_words};
pub use censuses::worked_censuses;
pub use chases::{worked_chases, wrong_chases};
pub use closing::{wrong_causes, wrong_orders};
pub use costs::{
    short_ways, worked_climbs, worked_costs, worked_meetings, wrong_costs, wrong_rates,
};
pub use covers::{worked_spares, wrong_distances, wrong_homes, wrong_phases, wrong_tree_faults};
pub use faults::{worked_move_faults, worked_switch_faults, wrong_find_faults, wrong_move_faults};
pub use finds::{worked_finds, worked_parts, wrong_parts};
pub use grammar::{
    worked_apart, worked_bytes, worked_calls, worked_limits, worked_lines, worked_places,
};
pub use handsets::told_handsets;
pub use made::worked_made;
pub use marks::{worked_comings, worked_marks};
pub use moments::{told_moments, wrong_losses};
pub use moves::{worked_moves, wrong_moves};
pub use nexts::{worked_nexts, worked_stops, worked_ways};
pub use orders::{worked_orders, wrong_made};
pub use others::worked_others;
pub use passes::{
    worked_bits, wrong_censuses, wrong_held, wrong_notes, wrong_passes, wrong_stays, wrong_turns,
};
pub use plans::{worked_levels, worked_measures, wrong_matches, wrong_overlaps, wrong_plans};
pub use powers::worked_powers;
pub use puts::worked_puts;
pub use readings::worked_readings;
pub use refusals::{has_own_room, order_or_tracker, play_openly, readable_load, worker_or_pass};
pub use rules::{told_tickets, wrong_logs, wrong_moments, wrong_views};
pub use texts::{worked_causes, worked_json, worked_plan_lines, worked_plan_text, worked_shapes};
pub use tracks::{line_costs, line_tracks};
pub use trails::{worked_counts, worked_phases, worked_trails, wrong_numbers};
pub use trees::{worked_parents, wrong_graphs, wrong_parents};
pub use valid::worked_scripts;
pub use whole::{whole_finds, whole_steps};
pub use words::{worked_loads, worked_names, worked_numbers};
pub use wrong::wrong_lines;
