//! The directory: what it is, and the laws of its definitions. Each public function but the types'
//! own is a law, and does nothing.
#![tactic(auto)]

mod answers;
mod courses;
mod finds;
mod histories;
mod legal;
mod orders;
mod outcomes;
mod standing;
mod states;

pub use answers::{Done, FindLine, Found, Outcome, Why};
pub use courses::{
    base_after, levels_after_move, moves_are_short, moves_that_may_come, writes_joined,
};
pub use finds::{ended_stays, finds_are_short, looks_fall, parts_of_find};
pub use histories::{
    cell_after, cell_of_puts, histories_begin, own_after, same_key_means, tickets_tell,
};
pub use legal::{
    front_is_legal, legal_is_amid, legal_is_one, legal_next, next_is_decided, script_is_legal,
    steps_begin_at_rest,
};
pub use orders::{
    all_scripts_done, done_is_rest, each_visit_is_next, every_order_is_legal, idle_turns,
    next_is_own, order_of_history, rest_keeps_opening, scripts_in_order, turns_are_few,
};
pub use outcomes::{lines_are_made, lines_grow};
pub use standing::{census_members, commits_after, commits_are_moves, last_commit_tells};
pub use states::{cells_of_legal, read_of_legal, told_by_writes, writes_are_small};
