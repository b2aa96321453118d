//! What is due: the values that the state of the machine fixes for the fields of an entry
//! (docs/rules/lanes.md, docs/rules/legality.md). Nothing changes by it.
#![tactic(auto)]

mod answers;
mod ends;
mod figures;
mod leaving;
mod readers;
mod rows;
mod turns;

pub use answers::{ask_due, cpu_of_place, kick_due, leaves_instead, reply_due};
pub use ends::unserved;
pub use figures::{decision_among, entries_at, figs_named, newest, target_among};
pub use leaving::{Out, ids_in_hand, out_of_queue};
pub use readers::{all_rest, first_pending, has_owed, has_pending, is_rest, push_is_due, queue_of};
pub use rows::{is_in, is_undeclared, ticked_elsewhere};
pub use turns::{
    counters_due, decision_by, env_due, figures_due, looks_again, positions_due, turn_due, word_due,
};
