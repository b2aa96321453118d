//! What several holders have seen of one list that only grows: one of them writes it and has seen all of it, the
//! others have seen a beginning. This is the rule of a shared cell (docs/rules/threads.md).
#![tactic(auto)]

mod view;

pub use view::{Telling, View};
