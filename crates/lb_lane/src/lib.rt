//! A lane, and the entries that it draws: in its own list rows, looks, scans and uses of versions, and at queues what
//! its course asks for; and the publisher of versions behind its lock (docs/rules/threads.md).
//!
//! What a lane names was published before it names it: a figure was seen, and a version's `pub` was read, and the lane's
//! next ticket stands above the tickets of both.
#![tactic(auto)]

mod adopt;
mod at_queues;
mod choose;
mod chosen;
mod domains;
mod due;
mod ending;
mod enter;
mod figures;
mod in_turns;
mod lane;
mod look;
mod making;
mod publish;
mod publisher;
mod room;
mod row;
mod scan;
mod sums;
mod turns;
mod versions;

pub use chosen::Chosen;
pub use lane::Lane;
pub use publisher::PublisherCell;
pub use turns::Began;
pub use versions::Versions;
