//! The publisher of topologies: the versions of all scheduling domains, one after the other, which lanes look at
//! without a lock (docs/rules/threads.md).
//!
//! A look is over one version, with its whole topology, until it is given back. Of these versions a looker never goes
//! back behind one that it saw or was told of.
#![tactic(auto)]

mod closing;
mod copies;
mod history;
mod looker;
mod publisher;
mod shown;

pub use closing::gather;
pub use looker::{Looked, Looker};
pub use publisher::Publisher;
