//! What every reachable state of the balancing machine keeps, that a serial run never gets stuck and
//! ends, and that every entry of a history of an accepted trace is in range: laws over the definitions
//! alone (docs/rules/lanes.md).
#![tactic(auto)]

pub mod laws;
