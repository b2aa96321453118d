//! The worked rows of the rules and of the run queue as tests, and calls that succeed where there is enough memory.
//! They stand here, and not beside the code, so that none of the crates below is proved a second time for them.
#![tactic(auto)]

#[cfg(test)]
mod active;
#[cfg(test)]
mod base;
#[cfg(test)]
mod busiest;
#[cfg(test)]
mod detach;
#[cfg(test)]
mod domain;
#[cfg(test)]
mod imbalance;
#[cfg(test)]
mod interval;
#[cfg(test)]
mod io;
#[cfg(test)]
mod levels;
#[cfg(test)]
mod links;
#[cfg(test)]
mod machines;
#[cfg(test)]
mod newidle;
#[cfg(test)]
mod nohz;
#[cfg(test)]
mod pelt;
#[cfg(test)]
mod queue;
#[cfg(test)]
mod rules;
#[cfg(test)]
mod stats;
