//! Calls of what lanes on threads stand on as tests: the ticket book, the board of figures, the versions of
//! topologies, entries as items of a book, and machines behind their locks. They stand here, and not beside the code,
//! so that none of the crates below is proved a second time for them.
#![tactic(auto)]

#[cfg(test)]
mod board;
#[cfg(test)]
mod journal;
#[cfg(test)]
mod machine;
#[cfg(test)]
mod seats;
#[cfg(test)]
mod ticket;
#[cfg(test)]
mod topub;
