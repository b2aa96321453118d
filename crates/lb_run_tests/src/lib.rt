//! Whole runs of machines on threads, as tests: a gate holds the lanes until one of them has come to a point, so that
//! the history shows what one lane does between two steps of the other.
#![tactic(auto)]

#[cfg(test)]
mod cases;
#[cfg(test)]
mod meeting;
#[cfg(test)]
mod shown;
