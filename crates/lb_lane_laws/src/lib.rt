//! Laws of lanes: what an entry that a lane draws leaves of its course and what stays, and that lanes go to other threads.
#![tactic(auto)]
