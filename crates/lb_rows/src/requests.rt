//! Histories of stop requests and of active balance: a request is served at a tick or at the end,
//! or dropped; failed pulls lead to a push, or to a request that nobody serves.
ghost use Rattle.std.specs.Prelude.{◌≡◌, None};
ghost use Rattle.lb_rows.specs.Lines.{fault_of};
ghost use Rattle.lb_rows.specs.Requests.{stop_is_served_at_the_tick_history, stop_is_dropped_history, stop_is_served_at_the_end_history, active_push_history, active_unserved_history};

/// A tick serves the stop request of its CPU.
#[tactic(auto, using(crate::proofs::JudgedRequests::stop_is_served_at_the_tick))]
pub fn stop_is_served_at_the_tick()
    ensures { fault_of stop_is_served_at_the_tick_history ≡ None }
{}

/// A mask that gives the CPU back drops the request.
#[tactic(auto, using(crate::proofs::JudgedRequests::stop_is_dropped))]
pub fn stop_is_dropped()
    ensures { fault_of stop_is_dropped_history ≡ None }
{}

/// Without a tick the request is served at the end.
#[tactic(auto, using(crate::proofs::JudgedRequests::stop_is_served_at_the_end))]
pub fn stop_is_served_at_the_end()
    ensures { fault_of stop_is_served_at_the_end_history ≡ None }
{}

/// After three failed pulls the fourth asks for a push, which the next tick makes.
#[tactic(auto, using(crate::proofs::JudgedRequests::active_push))]
pub fn active_push()
    ensures { fault_of active_push_history ≡ None }
{}

/// Where no tick comes, the end names the request.
#[tactic(auto, using(crate::proofs::JudgedRequests::active_unserved))]
pub fn active_unserved()
    ensures { fault_of active_unserved_history ≡ None }
{}
