//! The smallest history that breaks each rule, and one worked history with a line left out,
//! repeated or changed.
ghost use Rattle.std.specs.Prelude.{◌≡◌};
ghost use Rattle.lb_core.specs.declared.rule.Rule.TheVariants.{Counters, Decision, End, Figure, Flight, Owed, Pick, Place, Prev, Reply, Row, Stage, Version};
ghost use Rattle.lb_rows.specs.Lines.{fault_of, fault_at};
ghost use Rattle.lb_rows.specs.Faults.{wrong_previous_history, over_at_rest_history, pull_left_out_history, undeclared_lane_history, undeclared_lane_quotes_history, row_out_of_order_history, answer_elsewhere_history, wake_out_elsewhere_history, asleep_already_history, unpublished_version_history, unpublished_figure_history, figure_before_own_entry_history, pull_from_nobody_history, woken_to_the_wrong_cpu_history, hand_lands_empty_history, due_position_left_out_history, end_with_a_stop_pending_history, end_names_a_request_history, no_end_history, landing_left_out_history, landing_repeated_history, figure_invented_history, another_task_lands_history};

/// The lane has no entry yet, and quotes ticket 1.
#[tactic(auto, using(crate::proofs::JudgedFaults::wrong_previous))]
pub fn wrong_previous()
    ensures { fault_of wrong_previous_history ≡ fault_at 1 Prev }
{}

/// No turn is open.
#[tactic(auto, using(crate::proofs::JudgedFaults::over_at_rest))]
pub fn over_at_rest()
    ensures { fault_of over_at_rest_history ≡ fault_at 1 Stage }
{}

/// A look decides to pull, and its position is closed without a take.
#[tactic(auto, using(crate::proofs::JudgedFaults::pull_left_out))]
pub fn pull_left_out()
    ensures { fault_of pull_left_out_history ≡ fault_at 12 Stage }
{}

/// There is no lane 1.
#[tactic(auto, using(crate::proofs::JudgedFaults::undeclared_lane))]
pub fn undeclared_lane()
    ensures { fault_of undeclared_lane_history ≡ fault_at 1 Stage }
{}

/// A lane that is not declared has no entry to quote.
#[tactic(auto, using(crate::proofs::JudgedFaults::undeclared_lane_quotes))]
pub fn undeclared_lane_quotes()
    ensures { fault_of undeclared_lane_quotes_history ≡ fault_at 1 Prev }
{}

/// The first row is numbered 2.
#[tactic(auto, using(crate::proofs::JudgedFaults::row_out_of_order))]
pub fn row_out_of_order()
    ensures { fault_of row_out_of_order_history ≡ fault_at 1 Row }
{}

/// The task is at queue 0, and queue 1 answers.
#[tactic(auto, using(crate::proofs::JudgedFaults::answer_elsewhere))]
pub fn answer_elsewhere()
    ensures { fault_of answer_elsewhere_history ≡ fault_at 2 Place }
{}

/// The task is at queue 0, and leaves queue 1.
#[tactic(auto, using(crate::proofs::JudgedFaults::wake_out_elsewhere))]
pub fn wake_out_elsewhere()
    ensures { fault_of wake_out_elsewhere_history ≡ fault_at 2 Place }
{}

/// The task sleeps, and the queue says that it fell asleep.
#[tactic(auto, using(crate::proofs::JudgedFaults::asleep_already))]
pub fn asleep_already()
    ensures { fault_of asleep_already_history ≡ fault_at 2 Reply }
{}

/// There is no version 2.
#[tactic(auto, using(crate::proofs::JudgedFaults::unpublished_version))]
pub fn unpublished_version()
    ensures { fault_of unpublished_version_history ≡ fault_at 3 Version }
{}

/// Queue 1 has drawn nothing, and its first figure is named.
#[tactic(auto, using(crate::proofs::JudgedFaults::unpublished_figure))]
pub fn unpublished_figure()
    ensures { fault_of unpublished_figure_history ≡ fault_at 5 Figure }
{}

/// The lane drew two entries at queue 0, and names the first figure.
#[tactic(auto, using(crate::proofs::JudgedFaults::figure_before_own_entry))]
pub fn figure_before_own_entry()
    ensures { fault_of figure_before_own_entry_history ≡ fault_at 5 Figure }
{}

/// No CPU has a task, and the look decides to pull.
#[tactic(auto, using(crate::proofs::JudgedFaults::pull_from_nobody))]
pub fn pull_from_nobody()
    ensures { fault_of pull_from_nobody_history ≡ fault_at 5 Decision }
{}

/// The task may run on CPU 1, and is sent to CPU 0.
#[tactic(auto, using(crate::proofs::JudgedFaults::woken_to_the_wrong_cpu))]
pub fn woken_to_the_wrong_cpu()
    ensures { fault_of woken_to_the_wrong_cpu_history ≡ fault_at 2 Pick }
{}

/// A task is in the hand, and none lands.
#[tactic(auto, using(crate::proofs::JudgedFaults::hand_lands_empty))]
pub fn hand_lands_empty()
    ensures { fault_of hand_lands_empty_history ≡ fault_at 3 Flight }
{}

/// Position 0 is due, and the turn opens none.
#[tactic(auto, using(crate::proofs::JudgedFaults::due_position_left_out))]
pub fn due_position_left_out()
    ensures { fault_of due_position_left_out_history ≡ fault_at 4 Counters }
{}

/// A stop request is pending at the end.
#[tactic(auto, using(crate::proofs::JudgedFaults::end_with_a_stop_pending))]
pub fn end_with_a_stop_pending()
    ensures { fault_of end_with_a_stop_pending_history ≡ fault_at 5 Owed }
{}

/// Nobody asked for a push.
#[tactic(auto, using(crate::proofs::JudgedFaults::end_names_a_request))]
pub fn end_names_a_request()
    ensures { fault_of end_names_a_request_history ≡ fault_at 1 End }
{}

/// The end is missing.
#[tactic(auto, using(crate::proofs::JudgedFaults::no_end))]
pub fn no_end()
    ensures { fault_of no_end_history ≡ fault_at 1 End }
{}

/// One task moves, but its landing is left out.
#[tactic(auto, using(crate::proofs::JudgedFaults::landing_left_out))]
pub fn landing_left_out()
    ensures { fault_of landing_left_out_history ≡ fault_at 13 Stage }
{}

/// One task moves, and lands twice.
#[tactic(auto, using(crate::proofs::JudgedFaults::landing_repeated))]
pub fn landing_repeated()
    ensures { fault_of landing_repeated_history ≡ fault_at 14 Stage }
{}

/// One task moves, and the look names a figure that queue 1 has not published.
#[tactic(auto, using(crate::proofs::JudgedFaults::figure_invented))]
pub fn figure_invented()
    ensures { fault_of figure_invented_history ≡ fault_at 11 Figure }
{}

/// One task moves, and another one lands.
#[tactic(auto, using(crate::proofs::JudgedFaults::another_task_lands))]
pub fn another_task_lands()
    ensures { fault_of another_task_lands_history ≡ fault_at 13 Flight }
{}
