//! Histories of two lanes whose entries are mixed, legal ones and ones that break a rule.
ghost use Rattle.std.specs.Prelude.{◌≡◌, None};
ghost use Rattle.lb_core.specs.declared.rule.Rule.TheVariants.{Decision, End, Place, Reply, Row, Stage, Version};
ghost use Rattle.lb_rows.specs.Lines.{fault_of, fault_at};
ghost use Rattle.lb_rows.specs.Lanes.{commands_round_a_hand_history, command_finds_a_hand_history, second_turn_is_shut_history, second_turn_opens_history, two_lanes_tick_a_cpu_history, old_figures_serve_history, new_decision_over_old_figures_history, old_version_serves_history, version_goes_back_history, closing_before_all_rest_history, row_after_the_closing_history, row_after_the_end_history, second_request_waits_history};

/// While a task is in lane 0's hand, lane 1 renices another one at its queue; after the landing it
/// sets the task's mask at its new queue.
#[tactic(auto, using(crate::proofs::JudgedLanes::commands_round_a_hand))]
pub fn commands_round_a_hand()
    ensures { fault_of commands_round_a_hand_history ≡ None }
{}

/// Lane 1's command is answered by the queue that the task has just left.
#[tactic(auto, using(crate::proofs::JudgedLanes::command_finds_a_hand))]
pub fn command_finds_a_hand()
    ensures { fault_of command_finds_a_hand_history ≡ fault_at 14 Place }
{}

/// Lane 1 makes CPU 0 idle while lane 0's turn is open there: its own turn is shut.
#[tactic(auto, using(crate::proofs::JudgedLanes::second_turn_is_shut))]
pub fn second_turn_is_shut()
    ensures { fault_of second_turn_is_shut_history ≡ None }
{}

/// The same, but the second turn opens.
#[tactic(auto, using(crate::proofs::JudgedLanes::second_turn_opens))]
pub fn second_turn_opens()
    ensures { fault_of second_turn_opens_history ≡ fault_at 10 Reply }
{}

/// A CPU is ticked by one lane alone.
#[tactic(auto, using(crate::proofs::JudgedLanes::two_lanes_tick_a_cpu))]
pub fn two_lanes_tick_a_cpu()
    ensures { fault_of two_lanes_tick_a_cpu_history ≡ fault_at 2 Row }
{}

/// Lane 0 looks at queue 1's opening figure, though lane 1 has woken two tasks there.
#[tactic(auto, using(crate::proofs::JudgedLanes::old_figures_serve))]
pub fn old_figures_serve()
    ensures { fault_of old_figures_serve_history ≡ None }
{}

/// The same look with what the newest figures would decide.
#[tactic(auto, using(crate::proofs::JudgedLanes::new_decision_over_old_figures))]
pub fn new_decision_over_old_figures()
    ensures { fault_of new_decision_over_old_figures_history ≡ fault_at 9 Decision }
{}

/// Lane 0 takes up version 1 after lane 1 has published version 2.
#[tactic(auto, using(crate::proofs::JudgedLanes::old_version_serves))]
pub fn old_version_serves()
    ensures { fault_of old_version_serves_history ≡ None }
{}

/// Lane 1 itself may not go back behind the version that it published.
#[tactic(auto, using(crate::proofs::JudgedLanes::version_goes_back))]
pub fn version_goes_back()
    ensures { fault_of version_goes_back_history ≡ fault_at 5 Version }
{}

/// Lane 0 serves a stop at rest while lane 1 is not at rest.
#[tactic(auto, using(crate::proofs::JudgedLanes::closing_before_all_rest))]
pub fn closing_before_all_rest()
    ensures { fault_of closing_before_all_rest_history ≡ fault_at 6 Stage }
{}

/// Once a stop was served at rest, no row comes.
#[tactic(auto, using(crate::proofs::JudgedLanes::row_after_the_closing))]
pub fn row_after_the_closing()
    ensures { fault_of row_after_the_closing_history ≡ fault_at 7 Stage }
{}

/// After the end no row comes.
#[tactic(auto, using(crate::proofs::JudgedLanes::row_after_the_end))]
pub fn row_after_the_end()
    ensures { fault_of row_after_the_end_history ≡ fault_at 2 End }
{}

/// Lane 0's tick has made its push. Before its turn lane 1 asks for another, which waits for the
/// next tick.
#[tactic(auto, using(crate::proofs::JudgedLanes::second_request_waits))]
pub fn second_request_waits()
    ensures { fault_of second_request_waits_history ≡ None }
{}
