//! Laws of the summary, over the definitions alone: each function's contract is the law.
ghost use Rattle.lb_summary.specs.Laws.{StepsArePlaces, PullsAreWithin, TasksCountOnce, EndAlone};

use lb_core::laws::turns_stay_open;

/// What is counted is counted of the places of the history: for each entry, with the machine that the entries
/// before it lead to.
pub fn steps_are_places()
    ensures { StepsArePlaces }
{}

/// The level of a pull is that of the domain at the position that its lane has in work, among those that its
/// turn's CPU has within the published version that the lane took up (docs/rules/lanes.md).
pub fn pulls_are_within()
    ensures { PullsAreWithin }
{
    // a lane in a turn keeps to the version that it took up
    turns_stay_open();
}

/// Each task that leaves a queue counts once: on one of the six lines, unless it leaves by a wake.
#[tactic(auto, using(crate::proofs::Once::tasks_count_once))]
pub fn tasks_count_once()
    ensures { TasksCountOnce }
{}

/// The summary of a history without rows, which is its end alone (docs/rules/generator.md).
pub fn end_alone()
    ensures { EndAlone }
{}
