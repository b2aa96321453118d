//! Histories of commands: an empty one, tasks that wake at home and away, refusals, and a machine
//! of two nodes whose partition is rebuilt while two lanes are at work.
ghost use Rattle.std.specs.Prelude.{◌≡◌, None};
ghost use Rattle.lb_rows.specs.Lines.{fault_of};
ghost use Rattle.lb_rows.specs.Commands.{nothing_happens_history, woken_away_history, hand_brings_its_clock_history, commands_refused_history, rebuilt_history};

/// A history without rows has its end alone.
#[tactic(auto, using(crate::proofs::JudgedCommands::nothing_happens))]
pub fn nothing_happens()
    ensures { fault_of nothing_happens_history ≡ None }
{}

/// A task whose mask lacks its CPU wakes elsewhere.
#[tactic(auto, using(crate::proofs::JudgedCommands::woken_away))]
pub fn woken_away()
    ensures { fault_of woken_away_history ≡ None }
{}

/// A hand brings its source's clock, so that a position is due where no time has passed.
#[tactic(auto, using(crate::proofs::JudgedCommands::hand_brings_its_clock))]
pub fn hand_brings_its_clock()
    ensures { fault_of hand_brings_its_clock_history ≡ None }
{}

/// Bad masks, a task that is awake already, and one that is gone.
#[tactic(auto, using(crate::proofs::JudgedCommands::commands_refused))]
pub fn commands_refused()
    ensures { fault_of commands_refused_history ≡ None }
{}

/// Two lanes, two nodes, and a partition that is rebuilt twice.
#[tactic(auto, using(crate::proofs::JudgedCommands::rebuilt))]
pub fn rebuilt()
    ensures { fault_of rebuilt_history ≡ None }
{}
