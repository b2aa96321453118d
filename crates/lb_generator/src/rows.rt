//! The rows of a drawn trace (docs/rules/generator.md).
ghost use Rattle.std.specs.Prelude.{◌≡◌, ◌<◌, ◌≤◌, ◌∷◌, [], IfOk};
ghost use Rattle.lb_trace.specs.declared.trace.Command.TheVariants as commands;
ghost use Rattle.lb_generator.specs.Generator.{lower_cpus, upper_cpus, all_cpus, lane_of};

use crate::draws::Draws;
use lb_base::{Mask, NoMemory};
use lb_trace::{Command, Masks, Row};
use std::alloc::Global;

/// The number of CPUs.
pub const CPUS: u32 = 16;

/// The number of lanes.
pub const LANES: u32 = 4;

/// The number of tasks.
pub const TASKS: u32 = 200;

/// The time from row to row, in nanoseconds.
pub const ROW_TIME: u64 = 50_000;

/// The CPUs of node 0.
pub(crate) fn lower_cpus() -> Mask
    ensures { result ≡ lower_cpus }
{
    Mask::all(8)
}

/// The CPUs of node 1.
fn upper_cpus() -> Mask
    ensures { result ≡ upper_cpus }
{
    all_cpus().without(lower_cpus())
}

/// All CPUs.
pub(crate) fn all_cpus() -> Mask
    ensures { result ≡ all_cpus }
{
    Mask::all(CPUS)
}

// The lane of row `number`, which asks for this.
fn lane_of(number: u32, command: &Command) -> u32
    ensures { result ≡ lane_of number command.now }
{
    match command {
        Command::Tick { cpu } => *cpu % LANES,
        _ => number % LANES,
    }
}

impl Draws {
    ghost use Rattle.lb_generator.specs.Draws.{draw, IsDrawn};
    ghost use Rattle.lb_generator.specs.Generator.{rebuild_drawn, mask_for, nice_for, change_drawn, command_drawn, row_drawn};

    // Another partition.
    #[tactic(auto, unfolding(crate::specs::Generator::rebuild_drawn))]
    fn rebuild(&mut self, alloc: Global) -> Result<Command, NoMemory>
        ensures { IfOk result (λ command. IsDrawn (rebuild_drawn self.old.state) command self.new.state) }
    {
        let mut parts = Masks::new(alloc);
        if self.draw(2) == 0 {
            parts.push(lower_cpus())?;
            parts.push(upper_cpus())?;
        } else {
            parts.push(all_cpus())?;
        }
        Ok(Command::Rebuild { parts })
    }

    // Another mask for a task.
    fn new_mask(&mut self) -> Command
        ensures { IsDrawn (mask_for (draw TASKS self.old.state)) result self.new.state }
    {
        let task = self.draw(TASKS);
        let mask = match self.draw(3) {
            0 => all_cpus(),
            1 => lower_cpus(),
            _ => upper_cpus(),
        };
        Command::SetMask { task, mask }
    }

    // Another nice value for a task.
    fn new_nice(&mut self) -> Command
        ensures { IsDrawn (nice_for (draw TASKS self.old.state)) result self.new.state }
    {
        let task = self.draw(TASKS);
        let nice = self.draw(40) as i32 - 20;
        Command::Nice { task, nice }
    }

    // A change of the partition, of a task's mask or of its nice value.
    #[tactic(auto, unfolding(crate::specs::Generator::change_drawn))]
    fn change(&mut self, alloc: Global) -> Result<Command, NoMemory>
        ensures { IfOk result (λ command. IsDrawn (change_drawn self.old.state) command self.new.state) }
    {
        let choice = self.draw(8);
        if choice == 0 {
            self.rebuild(alloc)
        } else if choice < 4 {
            Ok(self.new_mask())
        } else {
            Ok(self.new_nice())
        }
    }

    // What a row asks for.
    #[tactic(auto, unfolding(crate::specs::Generator::command_drawn))]
    fn command(&mut self, alloc: Global) -> Result<Command, NoMemory>
        ensures { IfOk result (λ command. IsDrawn (command_drawn self.old.state) command self.new.state) }
    {
        let choice = self.draw(10);
        if choice < 4 {
            let task = self.draw(TASKS);
            Ok(Command::Wake { task })
        } else if choice < 6 {
            let task = self.draw(TASKS);
            Ok(Command::Sleep { task })
        } else if choice < 9 {
            let cpu = self.draw(CPUS);
            Ok(Command::Tick { cpu })
        } else {
            self.change(alloc)
        }
    }

    /// The row with this number, counted from 0.
    #[tactic(auto, unfolding(crate::specs::Generator::row_drawn))]
    pub(crate) fn row(&mut self, alloc: Global, number: u32) -> Result<Row, NoMemory>
        ensures { IfOk result (λ row. IsDrawn (row_drawn number self.old.state) row self.new.state) }
    {
        let command = self.command(alloc)?;
        Ok(Row {
            lane: lane_of(number, &command),
            at: ROW_TIME * u64::from(number),
            command,
        })
    }
}
