//! The sums of load signals over the tasks of a queue.
ghost use Rattle.std.specs.Prelude.{◌≡◌, ◌+◌, ◌^◌, ◌<◌, ◌≤◌, length};
ghost use Rattle.lb_pelt.specs.Signal.{IsWithin};
ghost use Rattle.lb_queue.specs.Figures.{awake_value, asleep_value};
ghost use Rattle.lb_queue.specs.Sums.{AreSums};

use crate::awake::Awake;
use crate::task::Task;
use lb_pelt::{Run, Value};

// Sums of what the signals of tasks say.
#[derive(Clone, Copy, Drop)]
pub(crate) struct Sums {
    pub(crate) load: u64,
    pub(crate) util: u64,
    pub(crate) runnable: u64,
}

// The sums over the tasks of a queue at a moment, and that moment.
#[derive(Clone, Copy, Drop)]
pub(crate) struct KeptSums {
    pub(crate) at: u64,
    pub(crate) sums: Sums,
}

impl Sums {
    fn none() -> Sums
        ensures { result ≡ record { load = 0; util = 0; runnable = 0 } }
    {
        Sums {
            load: 0,
            util: 0,
            runnable: 0,
        }
    }

    // With one value more.
    fn with(self, value: Value) -> Sums
        requires load { self.load + value.load < 2 ^ 64 }
        requires util { self.util + value.util < 2 ^ 64 }
        requires runnable { self.runnable + value.runnable < 2 ^ 64 }
        ensures { result ≡ record { load = self.load + value.load; util = self.util + value.util; runnable = self.runnable + value.runnable } }
    {
        Sums {
            load: self.load + value.load,
            util: self.util + value.util,
            runnable: self.runnable + value.runnable,
        }
    }
}

// Over awake tasks, at a moment.
pub(crate) fn awake_sums(awake: &[Awake], now: u64) -> Sums
    requires { length awake.now < 2 ^ 32 }
    ensures { AreSums (awake_value now) awake.now result }
{
    let mut sums = Sums::none();
    for a in awake {
        sums = sums.with(a.value(now));
    }
    sums
}

// Over sleeping tasks, at a moment.
pub(crate) fn asleep_sums(tasks: &[Task], now: u64) -> Sums
    requires { length tasks.now < 2 ^ 32 }
    ensures { AreSums (asleep_value now) tasks.now result }
{
    let mut sums = Sums::none();
    for t in tasks {
        sums = sums.with(t.value(Run::Asleep, now));
    }
    sums
}
