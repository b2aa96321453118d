//! The figure that a queue shows (docs/rules/queue.md).
ghost use Rattle.std.specs.Prelude.{◌≡◌, ◌<◌, ◌≤◌, ◌^◌, ◌+◌, [], Some, length, slice_get, unwrap_or, if◌then◌else◌};
ghost use Rattle.lb_queue.specs.Figures.{flags_from};

use super::{MAX_SHAPES, Queue};
use lb_base::{Fig, TaskView};
use lb_interval::Counters;

// The first bit of a figure's flags that stands for a position.
const FIRST_POSITION_BIT: u32 = 8;

impl Queue {
    ghost use Rattle.lb_queue.specs.Figures.{figure};
    ghost use Rattle.lb_queue.specs.Values.{views};

    /// The queue's figure after its `n`-th entry, which has that ticket: how many tasks are awake, the
    /// sums of the loads and the utilisations of the awake and the sleeping tasks and of the runnable
    /// averages of the awake ones, all at the clock, and the flags.
    pub fn figure(&self, n: u64, ticket: u64) -> Fig
        ensures { result ≡ figure self.now.state n ticket }
    {
        let sums = self.lists.renewed(self.kept, self.clock).sums;
        Fig {
            n,
            ticket,
            nr: u64::from(self.lists.awake_len()),
            load: sums.load,
            util: sums.util,
            runnable: sums.runnable,
            flags: self.flags(),
        }
    }

    // The flags of a figure: that the CPU is tickless, and that positions are marked as imbalanced.
    fn flags(&self) -> u64
        ensures { result ≡ (if self.now.state.tickless then 1 else 0) + flags_from 0 (unwrap_or self.now.state.counters []) }
    {
        let tickless = u64::from(self.tickless);
        if self.counted {
            tickless + imbalance_flags(&self.counters)
        } else {
            tickless
        }
    }

    /// The `i`-th awake task from the front as a pull at the moment `at` would see it: with its
    /// values and its hotness at the greater of the clock and `at`.
    pub fn view(&self, at: u64, i: u32) -> TaskView
        requires { i < length self.now.state.awake }
        ensures { slice_get (views self.now.state at) i ≡ Some result }
    {
        self.lists.view(i as usize, self.clock.max(at))
    }
}

// The flags of the positions that are marked as imbalanced.
fn imbalance_flags(counters: &[Counters]) -> u64
    requires { length counters.now ≤ MAX_SHAPES }
    ensures value { result ≡ flags_from 0 counters.now }
    ensures small { result < 2 ^ 32 }
{
    let mut flags = 0;
    for p in 0..counters.len() {
        if counters[p].imb {
            flags += 1 << (FIRST_POSITION_BIT + p as u32);
        }
    }
    flags
}
