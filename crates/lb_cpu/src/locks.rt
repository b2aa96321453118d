//! The locks of the queues. Each function here waits for a lock, and where what is asked of the queue behind it does not
//! hold, it gives the lock back and looks again.
ghost use Rattle.std.specs.Prelude.{◌≡◌, ◌<◌, ◌↔◌, true, false, IfSome, IsTrue, length};
ghost use Rattle.std.specs.Sync.Mutex.{mutex_guard_value};
ghost use Rattle.lb_queue.specs.Queue.{knows};
ghost use Rattle.lb_queue.specs.Requests.{has_owed};

use crate::cpus::Cpus;
use lb_cell::{Cell, Names};
use lb_lane::Versions;
use lb_queue::laws::next_stops;
use std::sync::{MutexGuard, Wait};

impl<N: Names + Versions> Cpus<N> {
    /// Whether the machine has this CPU.
    pub(crate) fn has(&self, cpu: u32) -> bool
        ensures { IsTrue result ↔ (cpu < length N.header.cpus) }
    {
        (cpu as usize) < self.cells.len()
    }

    /// The queue of a CPU.
    pub(crate) fn lock<R: Wait>(&self, rt: &R, cpu: u32) -> MutexGuard<'_, Cell<N>>
        requires { cpu < length N.header.cpus }
        ensures { (mutex_guard_value result).log.writer.cpu ≡ cpu }
    {
        for _ in rt.forever() {
            let cell = self.cells[cpu as usize].lock(rt);
            if cell.cpu() == cpu {
                return cell;
            }
        }
        unreachable!()
    }

    // The queue that knows a task, if the task is in no hand and stays where it is meanwhile.
    fn find<R: Wait>(&self, rt: &R, task: u32) -> Option<MutexGuard<'_, Cell<N>>>
        ensures { IfSome result (λ cell. knows (mutex_guard_value cell).queue.state task ≡ true) }
    {
        for i in 0..self.cells.len() {
            let cell = self.cells[i].lock(rt);
            if cell.queue().knows(task) {
                return Some(cell);
            }
        }
        None
    }

    /// The queue that knows a task. While the task is in a hand no queue does.
    pub(crate) fn lock_task<R: Wait>(&self, rt: &R, task: u32) -> MutexGuard<'_, Cell<N>>
        ensures { knows (mutex_guard_value result).queue.state task ≡ true }
    {
        for _ in rt.forever() {
            if let Some(cell) = self.find(rt, task) {
                return cell;
            }
        }
        unreachable!()
    }

    /// The queue of a CPU that is ticked, which owes no stop: those of the tick before were served by the lane of the
    /// CPU's ticks.
    pub(crate) fn lock_to_tick<R: Wait>(&self, rt: &R, cpu: u32) -> MutexGuard<'_, Cell<N>>
        requires { cpu < length N.header.cpus }
        ensures here { (mutex_guard_value result).log.writer.cpu ≡ cpu }
        ensures owed { has_owed (mutex_guard_value result).queue.state ≡ false }
    {
        // a stop is next where one is owed
        next_stops();
        for _ in rt.forever() {
            let cell = self.lock(rt, cpu);
            if cell.queue().next_stop(true).is_none() {
                return cell;
            }
        }
        unreachable!()
    }
}
