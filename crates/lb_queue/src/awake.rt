//! A task in the list of a queue, with its stop request.
ghost use Rattle.std.specs.Prelude.{◌≡◌, ◌==◌, ◌<◌, ◌≤ℤ◌, negsuc, pos, false, Some, if◌then◌else◌};
ghost use Rattle.lb_base.specs.Sets.{is_empty, least};
ghost use Rattle.lb_queue.specs.Commands.{masked, reniced};
ghost use Rattle.lb_queue.specs.declared.awake.StopRequest.TheVariants.{Free, Pending};
ghost use Rattle.lb_queue.specs.Requests.{owes, asks, stop_of};
ghost use Rattle.lb_queue.specs.Tasks.{is_pending, waiting, picked, preempted, set_down};
ghost use Rattle.lb_pelt.specs.Signal.{IsWithin};
ghost use Rattle.lb_queue.specs.Figures.{awake_value};
ghost use Rattle.lb_queue.specs.Sums.{max_weight};
ghost use Rattle.lb_queue.specs.Values.{view_at};

use crate::answers::Stop;
use crate::task::Task;
use lb_base::{MAX_CPUS, Mask, TaskView};
use lb_pelt::{Run, Value};

/// Whether an awake task is asked to leave its queue, since its mask lacks the CPU.
#[derive(Clone, Copy, Debug, PartialEq, Eq)]
pub enum StopRequest {
    /// It is not.
    Free,
    /// It is, since the last tick.
    Pending,
    /// It was at the last tick, which is to serve the request.
    Owed,
}

/// An awake task in its queue.
pub struct Awake {
    /// The task.
    pub task: Task,
    /// It has the CPU; otherwise it waits.
    pub running: bool,
    /// Whether it is asked to leave.
    pub stop: StopRequest,
}

impl Awake {
    // A task that waits, and is not asked to leave.
    pub(crate) fn waiting(task: Task) -> Awake
        ensures { result ≡ waiting task }
    {
        Awake {
            task,
            running: false,
            stop: StopRequest::Free,
        }
    }

    // It gets the CPU.
    pub(crate) fn picked(self, clock: u64) -> Awake
        ensures { result ≡ picked clock self }
    {
        let Awake {
            task,
            running: _,
            stop,
        } = self;
        Awake {
            task: task.advanced(Run::Waiting, clock),
            running: true,
            stop,
        }
    }

    // The task as it stops being awake here.
    pub(crate) fn set_down(self, clock: u64) -> Task
        ensures { result ≡ set_down clock self }
    {
        let Awake {
            task,
            running,
            stop: _,
        } = self;
        if running {
            task.put_down(clock)
        } else {
            task.advanced(Run::Waiting, clock)
        }
    }

    // Where it runs, it is put down and waits.
    pub(crate) fn preempt(&mut self, clock: u64)
        ensures { self.new ≡ preempted clock self.old }
    {
        if self.running {
            self.task.stop_running(clock);
            self.running = false;
        }
    }

    // Whether it is asked to leave; of the owed requests only, if asked.
    pub(crate) fn asks(&self, owed: bool) -> bool
        ensures { result ≡ asks owed self.now }
    {
        match self.stop {
            StopRequest::Free => false,
            StopRequest::Pending => !owed,
            StopRequest::Owed => true,
        }
    }

    // Its stop request, which goes to the least CPU of its mask.
    pub(crate) fn stop_request(&self) -> Stop
        ensures value { Some result ≡ stop_of (Some self.now) }
        ensures goes { least self.now.task.mask ≡ Some result.to }
    {
        let known = self.task.record();
        Stop {
            id: known.id,
            to: known.mask.first().unwrap_or(0),
        }
    }

    // A pending request becomes owed.
    pub(crate) fn owe(&mut self)
        ensures { self.new ≡ owes self.old }
    {
        match self.stop {
            StopRequest::Free => {}
            StopRequest::Pending | StopRequest::Owed => self.stop = StopRequest::Owed,
        }
    }

    // It gets a mask, if it has that id. It is asked to leave exactly where the mask lacks the CPU; a
    // request that it had stays.
    pub(crate) fn set_mask(&mut self, id: u32, cpu: u32, mask: Mask)
        requires cpu { cpu < MAX_CPUS }
        requires somewhere { is_empty mask ≡ false }
        ensures { self.new ≡ (if self.old.task.id == id then masked cpu mask self.old else self.old) }
    {
        if self.task.id() == id {
            self.task.set_mask(id, mask);
            self.stop = self.stop.after(mask.has(cpu));
        }
    }

    // It gets a nice value.
    pub(crate) fn renice(&mut self, nice: i32)
        requires low { negsuc 19 ≤ℤ nice }
        requires high { nice ≤ℤ pos 19 }
        ensures { self.new ≡ reniced nice self.old }
    {
        self.task.renice(nice);
    }

    // What its signal says at a moment.
    pub(crate) fn value(&self, now: u64) -> Value
        ensures value { result ≡ awake_value now self.now }
        ensures bounds { IsWithin max_weight result }
    {
        let run = if self.running {
            Run::Running
        } else {
            Run::Waiting
        };
        self.task.value(run, now)
    }

    // What a pull sees of it at a moment.
    #[tactic(auto, unfolding(crate::specs::Values::view_at))]
    pub(crate) fn view(&self, now: u64) -> TaskView
        ensures { result ≡ view_at now self.now }
    {
        let known = self.task.record();
        let value = self.value(now);
        TaskView {
            id: known.id,
            mask: known.mask,
            running: self.running,
            hot: self.task.is_hot(now),
            load: value.load,
            util: value.util,
        }
    }
}

impl StopRequest {
    // The request after a mask was set that has the CPU or lacks it.
    fn after(self, has_cpu: bool) -> StopRequest
        ensures { result ≡ (if has_cpu then Free else if is_pending self then self else Pending) }
    {
        if has_cpu {
            return StopRequest::Free;
        }
        match self {
            StopRequest::Free => StopRequest::Pending,
            StopRequest::Pending => StopRequest::Pending,
            StopRequest::Owed => StopRequest::Owed,
        }
    }
}
