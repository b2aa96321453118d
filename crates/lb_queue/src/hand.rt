//! A hand: tasks on their way from one queue to another.
ghost use Rattle.std.specs.Prelude.{◌≡◌, ◌<◌, ◌≤◌, ◌++◌, [], ◌∷◌, None, Some, true, length, slice_get, IfOk};
ghost use Rattle.std.specs.List.{list_all};
ghost use Rattle.lb_base.specs.Mask.{has};

use crate::task::Task;
use lb_base::NoMemory;
use std::alloc::Global;
use std::marker::Model;

/// Tasks on their way from one queue to another (docs/rules/queue.md). It must be spent: by a
/// landing, or, where it holds no task, by [`Hand::put_away`].
pub struct Hand {
    source: Option<u32>,
    to: u32,
    moment: u64,
    tasks: Vec<Task>,
}

impl Model for Hand {
    ghost use Rattle.std.specs.Prelude.{◌≡◌, true, vec_capacity};
    ghost use Rattle.std.specs.List.{list_all};
    ghost use Rattle.lb_base.specs.Mask.{has};
    ghost use Rattle.lb_queue.specs.Hands.{HandState};

    ghost Value = { HandState };

    ghost view = { λ h. record { source = h.source; to = h.to; moment = h.moment; tasks = h.tasks.items; room = vec_capacity h.tasks } };

    ghost invariant = { λ h. list_all (λ t. has t.mask h.to) h.tasks.items ≡ true };
}

impl Hand {
    ghost use Rattle.lb_queue.specs.Hands.{HandState};

    /// A hand that goes to a CPU, with room for so many tasks. It has no source, and moment 0.
    pub fn empty(alloc: Global, to: u32, room: usize) -> Result<Hand, NoMemory>
        ensures to { IfOk result (λ h. h.to ≡ to) }
        ensures source { IfOk result (λ h. h.source ≡ None) }
        ensures moment { IfOk result (λ h. h.moment ≡ 0) }
        ensures tasks { IfOk result (λ h. h.tasks ≡ []) }
        ensures room { IfOk result (λ h. room ≤ h.room) }
    {
        let tasks = Vec::with_capacity(alloc, room)?;
        Ok(Hand {
            source: None,
            to,
            moment: 0,
            tasks,
        })
    }

    /// Spends a hand that holds no task.
    pub fn put_away(self)
        requires { self.tasks ≡ [] }
    {
        let Hand {
            source: _,
            to: _,
            moment: _,
            tasks,
        } = self;
        tasks.destroy_empty();
    }

    /// The CPU of the queue that its tasks left; None before any did.
    pub fn source(&self) -> Option<u32>
        ensures { result ≡ self.now.source }
    {
        self.source
    }

    /// The CPU where it goes.
    pub fn to(&self) -> u32
        ensures { result ≡ self.now.to }
    {
        self.to
    }

    /// The source's clock as its tasks left, in nanoseconds.
    pub fn moment(&self) -> u64
        ensures { result ≡ self.now.moment }
    {
        self.moment
    }

    /// How many tasks it holds.
    pub fn len(&self) -> usize
        ensures { result ≡ length self.now.tasks }
    {
        self.tasks.len()
    }

    /// The `i`-th of its tasks, in the order in which they left.
    pub fn task(&self, i: usize) -> &Task
        requires { i < length self.now.tasks }
        ensures { slice_get self.now.tasks i ≡ Some result.now }
    {
        &self.tasks[i]
    }

    // A task comes into the hand, from the queue of a CPU at its clock.
    pub(crate) fn load(&mut self, source: u32, moment: u64, task: Task)
        requires room { length self.old.tasks < self.old.room }
        requires permitted { has task.mask self.old.to ≡ true }
        ensures { self.new ≡ record self.old { source = Some source; moment = moment; tasks = self.old.tasks ++ task ∷ [] } }
    {
        self.tasks.push_reserved(task);
        self.source = Some(source);
        self.moment = moment;
    }

    // Nothing comes into the hand, from the queue of a CPU at its clock.
    pub(crate) fn load_nothing(&mut self, source: u32, moment: u64)
        ensures { self.new ≡ record self.old { source = Some source; moment = moment } }
    {
        self.source = Some(source);
        self.moment = moment;
    }

    // Its moment and its tasks, each of which may run where it goes.
    pub(crate) fn open(self) -> (u64, Vec<Task>)
        ensures moment { result.0 ≡ self.moment }
        ensures tasks { result.1.items ≡ self.tasks }
        ensures permitted { list_all (λ t. has t.mask self.to) self.tasks ≡ true }
    {
        let Hand {
            source: _,
            to: _,
            moment,
            tasks,
        } = self;
        (moment, tasks)
    }
}
