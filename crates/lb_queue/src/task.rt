//! A task: it can be neither dropped nor copied.
ghost use Rattle.std.specs.Prelude.{◌≡◌, ◌==◌, if◌then◌else◌, ◌<◌, ◌≤◌, ◌≤ℤ◌, false, pos, negsuc};
ghost use Rattle.lb_base.specs.Sets.{is_empty};
ghost use Rattle.lb_pelt.specs.declared.signal.Run.TheVariants.{Running};
ghost use Rattle.lb_pelt.specs.Signal.{IsWithin};
ghost use Rattle.lb_queue.specs.Sums.{max_weight};

use crate::record::{HOT_BELOW, TaskRecord};
use lb_base::{Mask, weight_of_nice};
use lb_pelt::{Run, Signal, Value, advance, value_at};
use std::marker::Model;

/// A task. It cannot be cloned and must be spent: by a landing, or with the queue that keeps it.
pub struct Task {
    record: TaskRecord,
}

impl Model for Task {
    ghost use Rattle.lb_queue.specs.declared.record.TaskRecord.{TaskRecord};

    ghost Value = { TaskRecord };

    ghost use Rattle.lb_queue.specs.Kept.{IsTask};

    ghost view = { λ t. t.record };

    ghost invariant = { λ t. IsTask t.record };
}

impl Task {
    ghost use Rattle.lb_queue.specs.Queue.{new_task};
    ghost use Rattle.lb_queue.specs.Tasks.{advanced_task};
    ghost use Rattle.lb_queue.specs.Commands.{with_mask, with_nice};
    ghost use Rattle.lb_queue.specs.Values.{value_of, is_hot};
    ghost use Rattle.lb_queue.specs.Kept.{IsTask, id_limit};

    // A task that never was awake.
    pub(crate) fn new(id: u32, nice: i32, mask: Mask) -> Task
        requires numbered { id < id_limit }
        requires low { negsuc 19 ≤ℤ nice }
        requires high { nice ≤ℤ pos 19 }
        requires somewhere { is_empty mask ≡ false }
        ensures { result ≡ new_task id nice mask }
    {
        Task {
            record: TaskRecord {
                id,
                nice,
                mask,
                signal: Signal::zero(),
                put_down: None,
            },
        }
    }

    /// What is known of it.
    pub fn record(&self) -> TaskRecord
        ensures value { result ≡ self.now }
        ensures kept { IsTask result }
    {
        self.record
    }

    pub(crate) fn id(&self) -> u32
        ensures { result ≡ self.now.id }
    {
        self.record.id
    }

    // The task with its signal at a moment, after a time of `run`.
    pub(crate) fn advanced(self, run: Run, clock: u64) -> Task
        ensures value { result ≡ advanced_task run clock self }
        ensures somewhere { is_empty self.mask ≡ false }
    {
        let Task { mut record } = self;
        record.signal = advance(&record.signal, run, clock);
        Task { record }
    }

    // The task put down at a moment, after it ran.
    pub(crate) fn put_down(self, clock: u64) -> Task
        ensures { result ≡ record (advanced_task Running clock self) { put_down = Some clock } }
    {
        let mut task = self;
        task.stop_running(clock);
        task
    }

    // The task is put down at a moment, after it ran.
    pub(crate) fn stop_running(&mut self, clock: u64)
        ensures { self.new ≡ record (advanced_task Running clock self.old) { put_down = Some clock } }
    {
        self.record.signal = advance(&self.record.signal, Run::Running, clock);
        self.record.put_down = Some(clock);
    }

    // It gets a mask, if it has that id.
    pub(crate) fn set_mask(&mut self, id: u32, mask: Mask)
        requires { is_empty mask ≡ false }
        ensures { self.new ≡ (if self.old.id == id then with_mask mask self.old else self.old) }
    {
        if self.record.id == id {
            self.record.mask = mask;
        }
    }

    // It gets a nice value. Its signal stays.
    pub(crate) fn renice(&mut self, nice: i32)
        requires low { negsuc 19 ≤ℤ nice }
        requires high { nice ≤ℤ pos 19 }
        ensures { self.new ≡ with_nice nice self.old }
    {
        self.record.nice = nice;
    }

    // What its signal says at a moment, after a time of `run`.
    #[tactic(auto, using(crate::proofs::Weights::weight_of_bound), unfolding(crate::specs::Values::value_of))]
    pub(crate) fn value(&self, run: Run, now: u64) -> Value
        ensures value { result ≡ value_of run now self.now }
        ensures bounds { IsWithin max_weight result }
    {
        value_at(
            &self.record.signal,
            run,
            weight_of_nice(self.record.nice),
            now,
        )
    }

    // Whether it was put down less than half a millisecond ago.
    pub(crate) fn is_hot(&self, now: u64) -> bool
        ensures { result ≡ is_hot now self.now.put_down }
    {
        match self.record.put_down {
            None => false,
            Some(down) => now.saturating_sub(down) < HOT_BELOW,
        }
    }

    // The task ends with its queue.
    pub(crate) fn spend(self) {
        let Task { record: _ } = self;
    }
}
