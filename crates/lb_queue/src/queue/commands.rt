//! Wakes, sleeps, exits, masks and nice values at a queue (docs/rules/queue.md).
ghost use Rattle.std.specs.Prelude.{◌≡◌, ◌≤◌, ◌≤ℤ◌, negsuc, pos, None, is_some, true, false, ◌||◌, not};
ghost use Rattle.lb_base.specs.Sets.{is_empty, is_below};

use super::{Queue, idle_from, sample};
use crate::answers::Reply;
use lb_base::{MAX_CPUS, Mask};
use lb_pelt::Run;

// Whether a mask is empty, or has a CPU past the machine.
fn is_bad(mask: Mask, cpus: u32) -> bool
    requires { cpus ≤ MAX_CPUS }
    ensures { result ≡ (is_empty mask || not (is_below mask cpus)) }
{
    if mask.first().is_none() {
        return true;
    }
    !mask.subset(Mask::all(cpus))
}

impl Queue {
    ghost use Rattle.lb_queue.specs.Queue.{away};
    ghost use Rattle.lb_queue.specs.Commands.{not_here, wake, sleep, exit, set_mask, renice};
    ghost use Rattle.lb_queue.specs.Tasks.{task_with, awake_with};

    /// A task that sleeps here wakes: it joins the front, and is picked where nobody runs. Its mask
    /// has this CPU, so [`Queue::away`] is None; otherwise it has to [`Queue::leave`]. `Already`
    /// where it is awake, `Gone` where it ended here, `NotHere` where it is not known.
    pub fn wake(&mut self, at: u64, id: u32) -> Reply
        requires { away self.old.state id ≡ None }
        ensures step { (result, self.new.state) ≡ wake self.old.state at id }
        ensures booked { self.new.booked ≡ self.old.booked }
    {
        match self.lists.take_asleep(id) {
            Some(task) => {
                self.clock = self.clock.max(at);
                self.avg_idle = sample(
                    self.lists.is_idle(),
                    self.idle_since,
                    self.clock,
                    self.avg_idle,
                );
                self.idle_since = None;
                self.tickless = false;
                self.lists
                    .join(task.advanced(Run::Asleep, self.clock), self.clock);
                self.kept = Some(self.lists.summed(self.clock));
                Reply::Done
            }
            None => self.refuse_wake(at, id),
        }
    }

    /// A task that is awake here falls asleep, and its stop request is dropped. `Already` where it is
    /// asleep, `Gone` where it ended here, `NotHere` where it is not known.
    pub fn sleep(&mut self, at: u64, id: u32) -> Reply
        ensures step { (result, self.new.state) ≡ sleep self.old.state at id }
        ensures booked { self.new.booked ≡ self.old.booked }
    {
        let clock = self.clock.max(at);
        match self.lists.take_awake(id, clock) {
            Some(task) => {
                self.lists.add_asleep(task);
                self.clock = clock;
                self.idle_since = idle_from(self.lists.is_idle(), clock, self.idle_since);
                self.kept = Some(self.lists.summed(self.clock));
                Reply::Done
            }
            None => self.refuse_sleep(at, id),
        }
    }

    /// A task that is awake or asleep here ends; one that is awake falls asleep first. `Gone` where
    /// it ended here before, `NotHere` where it is not known.
    pub fn exit(&mut self, at: u64, id: u32) -> Reply
        ensures step { (result, self.new.state) ≡ exit self.old.state at id }
        ensures booked { self.new.booked ≡ self.old.booked }
    {
        let clock = self.clock.max(at);
        match self.lists.take_awake(id, clock) {
            Some(task) => {
                self.lists.add_gone(task);
                self.clock = clock;
                self.idle_since = idle_from(self.lists.is_idle(), clock, self.idle_since);
                self.kept = Some(self.lists.summed(self.clock));
                Reply::Done
            }
            None => self.exit_asleep(at, id),
        }
    }

    /// Sets a task's mask. An awake task whose mask then lacks this CPU is asked to leave, and one
    /// whose mask has it is not. `NotHere`, then `Gone`, then `BadMask` exactly where the mask is empty
    /// or has a CPU past the machine.
    pub fn set_mask(&mut self, at: u64, id: u32, mask: Mask) -> Reply
        ensures step { (result, self.new.state) ≡ set_mask self.old.state at id mask }
        ensures booked { self.new.booked ≡ self.old.booked }
    {
        if self.lists.is_awake(id) {
            self.mask_awake(at, id, mask)
        } else if self.lists.is_asleep(id) {
            self.mask_asleep(at, id, mask)
        } else {
            self.refuse(at, id)
        }
    }

    /// Sets a task's nice value, -20 to 19. Its signal stays. `Gone` where it ended here, `NotHere`
    /// where it is not known.
    pub fn renice(&mut self, at: u64, id: u32, nice: i32) -> Reply
        requires low { negsuc 19 ≤ℤ nice }
        requires high { nice ≤ℤ pos 19 }
        ensures step { (result, self.new.state) ≡ renice self.old.state at id nice }
        ensures booked { self.new.booked ≡ self.old.booked }
    {
        if self.lists.is_awake(id) {
            self.clock = self.clock.max(at);
            self.lists.renice_awake(id, nice);
            self.kept = Some(self.lists.summed(self.clock));
            return Reply::Done;
        }
        if self.lists.is_asleep(id) {
            self.clock = self.clock.max(at);
            self.lists.renice_asleep(id, nice);
            self.kept = Some(self.lists.summed(self.clock));
            return Reply::Done;
        }
        self.refuse(at, id)
    }

    // Sets the mask of a task that is awake here.
    fn mask_awake(&mut self, at: u64, id: u32, mask: Mask) -> Reply
        requires { is_some (awake_with id self.old.state.awake) ≡ true }
        ensures step { (result, self.new.state) ≡ set_mask self.old.state at id mask }
        ensures booked { self.new.booked ≡ self.old.booked }
    {
        self.clock = self.clock.max(at);
        if is_bad(mask, self.cpus) {
            return Reply::BadMask;
        }
        self.lists.mask_awake(id, mask);
        self.kept = Some(self.lists.summed(self.clock));
        Reply::Done
    }

    // Sets the mask of a task that sleeps here.
    fn mask_asleep(&mut self, at: u64, id: u32, mask: Mask) -> Reply
        requires awake { is_some (awake_with id self.old.state.awake) ≡ false }
        requires asleep { is_some (task_with id self.old.state.asleep) ≡ true }
        ensures step { (result, self.new.state) ≡ set_mask self.old.state at id mask }
        ensures booked { self.new.booked ≡ self.old.booked }
    {
        self.clock = self.clock.max(at);
        if is_bad(mask, self.cpus) {
            return Reply::BadMask;
        }
        self.lists.mask_asleep(id, mask);
        self.kept = Some(self.lists.summed(self.clock));
        Reply::Done
    }

    // A wake of a task that does not sleep here.
    fn refuse_wake(&mut self, at: u64, id: u32) -> Reply
        requires { task_with id self.old.state.asleep ≡ None }
        ensures step { (result, self.new.state) ≡ wake self.old.state at id }
        ensures booked { self.new.booked ≡ self.old.booked }
    {
        if self.lists.is_awake(id) {
            self.clock = self.clock.max(at);
            return Reply::Already;
        }
        self.refuse(at, id)
    }

    // A command on a task that is neither awake nor asleep here.
    fn refuse(&mut self, at: u64, id: u32) -> Reply
        ensures step { (result, self.new.state) ≡ not_here self.old.state at (task_with id self.old.state.gone) }
        ensures booked { self.new.booked ≡ self.old.booked }
    {
        if self.lists.is_gone(id) {
            self.clock = self.clock.max(at);
            return Reply::Gone;
        }
        Reply::NotHere
    }

    // A sleep of a task that is not awake here.
    fn refuse_sleep(&mut self, at: u64, id: u32) -> Reply
        requires { awake_with id self.old.state.awake ≡ None }
        ensures step { (result, self.new.state) ≡ sleep self.old.state at id }
        ensures booked { self.new.booked ≡ self.old.booked }
    {
        if self.lists.is_asleep(id) {
            self.clock = self.clock.max(at);
            return Reply::Already;
        }
        self.refuse(at, id)
    }

    // An exit of a task that is not awake here.
    fn exit_asleep(&mut self, at: u64, id: u32) -> Reply
        requires { awake_with id self.old.state.awake ≡ None }
        ensures step { (result, self.new.state) ≡ exit self.old.state at id }
        ensures booked { self.new.booked ≡ self.old.booked }
    {
        match self.lists.take_asleep(id) {
            Some(task) => {
                self.lists.add_gone(task);
                self.clock = self.clock.max(at);
                self.kept = Some(self.lists.summed(self.clock));
                Reply::Done
            }
            None => self.refuse(at, id),
        }
    }
}
