//! Tasks that leave a queue in a hand, and that land (docs/rules/queue.md).
ghost use Rattle.std.specs.Prelude.{◌≡◌, ◌+◌, ◌-◌, ◌<◌, ◌≤◌, ◌++◌, [], ℕ, Some, IsSomeAnd, is_some, option_to_list, false, length, map, All, if◌then◌else◌, vec_capacity};
ghost use Rattle.lb_queue.specs.Queue.{average_with};
ghost use Rattle.lb_queue.specs.Hands.{is_wake, in_order};
ghost use Rattle.lb_queue.specs.Lists.{down_of};
ghost use Rattle.lb_queue.specs.Pulls.{CanGo, AllCanGo, without_all};
ghost use Rattle.lb_queue.specs.Tasks.{occurs, awake_with, without_awake, set_down};

use super::{Queue, sample};
use crate::answers::{OutCause, Taken};
use crate::hand::Hand;
use crate::lists::TaskLists;
use lb_detach::laws::picked_is_sound;
use lb_detach::{EXAMINED_AT_MOST, Env, Picked};
use lb_pelt::Run;

impl Queue {
    ghost use Rattle.lb_queue.specs.Tasks.{ids};
    ghost use Rattle.lb_queue.specs.Queue.{away, knows};
    ghost use Rattle.lb_queue.specs.Hands.{loaded, leave, take_stop, stop_to, pushed, take_push, take_pull, taken_by, land};

    /// A task that has to wake elsewhere leaves in a hand that goes there, and has room for it.
    pub fn leave(&mut self, at: u64, id: u32, hand: &mut Hand)
        requires away { away self.old.state id ≡ Some hand.old.to }
        requires room { length hand.old.tasks < hand.old.room }
        ensures step { self.new.state ≡ (leave self.old.state at id).1 }
        ensures hand { hand.new ≡ loaded self.old.state at (leave self.old.state at id).0 hand.old }
        ensures booked { self.new.booked ≡ self.old.booked }
    {
        self.clock = self.clock.max(at);
        if let Some(task) = self.lists.take_asleep(id) {
            hand.load(self.cpu, self.clock, task.advanced(Run::Asleep, self.clock));
        }
        self.kept = Some(self.lists.summed(self.clock));
    }

    /// A task whose pending stop request goes to the hand's destination leaves in the hand, which has
    /// room for it. The request is dropped, owed or not.
    pub fn take_stop(&mut self, at: u64, id: u32, hand: &mut Hand)
        requires pending { stop_to self.old.state id ≡ Some hand.old.to }
        requires room { length hand.old.tasks < hand.old.room }
        ensures step { self.new.state ≡ (take_stop self.old.state at id).1 }
        ensures hand { hand.new ≡ loaded self.old.state at (take_stop self.old.state at id).0 hand.old }
        ensures booked { self.new.booked ≡ self.old.booked }
    {
        self.clock = self.clock.max(at);
        if let Some(task) = self.lists.take_awake(id, self.clock) {
            hand.load(self.cpu, self.clock, task);
        }
        self.kept = Some(self.lists.summed(self.clock));
    }

    /// A pending active request goes to the hand's destination: the task nearest the back whose mask
    /// has it, the running one too, leaves in the hand, which has room for it. Where there is no such
    /// task nothing leaves, and the hand still gets its source and its moment. The request is gone
    /// either way; the answer is whether a task left.
    pub fn take_push(&mut self, at: u64, hand: &mut Hand) -> bool
        requires active { self.old.state.active ≡ Some hand.old.to }
        requires room { length hand.old.tasks < hand.old.room }
        ensures answer { result ≡ is_some (pushed self.old.state at hand.old.to) }
        ensures step { self.new.state ≡ (take_push self.old.state at hand.old.to).1 }
        ensures hand { hand.new ≡ loaded self.old.state at (take_push self.old.state at hand.old.to).0 hand.old }
        ensures booked { self.new.booked ≡ self.old.booked }
    {
        self.clock = self.clock.max(at);
        self.active = None;
        self.kept = None;
        match self.lists.take_pushed(hand.to(), self.clock) {
            Some(task) => {
                hand.load(self.cpu, self.clock, task);
                true
            }
            None => {
                hand.load_nothing(self.cpu, self.clock);
                false
            }
        }
    }

    /// A pull takes out of the awake tasks what docs/rules/picked-list.md picks, at most [`EXAMINED_AT_MOST`] tasks: they
    /// leave in the hand in the order in which they are picked, and the others stand in the order that
    /// the examination left. The hand holds no task yet, goes to the pull's destination and has room
    /// for so many, and `picked` has room for all awake tasks; its rooms stay. Where nothing is picked the
    /// hand still gets its source and its moment. It takes no memory.
    pub fn take(&mut self, at: u64, env: &Env, picked: &mut Picked, hand: &mut Hand) -> Taken
        requires to { hand.old.to ≡ env.now.to }
        requires empty { hand.old.tasks ≡ [] }
        requires room { EXAMINED_AT_MOST ≤ hand.old.room }
        requires ids_room { length self.old.state.awake ≤ vec_capacity picked.old.ids }
        requires order_room { length self.old.state.awake ≤ vec_capacity picked.old.order }
        ensures answer { result ≡ taken_by self.old.state at env.now }
        ensures step { self.new.state ≡ (take_pull self.old.state at env.now).1 }
        ensures hand { hand.new ≡ loaded self.old.state at (take_pull self.old.state at env.now).0 hand.old }
        ensures ids_capacity { vec_capacity picked.new.ids ≡ vec_capacity picked.old.ids }
        ensures order_capacity { vec_capacity picked.new.order ≡ vec_capacity picked.old.order }
        ensures booked { self.new.booked ≡ self.old.booked }
    {
        // what is picked differs, waits and may run at the destination, and there is room for it
        picked_is_sound();
        self.clock = self.clock.max(at);
        self.lists.examine(self.clock, env, picked);
        load_all(&mut self.lists, &picked.ids, self.cpu, self.clock, hand);
        self.lists.set_order(&picked.order);
        self.kept = Some(self.lists.summed(self.clock));
        Taken {
            some_pinned: picked.some_pinned,
            all_pinned: picked.all_pinned,
            left: picked.left,
        }
    }

    /// The tasks of a hand that goes here join the front, one after the other in the order in which
    /// they left. As many landings are booked, and used; the ids of the tasks differ, and none is
    /// known here.
    pub fn land(&mut self, at: u64, cause: OutCause, hand: Hand)
        requires to { hand.to ≡ self.old.state.cpu }
        requires booked { length hand.tasks ≤ self.old.booked }
        requires differ { (id : ℕ) → occurs id (ids hand.tasks) ≤ 1 }
        requires unknown { All (λ t. knows self.old.state t.id ≡ false) hand.tasks }
        ensures step { self.new.state ≡ land self.old.state at cause hand.moment hand.tasks }
        ensures booked { self.new.booked ≡ self.old.booked - length hand.tasks }
    {
        let (moment, tasks) = hand.open();
        self.clock = self.clock.max(at.max(moment));
        if tasks.is_empty() {
            tasks.destroy_empty();
            return;
        }
        self.avg_idle = sample_of(
            cause,
            self.lists.is_idle(),
            self.idle_since,
            self.clock,
            self.avg_idle,
        );
        self.idle_since = None;
        self.tickless = false;
        self.lists.land(tasks, self.clock);
        self.kept = Some(self.lists.summed(self.clock));
    }
}

// Tasks that wait leave in a hand, one after the other.
fn load_all(lists: &mut TaskLists, ids: &[u32], cpu: u32, clock: u64, hand: &mut Hand)
    requires once { (u : ℕ) → occurs u ids.now ≤ 1 }
    requires can_go { AllCanGo hand.old.to lists.old.awake ids.now }
    requires room { length hand.old.tasks + length ids.now ≤ hand.old.room }
    ensures lists { lists.new ≡ record lists.old { awake = without_all ids.now lists.old.awake } }
    ensures hand { hand.new ≡ record hand.old {
      source = Some cpu;
      moment = clock;
      tasks = hand.old.tasks ++ map (set_down clock) (in_order ids.now lists.old.awake);
    } }
{
    hand.load_nothing(cpu, clock);
    for id in ids {
        load_one(lists, *id, cpu, clock, hand);
    }
}

// A task that waits leaves in a hand.
fn load_one(lists: &mut TaskLists, id: u32, cpu: u32, clock: u64, hand: &mut Hand)
    requires can_go { IsSomeAnd (awake_with id lists.old.awake) (CanGo hand.old.to) }
    requires room { length hand.old.tasks < hand.old.room }
    ensures lists { lists.new ≡ record lists.old { awake = without_awake id lists.old.awake } }
    ensures hand { hand.new ≡ record hand.old {
      source = Some cpu;
      moment = clock;
      tasks = hand.old.tasks ++ option_to_list (down_of clock (awake_with id lists.old.awake));
    } }
{
    if let Some(task) = lists.take_awake(id, clock) {
        hand.load(cpu, clock, task);
    }
}

// The average idle time after tasks land for a cause: a wake alone takes a sample.
fn sample_of(
    cause: OutCause,
    nobody: bool,
    idle_since: Option<u64>,
    clock: u64,
    avg_idle: u64,
) -> u64
    ensures { result ≡ (if is_wake cause then (if nobody then average_with idle_since clock avg_idle else avg_idle) else avg_idle) }
{
    match cause {
        OutCause::Wake => sample(nobody, idle_since, clock, avg_idle),
        OutCause::Stop | OutCause::Pull | OutCause::Push => avg_idle,
    }
}
