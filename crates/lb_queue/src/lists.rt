//! The tasks of a queue: awake, asleep and gone.
ghost use Rattle.std.specs.Prelude.{◌≡◌, ◌==◌, ◌+◌, ◌-◌, ◌^◌, ◌<◌, ◌≤◌, ◌++◌, [], ◌∷◌, ℕ, is_some, true, length, reverse, IfSome, IfNone, OnOk, OnErr, MatchOption, position, not, Some, slice_get, map, negsuc, pos, ◌≤ℤ◌, false, if◌then◌else◌, sum_by, vec_len, vec_capacity};
ghost use Rattle.std.specs.List.{list_any, list_all};
ghost use Rattle.lb_queue.specs.Figures.{awake_value, asleep_value};
ghost use Rattle.lb_queue.specs.Sums.{AreSumsOf};
ghost use Rattle.lb_active.specs.Choice.{pick_of};
ghost use Rattle.lb_queue.specs.Hands.{all_joined, awake_named, in_order, stop_goes};
ghost use Rattle.lb_queue.specs.Pulls.{IsTurned};
ghost use Rattle.lb_detach.specs.Picks.{picked_ids, kept_ids, examined, left_before, some_pinned, all_pinned};
ghost use Rattle.lb_queue.specs.Kept.{stands};
ghost use Rattle.lb_queue.specs.Values.{view_at};
ghost use Rattle.lb_queue.specs.Tasks.{occurs, ids, awake_ids, awake_with, joined, pick_back, preempted};
ghost use Rattle.lb_queue.specs.Lists.{down_of, left_of};
ghost use Rattle.lb_base.specs.Sets.{is_empty};
ghost use Rattle.lb_queue.specs.Commands.{changed_awake, changed_task, masked, with_mask, reniced, with_nice};
ghost use Rattle.lb_queue.specs.Queue.{nobody};
ghost use Rattle.lb_queue.specs.Requests.{owes, rotated, next_asked, stop_of};

use crate::answers::Stop;
use crate::awake::Awake;
use crate::by_id::{
    found_task, has_awake, has_task, place_of, place_of_awake, take_awake, take_task,
};
use crate::record::TaskRecord;
use crate::stops::next_stop;
use crate::sums::{KeptSums, Sums, asleep_sums, awake_sums};
use crate::task::Task;
use crate::views::{fill_views, set_order};
use lb_active::active_pick;
use lb_base::{MAX_CPUS, Mask, NoMemory, TaskView};
use lb_detach::{Env, Picked, picks};
use std::alloc::Global;
use std::marker::Model;

// The tasks of a queue, with room for those that may come. The awake ones are kept from the back to
// the front, so that a task joins at the end of the vector.
pub(crate) struct TaskLists {
    cpu: u32,
    awake: Vec<Awake>,
    asleep: Vec<Task>,
    gone: Vec<Task>,
    room: usize,
    booked: u64,
    // the awake tasks as a pull sees them, while one is made
    views: Vec<TaskView>,
}

impl Model for TaskLists {
    ghost use Rattle.std.specs.Prelude.{reverse, vec_capacity};
    ghost use Rattle.lb_queue.specs.Lists.{Lists, AreKept};

    ghost Value = { Lists };

    ghost view = { λ l. record {
      cpu = l.cpu;
      awake = reverse l.awake.items;
      asleep = l.asleep.items;
      gone = l.gone.items;
      room = l.room;
      booked = l.booked;
    } };

    ghost invariant = { λ l. AreKept (record {
      cpu = l.cpu;
      awake = reverse l.awake.items;
      asleep = l.asleep.items;
      gone = l.gone.items;
      room = l.room;
      booked = l.booked;
    }) (vec_capacity l.awake) (vec_capacity l.asleep)
        (vec_capacity l.gone) (vec_capacity l.views) };
}

impl TaskLists {
    ghost use Rattle.lb_base.specs.Mask.{has};
    ghost use Rattle.lb_queue.specs.Tasks.{task_with, without_task};
    ghost use Rattle.lb_queue.specs.Lists.{Lists, HasRoom, IsUnknown, load_of};

    pub(crate) fn new(alloc: Global, cpu: u32) -> TaskLists
        requires { cpu < MAX_CPUS }
        ensures { result ≡ record { cpu = cpu; awake = []; asleep = []; gone = []; room = 0; booked = 0 } }
    {
        TaskLists {
            cpu,
            awake: Vec::new(alloc),
            asleep: Vec::new(alloc),
            gone: Vec::new(alloc),
            room: 0,
            booked: 0,
            views: Vec::new(alloc),
        }
    }

    pub(crate) fn is_awake(&self, id: u32) -> bool
        ensures { result ≡ is_some (awake_with id self.now.awake) }
    {
        has_awake(&self.awake, id)
    }

    pub(crate) fn is_asleep(&self, id: u32) -> bool
        ensures { result ≡ is_some (task_with id self.now.asleep) }
    {
        has_task(&self.asleep, id)
    }

    pub(crate) fn is_gone(&self, id: u32) -> bool
        ensures { result ≡ is_some (task_with id self.now.gone) }
    {
        has_task(&self.gone, id)
    }

    // Makes room for so many tasks beside those that are known and those that are booked.
    pub(crate) fn make_room(&mut self, more: u64) -> Result<(), NoMemory>
        requires { more < 2 ^ 32 }
        ensures ok { OnOk result (load_of self.old + more ≤ self.new.room) }
        ensures lists { self.new ≡ record self.old { room = self.new.room } }
        ensures refused { OnErr result (self.new ≡ self.old) }
    {
        let need = self.awake.len() + self.asleep.len() + self.booked as usize + more as usize;
        if need <= self.room {
            return Ok(());
        }
        self.awake.reserve(need - self.awake.len())?;
        self.asleep.reserve(need - self.asleep.len())?;
        self.gone.reserve(need)?;
        self.views.reserve(need)?;
        self.room = need;
        Ok(())
    }

    // Books so many landings, for which there is room.
    pub(crate) fn add_booked(&mut self, more: u64)
        requires fits { self.old.booked + more < 2 ^ 32 }
        requires room { load_of self.old + more ≤ self.old.room }
        ensures { self.new ≡ record self.old { booked = self.old.booked + more } }
    {
        self.booked += more;
    }

    // Gives up so many bookings.
    pub(crate) fn unbook(&mut self, less: u64)
        requires { less ≤ self.old.booked }
        ensures { self.new ≡ record self.old { booked = self.old.booked - less } }
    {
        self.booked -= less;
    }

    // What a pull sees of the i-th awake task from the front, at a moment.
    pub(crate) fn view(&self, i: usize, now: u64) -> TaskView
        requires { i < length self.now.awake }
        ensures { slice_get (map (view_at now) self.now.awake) i ≡ Some result }
    {
        self.awake[self.awake.len() - 1 - i].view(now)
    }

    // The stop request of the least id, of the owed ones only if asked.
    pub(crate) fn next_stop(&self, owed: bool) -> Option<Stop>
        ensures value { result ≡ stop_of (next_asked owed self.now.awake) }
        ensures goes { IfSome result (λ s. stop_goes (awake_with s.id self.now.awake) ≡ Some s.to) }
    {
        next_stop(&self.awake, owed)
    }

    // The sums of what the signals say at a moment, those of the runnable averages over the awake
    // tasks alone.
    pub(crate) fn sums(&self, now: u64) -> Sums
        ensures load { result.load ≡ sum_by (λ a. (awake_value now a).load) self.now.awake + sum_by (λ t. (asleep_value now t).load) self.now.asleep }
        ensures util { result.util ≡ sum_by (λ a. (awake_value now a).util) self.now.awake + sum_by (λ t. (asleep_value now t).util) self.now.asleep }
        ensures runnable { result.runnable ≡ sum_by (λ a. (awake_value now a).runnable) self.now.awake }
    {
        let awake = awake_sums(&self.awake, now);
        let asleep = asleep_sums(&self.asleep, now);
        Sums {
            load: awake.load + asleep.load,
            util: awake.util + asleep.util,
            runnable: awake.runnable,
        }
    }

    // The same, with the moment.
    pub(crate) fn summed(&self, now: u64) -> KeptSums
        ensures at { result.at ≡ now }
        ensures sums { AreSumsOf self.now.awake self.now.asleep result }
    {
        KeptSums {
            at: now,
            sums: self.sums(now),
        }
    }

    // The sums that are kept, where they are of that moment, and else those of that moment.
    pub(crate) fn renewed(&self, kept: Option<KeptSums>, now: u64) -> KeptSums
        requires { IfSome kept (AreSumsOf self.now.awake self.now.asleep) }
        ensures at { result.at ≡ now }
        ensures sums { AreSumsOf self.now.awake self.now.asleep result }
    {
        match kept {
            None => self.summed(now),
            Some(kept) => {
                if kept.at == now {
                    kept
                } else {
                    self.summed(now)
                }
            }
        }
    }

    // How many tasks are awake.
    pub(crate) fn awake_len(&self) -> u32
        ensures { result ≡ length self.now.awake }
    {
        self.awake.len() as u32
    }

    // What is known of a sleeping task.
    pub(crate) fn asleep_task(&self, id: u32) -> Option<TaskRecord>
        ensures found { result ≡ task_with id self.now.asleep }
        ensures somewhere { IfSome result (λ t. is_empty t.mask ≡ false) }
    {
        found_task(&self.asleep, id)
    }

    // How many landings are booked.
    pub(crate) fn booked(&self) -> u64
        ensures { result ≡ self.now.booked }
    {
        self.booked
    }

    // Whether nobody is awake.
    pub(crate) fn is_idle(&self) -> bool
        ensures { result ≡ nobody self.now.awake }
    {
        is_nobody(&self.awake)
    }

    // A sleeping task is taken out.
    pub(crate) fn take_asleep(&mut self, id: u32) -> Option<Task>
        ensures found { result ≡ task_with id self.old.asleep }
        ensures lists { self.new ≡ record self.old { asleep = without_task id self.old.asleep } }
        ensures unknown { IfSome result (λ t. IsUnknown self.new t.id) }
        ensures room { IfSome result (λ _. HasRoom self.new) }
        ensures same { IfNone result (self.new ≡ self.old) }
    {
        take_task(&mut self.asleep, id)
    }

    // An awake task is taken out: put down where it runs, and then the one at the back is picked.
    pub(crate) fn take_awake(&mut self, id: u32, clock: u64) -> Option<Task>
        ensures found { result ≡ down_of clock (awake_with id self.old.awake) }
        ensures lists { self.new ≡ record self.old { awake = left_of clock (awake_with id self.old.awake) self.old.awake } }
        ensures unknown { IfSome result (λ t. IsUnknown self.new t.id) }
        ensures room { IfSome result (λ _. HasRoom self.new) }
        ensures same { IfNone result (self.new ≡ self.old) }
    {
        leave(&mut self.awake, id, clock)
    }

    // The awake task nearest the back that may run at a CPU is taken out.
    pub(crate) fn take_pushed(&mut self, to: u32, clock: u64) -> Option<Task>
        ensures found { result ≡ down_of clock (awake_named (pick_of (map (view_at clock) self.old.awake) to) self.old.awake) }
        ensures lists { self.new ≡ record self.old {
          awake = left_of clock
              (awake_named (pick_of (map (view_at clock) self.old.awake) to) self.old.awake) self.old.awake;
        } }
        ensures permitted { IfSome result (λ t. has t.mask to ≡ true) }
    {
        fill_views(&mut self.views, &self.awake, clock);
        match active_pick(&self.views, to) {
            Some(id) => self.take_awake(id, clock),
            None => None,
        }
    }

    // What a pull at a moment picks of the awake tasks, and what it leaves.
    pub(crate) fn examine(&mut self, now: u64, env: &Env, picked: &mut Picked)
        requires ids_room { length self.old.awake ≤ vec_capacity picked.old.ids }
        requires order_room { length self.old.awake ≤ vec_capacity picked.old.order }
        ensures same { self.new ≡ self.old }
        ensures once { (u : ℕ) → occurs u (awake_ids self.old.awake) ≤ 1 }
        ensures ids { picked.new.ids.items ≡ picked_ids env.now (map (view_at now) self.old.awake) }
        ensures order { picked.new.order.items ≡ kept_ids env.now (map (view_at now) self.old.awake) }
        ensures some_pinned { picked.new.some_pinned ≡ some_pinned env.now (map (view_at now) self.old.awake) }
        ensures all_pinned { picked.new.all_pinned ≡ all_pinned env.now (map (view_at now) self.old.awake) }
        ensures left { picked.new.left ≡ left_before env.now (map (view_at now) self.old.awake)
            (examined env.now (map (view_at now) self.old.awake)) }
        ensures ids_capacity { vec_capacity picked.new.ids ≡ vec_capacity picked.old.ids }
        ensures order_capacity { vec_capacity picked.new.order ≡ vec_capacity picked.old.order }
    {
        fill_views(&mut self.views, &self.awake, now);
        picks(&self.views, env, picked);
    }

    // The awake tasks stand in an order from now on, which has two parts of them the other way round.
    pub(crate) fn set_order(&mut self, order: &[u32])
        requires { IsTurned (awake_ids self.old.awake) order.now }
        ensures { self.new ≡ record self.old { awake = in_order order.now self.old.awake } }
    {
        set_order(&mut self.awake, order);
    }

    // A task that is known nowhere sleeps from now on.
    pub(crate) fn add_asleep(&mut self, task: Task)
        requires unknown { IsUnknown self.old task.id }
        requires room { HasRoom self.old }
        ensures { self.new ≡ record self.old { asleep = self.old.asleep ++ task ∷ [] } }
    {
        let _known = task.record();
        self.asleep.push_reserved(task);
    }

    // A task that is known nowhere is gone from now on. It needs no room any more.
    pub(crate) fn add_gone(&mut self, task: Task)
        requires unknown { IsUnknown self.old task.id }
        requires room { HasRoom self.old }
        ensures { self.new ≡ record self.old { gone = self.old.gone ++ task ∷ []; room = self.old.room - 1 } }
    {
        let _known = task.record();
        self.gone.push_reserved(task);
        self.room -= 1;
    }

    // A task lands, for which a landing is booked.
    fn land_one(&mut self, task: Task, clock: u64)
        requires unknown { IsUnknown self.old task.id }
        requires booked { 1 ≤ self.old.booked }
        requires permitted { has task.mask self.old.cpu ≡ true }
        ensures { self.new ≡ record self.old { awake = joined clock task self.old.awake; booked = self.old.booked - 1 } }
    {
        self.booked -= 1;
        self.join(task, clock);
    }

    // Tasks land, one after the other, for which landings are booked.
    pub(crate) fn land(&mut self, tasks: Vec<Task>, clock: u64)
        requires booked { length tasks.items ≤ self.old.booked }
        requires differ { (u : ℕ) → occurs u (ids tasks.items) ≤ 1 }
        requires unknown { (u : ℕ) → 1 ≤ occurs u (ids tasks.items) → stands self.old.awake self.old.asleep self.old.gone u ≡ 0 }
        requires permitted { list_all (λ t. has t.mask self.old.cpu) tasks.items ≡ true }
        ensures { self.new ≡ record self.old { awake = all_joined clock tasks.items self.old.awake; booked = self.old.booked - length tasks.items } }
    {
        let mut tasks = tasks;
        while !tasks.is_empty() {
            let task = tasks.remove(0);
            self.land_one(task, clock);
        }
        tasks.destroy_empty();
    }

    // Another task takes the place of the running one, and pending requests become owed.
    pub(crate) fn tick(&mut self, clock: u64)
        ensures { self.new ≡ record self.old { awake = map owes (rotated clock self.old.awake) } }
    {
        rotate(&mut self.awake, clock);
        owe_all(&mut self.awake);
    }

    // The awake task of that id gets a mask.
    pub(crate) fn mask_awake(&mut self, id: u32, mask: Mask)
        requires { is_empty mask ≡ false }
        ensures { self.new ≡ record self.old { awake = changed_awake id (masked self.old.cpu mask) self.old.awake } }
    {
        mask_awake(&mut self.awake, id, self.cpu, mask);
    }

    // The sleeping task of that id gets a mask.
    pub(crate) fn mask_asleep(&mut self, id: u32, mask: Mask)
        requires { is_empty mask ≡ false }
        ensures { self.new ≡ record self.old { asleep = changed_task id (with_mask mask) self.old.asleep } }
    {
        mask_asleep(&mut self.asleep, id, mask);
    }

    // The awake task of that id gets a nice value.
    pub(crate) fn renice_awake(&mut self, id: u32, nice: i32)
        requires low { negsuc 19 ≤ℤ nice }
        requires high { nice ≤ℤ pos 19 }
        ensures { self.new ≡ record self.old { awake = changed_awake id (reniced nice) self.old.awake } }
    {
        renice_awake(&mut self.awake, id, nice);
    }

    // The sleeping task of that id gets a nice value.
    pub(crate) fn renice_asleep(&mut self, id: u32, nice: i32)
        requires low { negsuc 19 ≤ℤ nice }
        requires high { nice ≤ℤ pos 19 }
        ensures { self.new ≡ record self.old { asleep = changed_task id (with_nice nice) self.old.asleep } }
    {
        renice_asleep(&mut self.asleep, id, nice);
    }

    // A task joins the front of the awake ones, and is picked where nobody runs.
    pub(crate) fn join(&mut self, task: Task, clock: u64)
        requires unknown { IsUnknown self.old task.id }
        requires room { HasRoom self.old }
        requires permitted { has task.mask self.old.cpu ≡ true }
        ensures { self.new ≡ record self.old { awake = joined clock task self.old.awake } }
    {
        let _known = task.record();
        join(&mut self.awake, task, clock);
    }
}

// Whether nobody is awake, in a list that is kept from the back to the front.
#[tactic(auto, using(crate::proofs::Turned::nobody_reverse))]
fn is_nobody(awake: &[Awake]) -> bool
    ensures { result ≡ nobody (reverse awake.now) }
{
    match awake {
        [] => true,
        [_, ..] => false,
    }
}

// Whether a task runs.
fn runs(awake: &[Awake]) -> bool
    ensures { result ≡ list_any (λ a. a.running) awake.now }
{
    awake.iter().any(|a| a.running)
}

// A task joins the front, which is the end of the vector.
fn join(awake: &mut Vec<Awake>, task: Task, clock: u64)
    requires { vec_len awake.old < vec_capacity awake.old }
    ensures items { reverse awake.new.items ≡ joined clock task (reverse awake.old.items) }
    ensures len { vec_len awake.new ≡ vec_len awake.old + 1 }
    ensures capacity { vec_capacity awake.new ≡ vec_capacity awake.old }
{
    if runs(awake) {
        awake.push_reserved(Awake::waiting(task));
    } else {
        awake.push_reserved(Awake::waiting(task).picked(clock));
    }
}

// The task at the back is picked, and goes to the front.
fn pick_back(awake: &mut Vec<Awake>, clock: u64)
    ensures items { reverse awake.new.items ≡ pick_back clock (reverse awake.old.items) }
    ensures len { vec_len awake.new ≡ vec_len awake.old }
    ensures capacity { vec_capacity awake.new ≡ vec_capacity awake.old }
{
    if awake.is_empty() {
        return;
    }
    let back = awake.remove(0);
    awake.push_reserved(back.picked(clock));
}

// Where the task that left ran, the one at the back is picked.
fn pick_after(awake: &mut Vec<Awake>, ran: bool, clock: u64)
    ensures items { reverse awake.new.items ≡ (if ran then pick_back clock (reverse awake.old.items) else reverse awake.old.items) }
    ensures len { vec_len awake.new ≡ vec_len awake.old }
    ensures capacity { vec_capacity awake.new ≡ vec_capacity awake.old }
{
    if ran {
        pick_back(awake, clock);
    }
}

// An awake task leaves the list, in which it stands at most once.
fn leave(awake: &mut Vec<Awake>, id: u32, clock: u64) -> Option<Task>
    requires { occurs id (awake_ids awake.old.items) ≤ 1 }
    ensures found { result ≡ down_of clock (awake_with id (reverse awake.old.items)) }
    ensures rest { reverse awake.new.items ≡ left_of clock (awake_with id (reverse awake.old.items)) (reverse awake.old.items) }
    ensures len { MatchOption result (vec_len awake.new ≡ vec_len awake.old) (λ _. vec_len awake.new + 1 ≡ vec_len awake.old) }
    ensures capacity { vec_capacity awake.new ≡ vec_capacity awake.old }
{
    match take_awake(awake, id) {
        Some(a) => {
            pick_after(awake, a.running, clock);
            Some(a.set_down(clock))
        }
        None => None,
    }
}

// Where two or more are awake, the one nearest the back that does not run takes the place of the
// running one.
fn rotate(awake: &mut Vec<Awake>, clock: u64)
    requires { (u : ℕ) → occurs u (awake_ids awake.old.items) ≤ 1 }
    ensures items { reverse awake.new.items ≡ rotated clock (reverse awake.old.items) }
    ensures len { vec_len awake.new ≡ vec_len awake.old }
    ensures capacity { vec_capacity awake.new ≡ vec_capacity awake.old }
{
    if awake.len() < 2 {
        return;
    }
    if let Some(at) = first_waiting(awake) {
        let next = awake.remove(at);
        preempt_all(awake, clock);
        awake.push_reserved(next.picked(clock));
    }
}

// The first place of a task that waits.
fn first_waiting(awake: &[Awake]) -> Option<usize>
    ensures { result ≡ position (λ a. not a.running) awake.now }
{
    awake.iter().position(|a| !a.running)
}

// Pending requests become owed.
fn owe_all(awake: &mut Vec<Awake>)
    ensures items { awake.new.items ≡ map owes awake.old.items }
    ensures len { vec_len awake.new ≡ vec_len awake.old }
    ensures capacity { vec_capacity awake.new ≡ vec_capacity awake.old }
{
    for a in awake.iter_mut() {
        a.owe();
    }
}

// The running task is put down and waits.
fn preempt_all(awake: &mut Vec<Awake>, clock: u64)
    ensures items { awake.new.items ≡ map (preempted clock) awake.old.items }
    ensures len { vec_len awake.new ≡ vec_len awake.old }
    ensures capacity { vec_capacity awake.new ≡ vec_capacity awake.old }
{
    for a in awake.iter_mut() {
        a.preempt(clock);
    }
}

// The task of that id gets a mask.
fn mask_awake(awake: &mut Vec<Awake>, id: u32, cpu: u32, mask: Mask)
    requires cpu { cpu < MAX_CPUS }
    requires somewhere { is_empty mask ≡ false }
    ensures items { awake.new.items ≡ changed_awake id (masked cpu mask) awake.old.items }
    ensures capacity { vec_capacity awake.new ≡ vec_capacity awake.old }
{
    for a in awake.iter_mut() {
        a.set_mask(id, cpu, mask);
    }
}

// The task of that id, which sleeps, gets a mask.
fn mask_asleep(tasks: &mut Vec<Task>, id: u32, mask: Mask)
    requires { is_empty mask ≡ false }
    ensures items { tasks.new.items ≡ changed_task id (with_mask mask) tasks.old.items }
    ensures capacity { vec_capacity tasks.new ≡ vec_capacity tasks.old }
{
    for t in tasks.iter_mut() {
        t.set_mask(id, mask);
    }
}

// The task of that id gets a nice value.
fn renice_awake(awake: &mut Vec<Awake>, id: u32, nice: i32)
    requires once { occurs id (awake_ids awake.old.items) ≤ 1 }
    requires low { negsuc 19 ≤ℤ nice }
    requires high { nice ≤ℤ pos 19 }
    ensures items { awake.new.items ≡ changed_awake id (reniced nice) awake.old.items }
    ensures capacity { vec_capacity awake.new ≡ vec_capacity awake.old }
{
    if let Some(at) = place_of_awake(awake, id) {
        awake[at].renice(nice);
    }
}

fn renice_asleep(tasks: &mut Vec<Task>, id: u32, nice: i32)
    requires once { occurs id (ids tasks.old.items) ≤ 1 }
    requires low { negsuc 19 ≤ℤ nice }
    requires high { nice ≤ℤ pos 19 }
    ensures items { tasks.new.items ≡ changed_task id (with_nice nice) tasks.old.items }
    ensures capacity { vec_capacity tasks.new ≡ vec_capacity tasks.old }
{
    if let Some(at) = place_of(tasks, id) {
        tasks[at].renice(nice);
    }
}

// The tasks of a list end.
fn end_tasks(mut tasks: Vec<Task>) {
    while let Some(task) = tasks.pop() {
        task.spend();
    }
    tasks.destroy_empty();
}

fn end_awake(mut awake: Vec<Awake>) {
    while let Some(a) = awake.pop() {
        let Awake {
            task,
            running: _,
            stop: _,
        } = a;
        task.spend();
    }
    awake.destroy_empty();
}

impl Drop for TaskLists {
    fn drop(self) {
        let TaskLists {
            cpu: _,
            awake,
            asleep,
            gone,
            room: _,
            booked: _,
            views: _,
        } = self;
        end_awake(awake);
        end_tasks(asleep);
        end_tasks(gone);
    }
}
