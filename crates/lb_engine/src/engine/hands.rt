//! The steps of the entries that move tasks from queue to queue: they leave in the hand of a lane, and land.
ghost use Rattle.std.specs.Prelude.{◌≡◌, ◌<◌, ◌≤◌, ◌+◌, ◌-◌, ◌^◌, ℕ, List, [], length, All, IfOk, OnOk, OnErr, None, Some, IsSome, IsSomeAnd, is_some, false, true, slice_set, vec_len, vec_capacity};
ghost use Rattle.lb_base.specs.declared.mask.TheConstants.{MAX_CPUS};
ghost use Rattle.lb_core.specs.declared.entry.What.TheVariants as what;
ghost use Rattle.lb_core.specs.Course.{source_of};
ghost use Rattle.lb_core.specs.CourseAfter.{takes_off, lands};
ghost use Rattle.lb_core.specs.Leaving.{wake_to, wake_out, stop_out, push_out, served_out, pull_out, leaving};
ghost use Rattle.lb_core.specs.Machine.{course_at, queue_at, sight};
ghost use Rattle.lb_core.specs.Step.{set_places, closing_after};
ghost use Rattle.lb_queue.specs.declared.answers.OutCause.{OutCause};
ghost use Rattle.lb_queue.specs.Queue.{away};
ghost use Rattle.lb_queue.specs.Requests.{next_stop};
ghost use Rattle.lb_core.specs.QueueAfter.{cause_of, rest_of};
ghost use Rattle.lb_queue.specs.Hands.{land};
ghost use Rattle.lb_core.specs.Asks.{LandingAsks};
ghost use Rattle.lb_engine.specs.Held.{IsInFlight};
ghost use Rattle.lb_engine.specs.Leaves.{GoesTo, HaveLeft, IsDue, out_with};

use super::Engine;
use lb_act::{arrive, blank_records, note_records};
use lb_base::NoMemory;
use lb_core::{Course, Form, Place, TaskRecords};
use lb_course::taken_off;
use lb_detach::{EXAMINED_AT_MOST, Env, Picked};
use lb_queue::{Hand, OutCause, Queue, Taken};
use lb_trace::Command;
use std::alloc::Global;
use std::mem;

// A hand comes to a lane that has none.
fn give(slot: &mut Option<Hand>, hand: Hand)
    requires { slot.old ≡ None }
    ensures { slot.new ≡ Some hand }
{
    match mem::replace(slot, Some(hand)) {
        None => (),
        Some(earlier) => earlier.put_away(),
    }
}

// The hand of a lane, which has none from then on.
fn take_back(slot: &mut Option<Hand>) -> Hand
    requires { IsSome slot.old }
    ensures hand { slot.old ≡ Some result }
    ensures none { slot.new ≡ None }
{
    match mem::replace(slot, None) {
        None => unreachable!(),
        Some(hand) => hand,
    }
}

// The tasks are at a place.
fn place_all(places: &mut Vec<Place>, ids: &[u32], place: Place)
    requires { All (λ t. t < vec_len places.old) ids.now }
    ensures { places.new.items ≡ set_places ids.now place places.old.items }
{
    for id in ids {
        places[*id as usize] = place;
    }
}

// The task leaves, where it has to wake elsewhere.
fn leave_asleep(queue: &mut Queue, at: u64, id: u32, hand: &mut Hand)
    requires goes { GoesTo (wake_to (away queue.old.state id) at id queue.old.state) hand.old.to }
    requires empty { hand.old.tasks ≡ [] }
    requires room { 0 < hand.old.room }
    ensures left { HaveLeft (wake_to (away queue.old.state id) at id queue.old.state) queue.new.state hand.old hand.new None }
    ensures booked { queue.new.booked ≡ queue.old.booked }
{
    match queue.away(id) {
        None => (),
        Some(_) => queue.leave(at, id, hand),
    }
}

// The woken task leaves, where it has to wake elsewhere.
fn leave_to_wake(queue: &mut Queue, at: u64, command: &Option<Command>, hand: &mut Hand)
    requires goes { GoesTo (wake_out command.now at queue.old.state) hand.old.to }
    requires empty { hand.old.tasks ≡ [] }
    requires room { 0 < hand.old.room }
    ensures left { HaveLeft (wake_out command.now at queue.old.state) queue.new.state hand.old hand.new None }
    ensures booked { queue.new.booked ≡ queue.old.booked }
{
    match command {
        Some(Command::Wake { task }) => leave_asleep(queue, at, *task, hand),
        _ => (),
    }
}

// The task of the next stop request leaves, of the owed requests only if asked. Answers whether there was
// one.
fn leave_by_stop(queue: &mut Queue, at: u64, owed: bool, hand: &mut Hand) -> bool
    requires goes { GoesTo (stop_out (next_stop queue.old.state owed) at queue.old.state) hand.old.to }
    requires empty { hand.old.tasks ≡ [] }
    requires room { 0 < hand.old.room }
    ensures answer { result ≡ is_some (next_stop queue.old.state owed) }
    ensures left { HaveLeft (stop_out (next_stop queue.old.state owed) at queue.old.state) queue.new.state hand.old hand.new None }
    ensures booked { queue.new.booked ≡ queue.old.booked }
    ensures none { result ≡ false → queue.new ≡ queue.old }
    ensures same { result ≡ false → hand.new ≡ hand.old }
{
    match queue.next_stop(owed) {
        None => false,
        Some(stop) => {
            queue.take_stop(at, stop.id, hand);
            true
        }
    }
}

// A task leaves by the active request, if one is pending.
fn leave_by_push(queue: &mut Queue, at: u64, hand: &mut Hand)
    requires goes { GoesTo (push_out queue.old.state.active at queue.old.state) hand.old.to }
    requires empty { hand.old.tasks ≡ [] }
    requires room { 0 < hand.old.room }
    ensures left { HaveLeft (push_out queue.old.state.active at queue.old.state) queue.new.state hand.old hand.new None }
    ensures booked { queue.new.booked ≡ queue.old.booked }
{
    match queue.active() {
        None => (),
        Some(_) => {
            let _pushed = queue.take_push(at, hand);
        }
    }
}

// Tasks leave by a pull, if one is due.
fn leave_by_pull(
    queue: &mut Queue,
    at: u64,
    env: Option<Env>,
    picked: &mut Picked,
    hand: &mut Hand,
) -> Option<Taken>
    requires goes { GoesTo (pull_out env at queue.old.state) hand.old.to }
    requires empty { hand.old.tasks ≡ [] }
    requires room { EXAMINED_AT_MOST ≤ hand.old.room }
    requires ids_room { length queue.old.state.awake ≤ vec_capacity picked.old.ids }
    requires order_room { length queue.old.state.awake ≤ vec_capacity picked.old.order }
    ensures left { HaveLeft (pull_out env at queue.old.state) queue.new.state hand.old hand.new result }
    ensures booked { queue.new.booked ≡ queue.old.booked }
{
    match env {
        None => None,
        Some(env) => Some(queue.take(at, &env, picked, hand)),
    }
}

// At a tick: the next owed stop, or the push.
fn leave_at_tick(queue: &mut Queue, at: u64, hand: &mut Hand)
    requires goes { GoesTo (served_out (next_stop queue.old.state true) at queue.old.state) hand.old.to }
    requires empty { hand.old.tasks ≡ [] }
    requires room { 0 < hand.old.room }
    ensures left { HaveLeft (served_out (next_stop queue.old.state true) at queue.old.state) queue.new.state hand.old hand.new None }
    ensures booked { queue.new.booked ≡ queue.old.booked }
{
    if !leave_by_stop(queue, at, true, hand) {
        leave_by_push(queue, at, hand);
    }
}

// The `out` that is due, by the form of the course: tasks leave the queue in a hand.
fn leave(
    queue: &mut Queue,
    course: &Course,
    env: Option<Env>,
    picked: &mut Picked,
    hand: &mut Hand,
) -> Option<Taken>
    requires goes { GoesTo (out_with course.now.form env course.now queue.old.state) hand.old.to }
    requires empty { hand.old.tasks ≡ [] }
    requires room { EXAMINED_AT_MOST ≤ hand.old.room }
    requires ids_room { length queue.old.state.awake ≤ vec_capacity picked.old.ids }
    requires order_room { length queue.old.state.awake ≤ vec_capacity picked.old.order }
    ensures left { HaveLeft (out_with course.now.form env course.now queue.old.state) queue.new.state hand.old hand.new result }
    ensures booked { queue.new.booked ≡ queue.old.booked }
{
    match course.form {
        Form::Asked => {
            leave_to_wake(queue, course.at, &course.command, hand);
            None
        }
        Form::Rest => {
            let _left = leave_by_stop(queue, course.at, false, hand);
            None
        }
        Form::Serving => {
            leave_at_tick(queue, course.at, hand);
            None
        }
        Form::Looked => leave_by_pull(queue, course.at, env, picked, hand),
        Form::Flight
        | Form::Due
        | Form::Used
        | Form::Position
        | Form::Landed
        | Form::Closed
        | Form::Done
        | Form::ScanDue
        | Form::Kicking
        | Form::Ended => None,
    }
}

// Whether the closing of the history has begun, once tasks leave a queue: a stop at rest begins it.
fn closes(closing: bool, course: &Course) -> bool
    ensures { (cause : OutCause) → (to : ℕ) → (ids : List ℕ) → result ≡ closing_after (what.Out cause to ids) course.now.form closing }
{
    match course.form {
        Form::Rest => true,
        Form::Asked
        | Form::Flight
        | Form::Serving
        | Form::Due
        | Form::Used
        | Form::Position
        | Form::Looked
        | Form::Landed
        | Form::Closed
        | Form::Done
        | Form::ScanDue
        | Form::Kicking
        | Form::Ended => closing,
    }
}

// Tasks leave a queue in the hand of a lane, as its course notes. There is a record for each of them.
fn depart(
    queue: &mut Queue,
    course: &mut Course,
    cause: OutCause,
    env: Option<Env>,
    picked: &mut Picked,
    hand: &mut Hand,
    mut records: TaskRecords,
)
    requires due { IsDue (out_with course.old.form env course.old queue.old.state) cause hand.old.to (length records) }
    requires empty { hand.old.tasks ≡ [] }
    requires few { length records < 2 ^ 32 }
    requires room { EXAMINED_AT_MOST ≤ hand.old.room }
    requires ids_room { length queue.old.state.awake ≤ vec_capacity picked.old.ids }
    requires order_room { length queue.old.state.awake ≤ vec_capacity picked.old.order }
    ensures queue { queue.new.state ≡ rest_of (out_with course.old.form env course.old queue.old.state) queue.old.state }
    ensures course { course.new ≡ takes_off (out_with course.old.form env course.old queue.old.state) course.old }
    ensures hand { IsInFlight hand.new course.new }
    ensures to { hand.new.to ≡ hand.old.to }
    ensures tasks { length hand.new.tasks ≡ length records }
    ensures booked { queue.new.booked ≡ queue.old.booked }
{
    let taken = leave(queue, course, env, picked, hand);
    note_records(&mut records, hand);
    taken_off(course, cause, hand.to(), hand.moment(), records, taken);
}

impl Engine {
    ghost use Rattle.lb_engine.specs.Asks.{PullAsks};
    ghost use Rattle.lb_engine.specs.Held.{hand_at, booked_at};
    ghost use Rattle.lb_engine.specs.Leaves.{HasLoaded, HasTakenOff, HasLanded, IsEnvDue};
    ghost use Rattle.lb_engine.specs.Steps.{of_queue, served};

    // Books so many landings at the queue of a CPU. A refusal changes nothing.
    fn book(&mut self, cpu: u32, count: usize) -> Result<(), NoMemory>
        requires cpu { cpu < length self.old.machine.queues }
        requires few { booked_at self.old.booked cpu + count < 2 ^ 32 }
        ensures ok { OnOk result (self.new ≡ record self.old { booked = slice_set self.old.booked cpu (booked_at self.old.booked cpu + count) }) }
        ensures refused { OnErr result (self.new ≡ self.old) }
    {
        self.queues[cpu as usize].book(count as u64)?;
        Ok(())
    }

    // What the pull that is due asks for, where one is.
    fn env(&self, lane: u32) -> Option<Env>
        requires lane { lane < length self.now.machine.courses }
        requires pull { PullAsks (course_at self.now.machine.courses lane).form self.now.machine (course_at self.now.machine.courses lane) }
        ensures { IsEnvDue (course_at self.now.machine.courses lane).form self.now.machine.header (course_at self.now.machine.courses lane) result }
    {
        match self.courses[lane as usize].form {
            Form::Looked => self.turn(lane).env(),
            Form::Rest
            | Form::Asked
            | Form::Flight
            | Form::Serving
            | Form::Due
            | Form::Used
            | Form::Position
            | Form::Landed
            | Form::Closed
            | Form::Done
            | Form::ScanDue
            | Form::Kicking
            | Form::Ended => None,
        }
    }

    // Tasks leave a queue in the hand of a lane. Their landings are booked.
    fn take_off(
        &mut self,
        lane: u32,
        cpu: u32,
        cause: OutCause,
        ids: &[u32],
        picked: &mut Picked,
        mut hand: Hand,
        records: TaskRecords,
    )
        requires lane { lane < length self.old.machine.courses }
        requires cpu { cpu < length self.old.machine.queues }
        requires lanes { lane < length self.old.hands }
        requires pull { PullAsks (course_at self.old.machine.courses lane).form self.old.machine (course_at self.old.machine.courses lane) }
        requires due { IsDue (leaving (sight self.old.machine (of_queue cpu lane (what.Out cause hand.to ids.now)))) cause hand.to (length records) }
        requires places { All (λ t. t < length self.old.machine.places) ids.now }
        requires none { hand_at self.old.hands lane ≡ None }
        requires empty { hand.tasks ≡ [] }
        requires few { length records < 2 ^ 32 }
        requires room { EXAMINED_AT_MOST ≤ hand.room }
        requires ids_room { length (queue_at self.old.machine.queues cpu).awake ≤ vec_capacity picked.old.ids }
        requires order_room { length (queue_at self.old.machine.queues cpu).awake ≤ vec_capacity picked.old.order }
        ensures machine { self.new.machine ≡ served self.old.machine (of_queue cpu lane (what.Out cause hand.to ids.now)) }
        ensures hand { HasLoaded self.old self.new lane hand.to (length records) }
        ensures booked { self.new.booked ≡ self.old.booked }
        ensures spare { self.new.spare ≡ self.old.spare }
    {
        let env = self.env(lane);
        let course = &mut self.courses[lane as usize];
        let queue = &mut self.queues[cpu as usize];
        self.closing = closes(self.closing, course);
        depart(queue, course, cause, env, picked, &mut hand, records);
        give(&mut self.hands[lane as usize], hand);
        place_all(&mut self.places, ids, Place::Hand(lane));
    }

    // Tasks leave a queue. Their landings are booked first, and nothing is refused once one has left.
    pub(super) fn take_out(
        &mut self,
        alloc: Global,
        lane: u32,
        cpu: u32,
        cause: OutCause,
        to: u32,
        ids: &[u32],
    ) -> Result<(), NoMemory>
        requires lane { lane < length self.old.machine.courses }
        requires cpu { cpu < length self.old.machine.queues }
        requires lanes { lane < length self.old.hands }
        requires to { to < length self.old.machine.queues }
        requires few { booked_at self.old.booked to + length ids.now < 2 ^ 32 }
        requires pull { PullAsks (course_at self.old.machine.courses lane).form self.old.machine (course_at self.old.machine.courses lane) }
        requires due { IsDue (leaving (sight self.old.machine (of_queue cpu lane (what.Out cause to ids.now)))) cause to (length ids.now) }
        requires places { All (λ t. t < length self.old.machine.places) ids.now }
        requires none { hand_at self.old.hands lane ≡ None }
        ensures machine { OnOk result (self.new.machine ≡ served self.old.machine (of_queue cpu lane (what.Out cause to ids.now))) }
        ensures hand { OnOk result (HasTakenOff self.old self.new lane to) }
        ensures spare { self.new.spare ≡ self.old.spare }
        ensures refused { OnErr result (self.new ≡ self.old) }
    {
        let records = blank_records(alloc, ids.len())?;
        let mut picked = Picked::new(alloc, self.queues[cpu as usize].len() as usize)?;
        let hand = Hand::empty(alloc, to, EXAMINED_AT_MOST)?;
        match self.book(to, ids.len()) {
            Ok(()) => {
                self.take_off(lane, cpu, cause, ids, &mut picked, hand, records);
                Ok(())
            }
            Err(refused) => {
                hand.put_away();
                Err(refused)
            }
        }
    }

    // The tasks of a hand land at their queue.
    pub(super) fn take_landing(&mut self, alloc: Global, lane: u32, cpu: u32, ids: &[u32])
        requires lane { lane < length self.old.machine.courses }
        requires cpu { cpu < length self.old.machine.queues }
        requires lanes { lane < length self.old.hands }
        requires asks { LandingAsks (course_at self.old.machine.courses lane) (queue_at self.old.machine.queues cpu) }
        requires source { source_of (course_at self.old.machine.courses lane).decision < MAX_CPUS }
        requires places { All (λ t. t < length self.old.machine.places) ids.now }
        requires held { IsSomeAnd (hand_at self.old.hands lane) (λ h. IsInFlight h (course_at self.old.machine.courses lane)) }
        requires booked { IsSomeAnd (hand_at self.old.hands lane) (λ h. length h.tasks ≤ booked_at self.old.booked cpu) }
        ensures machine { self.new.machine ≡ served self.old.machine (of_queue cpu lane (what.Landed ids.now)) }
        ensures hand { IsSomeAnd (hand_at self.old.hands lane) (λ h. HasLanded self.old self.new h lane cpu) }
        ensures spare { self.new.spare ≡ self.old.spare }
    {
        let course = &mut self.courses[lane as usize];
        let queue = &mut self.queues[cpu as usize];
        let hand = take_back(&mut self.hands[lane as usize]);
        arrive(alloc, queue, course, hand);
        place_all(&mut self.places, ids, Place::Awake(cpu));
    }
}
