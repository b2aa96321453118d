//! The steps of the entries that queues draw, but for those that move tasks from queue to queue.
ghost use Rattle.std.specs.Prelude.{◌≡◌, ◌<◌, ◌≤◌, ◌+◌, ◌^◌, ℕ, length, vec_len, IfSome, OnOk};
ghost use Rattle.std.specs.List.{slice_index_or};
ghost use Rattle.lb_base.specs.declared.mask.TheConstants.{MAX_CPUS};
ghost use Rattle.lb_core.specs.declared.entry.Owner.TheVariants as owner;
ghost use Rattle.lb_core.specs.declared.entry.What.TheVariants as what;
ghost use Rattle.lb_core.specs.declared.place.Place.{Place};
ghost use Rattle.lb_core.specs.Course.{task_of};
ghost use Rattle.lb_core.specs.Machine.{course_at, queue_at, figures_at};
ghost use Rattle.lb_core.specs.Step.{places_after, places_by};
ghost use Rattle.lb_core.specs.Asks.{CommandAsks};
ghost use Rattle.lb_engine.specs.Asks.{is_awake_place};

use super::Engine;
use lb_act::obey;
use lb_base::NoMemory;
use lb_core::Place;
use lb_course::{answered, drew, go_on, kicked, task_of};
use lb_queue::{AskReply, Reply};
use lb_trace::Command;
use std::alloc::Global;

// Whether the map has the task of a command awake.
fn is_awake(places: &[Place], command: &Option<Command>) -> bool
    requires { IfSome (task_of command.now) (λ t. t < length places.now) }
    ensures { (d : Place) → IfSome (task_of command.now) (λ t. result ≡ is_awake_place (slice_index_or places.now t d)) }
{
    match task_of(command) {
        None => false,
        Some(task) => matches!(places[task as usize], Place::Awake(_)),
    }
}

// The places after an answer.
fn place(places: &mut Vec<Place>, reply: Reply, cpu: u32, command: &Option<Command>)
    requires { IfSome (task_of command.now) (λ t. t < vec_len places.old) }
    ensures { (lane : ℕ) → places.new.items ≡ places_after (what.Did reply) (owner.Queue cpu) lane command.now places.old.items }
{
    match reply {
        Reply::Done => place_by(places, cpu, command),
        Reply::Already | Reply::NotHere | Reply::Gone | Reply::BadMask => (),
    }
}

// The places after a command that was carried out.
fn place_by(places: &mut Vec<Place>, cpu: u32, command: &Option<Command>)
    requires { IfSome (task_of command.now) (λ t. t < vec_len places.old) }
    ensures { places.new.items ≡ places_by command.now cpu places.old.items }
{
    match command {
        Some(Command::Wake { task }) => places[*task as usize] = Place::Awake(cpu),
        Some(Command::Sleep { task }) => places[*task as usize] = Place::Asleep(cpu),
        Some(Command::Exit { task }) => places[*task as usize] = Place::Gone(cpu),
        Some(
            Command::SetMask { .. }
            | Command::Nice { .. }
            | Command::Tick { .. }
            | Command::Rebuild { .. },
        )
        | None => (),
    }
}

impl Engine {
    ghost use Rattle.lb_engine.specs.Asks.{IsMapped};
    ghost use Rattle.lb_engine.specs.Held.{spare_at};
    ghost use Rattle.lb_engine.specs.Steps.{becomes, of_queue, served, published};

    // There is room for a figure more of a CPU.
    pub(super) fn make_room(&mut self, cpu: u32) -> Result<(), NoMemory>
        requires { cpu < length self.old.machine.figures }
        ensures machine { self.new.machine ≡ self.old.machine }
        ensures hands { self.new.hands ≡ self.old.hands }
        ensures booked { self.new.booked ≡ self.old.booked }
        ensures room { OnOk result (1 ≤ spare_at self.new.spare cpu) }
    {
        self.figures[cpu as usize].reserve(1)?;
        Ok(())
    }

    // The queue of a CPU publishes its figure, which its lane knows from then on.
    pub(super) fn publish_figure(&mut self, cpu: u32, lane: u32)
        requires lane { lane < length self.old.machine.courses }
        requires cpu { cpu < length self.old.machine.queues }
        requires figures { cpu < length self.old.machine.figures }
        requires room { 1 ≤ spare_at self.old.spare cpu }
        requires named { cpu < length (course_at self.old.machine.courses lane).named }
        requires ticket { self.old.machine.ticket + 1 < 2 ^ 64 }
        ensures machine { self.new.machine ≡ published self.old.machine cpu lane }
        ensures hands { self.new.hands ≡ self.old.hands }
        ensures booked { self.new.booked ≡ self.old.booked }
    {
        let figures = &mut self.figures[cpu as usize];
        let number = figures.as_slice().len() as u64;
        let figure = self.queues[cpu as usize].figure(number, self.ticket + 1);
        figures.push_reserved(figure);
        drew(&mut self.courses[lane as usize], cpu, number);
    }

    // A queue answers a command.
    pub(super) fn take_answer(&mut self, alloc: Global, lane: u32, cpu: u32, reply: Reply)
        requires lane { lane < length self.old.machine.courses }
        requires cpu { cpu < length self.old.machine.queues }
        requires asks { CommandAsks (course_at self.old.machine.courses lane).command (queue_at self.old.machine.queues cpu) }
        requires mapped { IsMapped self.old.machine (queue_at self.old.machine.queues cpu) (task_of (course_at self.old.machine.courses lane).command) }
        ensures { self.new ≡ becomes (served self.old.machine (of_queue cpu lane (what.Did reply))) self.old }
    {
        let course = &mut self.courses[lane as usize];
        let queue = &mut self.queues[cpu as usize];
        let was_awake = is_awake(&self.places, &course.command);
        let _same = obey(queue, course.at, &course.command) == reply;
        place(&mut self.places, reply, cpu, &course.command);
        answered(alloc, course, cpu, was_awake, queue.len());
    }

    // A queue is asked to push a task.
    pub(super) fn take_ask(&mut self, lane: u32, cpu: u32, reply: AskReply)
        requires lane { lane < length self.old.machine.courses }
        requires cpu { cpu < length self.old.machine.queues }
        requires position { (course_at self.old.machine.courses lane).position < MAX_CPUS }
        ensures { self.new ≡ becomes (served self.old.machine (of_queue cpu lane (what.Ask reply))) self.old }
    {
        let course = &mut self.courses[lane as usize];
        let _same = self.queues[cpu as usize].ask_active(course.at, course.cpu) == reply;
        go_on(course);
    }

    // A tickless CPU is kicked.
    pub(super) fn take_kick(&mut self, alloc: Global, lane: u32, cpu: u32, reply: AskReply)
        requires lane { lane < length self.old.machine.courses }
        requires cpu { cpu < length self.old.machine.queues }
        ensures { self.new ≡ becomes (served self.old.machine (of_queue cpu lane (what.Kick reply))) self.old }
    {
        let course = &mut self.courses[lane as usize];
        let _same = self.queues[cpu as usize].kick(course.at) == reply;
        kicked(alloc, course, reply);
    }
}
