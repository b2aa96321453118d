//! The service of one stop request: the `out` at its queue, and the `in` where its task goes. Each is drawn above all that
//! was drawn before: the seat that draws follows lane 0's, which follows it in turn.
ghost use Rattle.std.specs.Prelude.{ℕ, ◌≡◌, ◌<◌, ◌≤◌, ◌+◌, ◌^◌, ◌∷◌, [], None, Some, false, length, slice_get, slice_set};
ghost use Rattle.lb_queue.specs.declared.answers.OutCause.TheVariants as cause;
ghost use Rattle.lb_queue.specs.Hands.{stop_to};
ghost use Rattle.lb_queue.specs.Requests.{next_stop};
ghost use Rattle.lb_queue.specs.Tasks.{ids};
ghost use Rattle.lb_core.specs.declared.course.Form.TheVariants as form;
ghost use Rattle.lb_core.specs.declared.entry.Owner.TheVariants as owner;
ghost use Rattle.lb_core.specs.declared.entry.What.TheVariants as what;
ghost use Rattle.lb_core.specs.Asks.{LandingAsks};
ghost use Rattle.lb_act.specs.Hands.{IsLoaded};
ghost use Rattle.lb_end.specs.Drawing.{Drew, HasLeft, booked_at, first_course, first_ticket, item_of, state_at};
ghost use Rattle.lb_end.specs.Closing.{ClosesOn, pending_now};
ghost use Rattle.lb_end.specs.Seats.{list_at, spare_at};

use crate::ended::Ended;
use crate::stops::{draw_in, draw_out};
use lb_cell::Names;
use lb_core::{Ids, TaskRecords};
use lb_journal::laws::{closes_now, closing_goes_on, growth_keeps, queue_grows};
use lb_queue::{Hand, Stop};
use std::alloc::Global;

impl<N: Names> Ended<N> {
    // The task of a queue's next pending stop request leaves in a hand that goes where it does.
    fn leave(
        &mut self,
        alloc: Global,
        cpu: u32,
        stop: Stop,
        hand: &mut Hand,
        records: TaskRecords,
        out: Ids,
    )
        requires cpu { cpu < length N.header.cpus }
        requires rest { (first_course self.old).form ≡ form.Rest }
        requires room { (0 < spare_at self.old.seats (17 + cpu)) × (length (list_at self.old.seats (17 + cpu)) + 1 < 2 ^ 40) }
        requires stop { (next_stop (state_at N.header self.old cpu) false ≡ Some stop)
            × (stop_to (state_at N.header self.old cpu) stop.id ≡ Some hand.old.to) × (stop.to ≡ hand.old.to) }
        requires hand { (hand.old.tasks ≡ []) × (0 < hand.old.room) }
        requires lists { (length records ≡ 1) × (out ≡ stop.id ∷ []) }
        ensures drew { Drew (17 + cpu) (item_of N.header (owner.Queue cpu) (first_course self.old) (first_course self.new)
            (first_ticket self.old) (what.Out cause.Stop hand.new.to out)) self.old self.new }
        ensures course { ((first_course self.new).form ≡ form.Flight) × ((first_course self.new).cause ≡ Some cause.Stop)
            × ((first_course self.new).command ≡ None) × ((first_course self.new).decision ≡ None) }
        ensures loaded { IsLoaded hand.new (first_course self.new) }
        ensures hand { (hand.new.to ≡ hand.old.to) × (ids hand.new.tasks ≡ stop.id ∷ []) }
        ensures booked { (k : ℕ) → booked_at self.new k ≡ booked_at self.old k }
    {
        // the lists and the queues go on as they were
        growth_keeps();
        queue_grows();
        // reads what it keeps
        self.keeps();
        draw_out(
            alloc,
            &self.header,
            &self.book,
            cpu,
            &mut self.queues[cpu as usize],
            &mut self.seats[17 + cpu as usize],
            &mut self.courses[0],
            &mut self.tickets[0],
            &mut self.notes[0],
            stop,
            hand,
            records,
            out,
        );
    }

    // The task of lane 0's hand lands where it goes, and lane 0 is at rest again.
    fn land(&mut self, alloc: Global, cpu: u32, hand: Hand, landing: Ids)
        requires cpu { cpu < length N.header.cpus }
        requires course { ((first_course self.old).form ≡ form.Flight) × ((first_course self.old).cause ≡ Some cause.Stop)
            × ((first_course self.old).command ≡ None) × ((first_course self.old).decision ≡ None) }
        requires to { (first_course self.old).to ≡ cpu }
        requires room { (0 < spare_at self.old.seats (17 + cpu)) × (length (list_at self.old.seats (17 + cpu)) + 1 < 2 ^ 40) }
        requires loaded { IsLoaded hand (first_course self.old) }
        requires asks { LandingAsks (first_course self.old) (state_at N.header self.old cpu) }
        requires booked { length hand.tasks ≤ booked_at self.old cpu }
        requires list { landing ≡ ids (first_course self.old).hand }
        ensures drew { Drew (17 + cpu) (item_of N.header (owner.Queue cpu) (first_course self.old) (first_course self.new)
            (first_ticket self.old) (what.Landed landing)) self.old self.new }
        ensures rest { (first_course self.new).form ≡ form.Rest }
    {
        // the lists and the queues go on as they were
        growth_keeps();
        queue_grows();
        // reads what it keeps
        self.keeps();
        draw_in(
            alloc,
            &self.header,
            &self.book,
            cpu,
            &mut self.queues[cpu as usize],
            &mut self.seats[17 + cpu as usize],
            &mut self.courses[0],
            &mut self.tickets[0],
            &mut self.notes[0],
            hand,
            landing,
        );
    }

    // The task of the next stop request leaves by an `out` above all that was drawn.
    pub(crate) fn depart(
        &mut self,
        alloc: Global,
        cpu: u32,
        stop: Stop,
        hand: &mut Hand,
        records: TaskRecords,
        out: Ids,
    )
        requires pending { pending_now N.header self.old ≡ Some cpu }
        requires cpu { cpu < length N.header.cpus }
        requires rest { (first_course self.old).form ≡ form.Rest }
        requires room { (0 < spare_at self.old.seats (17 + cpu)) × (length (list_at self.old.seats (17 + cpu)) + 1 < 2 ^ 40) }
        requires stop { (next_stop (state_at N.header self.old cpu) false ≡ Some stop)
            × (stop_to (state_at N.header self.old cpu) stop.id ≡ Some hand.old.to) × (stop.to ≡ hand.old.to) }
        requires hand { (hand.old.tasks ≡ []) × (0 < hand.old.room) }
        requires lists { (length records ≡ 1) × (out ≡ stop.id ∷ []) }
        ensures on { ClosesOn N.header self.old self.new }
        ensures left { HasLeft self.new }
        ensures course { ((first_course self.new).form ≡ form.Flight) × ((first_course self.new).cause ≡ Some cause.Stop)
            × ((first_course self.new).command ≡ None) × ((first_course self.new).decision ≡ None) }
        ensures loaded { IsLoaded hand.new (first_course self.new) }
        ensures hand { (hand.new.to ≡ hand.old.to) × (ids hand.new.tasks ≡ stop.id ∷ []) }
        ensures booked { (k : ℕ) → booked_at self.new k ≡ booked_at self.old k }
        ensures lists { (k : ℕ) → (k ≡ 17 + cpu → ⊥) → list_at self.new.seats k ≡ list_at self.old.seats k }
        ensures spares { (k : ℕ) → (k ≡ 17 + cpu → ⊥) → spare_at self.new.seats k ≡ spare_at self.old.seats k }
        ensures courses { self.new.courses ≡ slice_set self.old.courses 0 (first_course self.new) }
    {
        // an entry above all others goes on with the closing, and the queues are as their lists say
        closing_goes_on();
        closes_now();
        self.keeps();
        let seat = 17 + cpu as usize;
        self.follow(seat, 1);
        self.leave(alloc, cpu, stop, hand, records, out);
        self.follow(1, seat);
    }

    // It lands by an `in` above all that was drawn.
    pub(crate) fn arrive(&mut self, alloc: Global, cpu: u32, hand: Hand, landing: Ids)
        requires left { HasLeft self.old }
        requires cpu { cpu < length N.header.cpus }
        requires course { ((first_course self.old).form ≡ form.Flight) × ((first_course self.old).cause ≡ Some cause.Stop)
            × ((first_course self.old).command ≡ None) × ((first_course self.old).decision ≡ None) }
        requires to { (first_course self.old).to ≡ cpu }
        requires room { (0 < spare_at self.old.seats (17 + cpu)) × (length (list_at self.old.seats (17 + cpu)) + 1 < 2 ^ 40) }
        requires loaded { IsLoaded hand (first_course self.old) }
        requires asks { LandingAsks (first_course self.old) (state_at N.header self.old cpu) }
        requires booked { length hand.tasks ≤ booked_at self.old cpu }
        requires list { landing ≡ ids (first_course self.old).hand }
        ensures on { ClosesOn N.header self.old self.new }
        ensures rest { (first_course self.new).form ≡ form.Rest }
        ensures courses { self.new.courses ≡ slice_set self.old.courses 0 (first_course self.new) }
    {
        // an entry above all others goes on with the closing
        closing_goes_on();
        self.keeps();
        let seat = 17 + cpu as usize;
        self.follow(seat, 1);
        self.land(alloc, cpu, hand, landing);
        self.follow(1, seat);
    }
}
