//! The entries that close a history (docs/rules/lanes.md).
ghost use Rattle.std.specs.Prelude.{◌≡◌, ◌<◌, ◌≤◌, ◌+◌, ◌^◌, ◌&&◌, nat_lt, is_some, length, OnOk, IfOk, OnErr};
ghost use Rattle.lb_base.specs.Sets.{mask_where};
ghost use Rattle.lb_core.specs.declared.course.Form.TheVariants as form;
ghost use Rattle.lb_core.specs.declared.entry.Owner.TheVariants as owner;
ghost use Rattle.lb_core.specs.declared.entry.What.TheVariants as what;
ghost use Rattle.lb_end.specs.Ends.{NothingCloses};
ghost use Rattle.lb_end.specs.Drawing.{Drew, first_course, first_ticket, item_of, state_at};
ghost use Rattle.lb_end.specs.Finished.{AllRest, Finished};
ghost use Rattle.lb_end.specs.Seats.{list_at, spare_at};

use crate::ended::Ended;
use crate::stops::draw_end;
use lb_base::{Mask, NoMemory};
use lb_cell::Names;
use lb_journal::laws::{closes_now, closing_goes_on, closing_starts, growth_keeps};
use std::alloc::Global;
use std::sync::Wait;

impl<N: Names> Ended<N> {
    // Whether an active request is unserved at a CPU.
    fn is_unserved(&self, cpu: u32) -> bool
        requires { cpu < length N.header.cpus }
        ensures { result ≡ is_some (state_at N.header self.now cpu).active }
    {
        self.keeps();
        self.queues[cpu as usize].active().is_some()
    }

    // The CPUs whose active request is unserved.
    fn unserved(&self) -> Mask
        ensures { result ≡ mask_where (λ cpu. nat_lt cpu (length N.header.cpus) && is_some (state_at N.header self.now cpu).active) }
    {
        self.keeps();
        let mut mask = Mask::none();
        for cpu in 0..self.queues.len() as u32 {
            if self.is_unserved(cpu) {
                mask = mask.or(Mask::one(cpu));
            }
        }
        mask
    }

    // Looks until lane 0's own list can take the end; the first look finds that it can.
    fn wait_until_it_can_end<R: Wait>(&self, rt: &R)
        ensures inside { 1 < length self.now.seats }
        ensures short { length (list_at self.now.seats 1) + 1 < 2 ^ 40 }
    {
        self.keeps();
        for _ in rt.forever() {
            if self.can_grow(1) {
                return;
            }
        }
        unreachable!()
    }

    // Lane 0 ends the history.
    fn end(&mut self, alloc: Global, unserved: Mask)
        requires rest { (first_course self.old).form ≡ form.Rest }
        requires room { 0 < spare_at self.old.seats 1 }
        ensures drew { Drew 1 (item_of N.header (owner.Lane 0) (first_course self.old) (first_course self.new)
            (first_ticket self.old) (what.End unserved)) self.old self.new }
    {
        // the lists and the queues go on as they were
        growth_keeps();
        self.keeps();
        draw_end(
            alloc,
            &self.header,
            &self.book,
            &mut self.seats[1],
            &mut self.courses[0],
            &mut self.tickets[0],
            &mut self.notes[0],
            unserved,
        );
    }

    /// Serves every pending stop request, CPUs rising and tasks rising, by `out stop` and `in`, and draws the `end` of lane
    /// 0. It answers the CPUs whose active request is unserved. All lanes are at rest, and nothing closes the history yet.
    /// It refuses for want of memory alone: then no task is in a hand, and the machine is only to be closed.
    pub fn finish<R: Wait>(&mut self, rt: &R, alloc: Global) -> Result<Mask, NoMemory>
        requires rest { AllRest self.old.courses }
        requires open { NothingCloses self.old.seats }
        ensures finished { IfOk result (λ unserved. Finished N.header self.old self.new unserved) }
        ensures refused { OnErr result (AllRest self.new.courses) }
    {
        // where nothing closes the closing starts, and each entry above all others goes on with it
        closing_starts();
        closing_goes_on();
        closes_now();
        self.keeps();
        self.lead();
        self.serve_all(rt, alloc)?;
        self.wait_until_it_can_end(rt);
        self.reserve(1)?;
        // there are seats of lane 0 before the end and after it
        self.keeps();
        let unserved = self.unserved();
        self.end(alloc, unserved);
        self.keeps();
        Ok(unserved)
    }
}
