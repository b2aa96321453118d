//! A machine whose locks and lanes were taken apart, and its end: the lists of all owners.
ghost use Rattle.std.specs.Prelude.{◌≡◌, All};
ghost use Rattle.lb_ticket.specs.Facts.{AllDrawn, AllUnquoted};
ghost use Rattle.lb_ticket.specs.Seats.{all_facts};
ghost use Rattle.lb_ticket.specs.Tickets.{Closes, QuotesHold};
ghost use Rattle.lb_journal.specs.Journal.{meaning_of_journal};
ghost use Rattle.lb_journal.specs.Owners.{lists_of};
ghost use Rattle.lb_end.specs.Ends.{KeptLists};

use lb_cell::Names;
use lb_core::Course;
use lb_journal::{Journal, Left};
use lb_queue::Queue;
use lb_ticket::{Book, Coding, Lists, Note, Seat};
use lb_trace::Header;
use std::marker::{Model, PhantomData};

/// A machine whose lanes are done, out of its locks: the seats of all owners with their lists, the queues, and of each
/// lane its course and the ticket of its last entry, with the note of lane 0. What was read of figures and versions is known to have been published.
#[derive(Drop)]
pub struct Ended<N: Names> {
    pub(crate) header: Header,
    pub(crate) book: Book<Journal>,
    pub(crate) seats: Vec<Seat<Journal>>,
    pub(crate) queues: Vec<Queue>,
    pub(crate) courses: Vec<Course>,
    pub(crate) tickets: Vec<u64>,
    pub(crate) notes: Vec<Option<Note>>,
    pub(crate) names: PhantomData<N>,
}

impl<N: Names> Model for Ended<N> {
    ghost use Rattle.lb_end.specs.Ends.{EndedIs, EndedKeeps};

    ghost Value = { EndedIs };

    ghost view = { λ e. record {
      header = e.header;
      book = e.book;
      seats = e.seats.items;
      queues = e.queues.items;
      courses = e.courses.items;
      tickets = e.tickets.items;
      notes = e.notes.items;
    } };

    ghost invariant = { λ e.
        EndedKeeps N.header N.book ⟦<Journal as Coding>⟧.coding ⟦<Left as Coding>⟧.coding
        (record {
          header = e.header;
          book = e.book;
          seats = e.seats.items;
          queues = e.queues.items;
          courses = e.courses.items;
          tickets = e.tickets.items;
          notes = e.notes.items;
        }) };
}

impl<N: Names> Ended<N> {
    ghost use Rattle.lb_end.specs.Ends.{EndedKeeps};

    /// Such a machine, of its parts. The k-th seat is that of the owner with number k; of the further lists the k-th item is
    /// that of CPU k, or of lane k.
    pub fn new(
        header: Header,
        book: Book<Journal>,
        seats: Vec<Seat<Journal>>,
        queues: Vec<Queue>,
        courses: Vec<Course>,
        tickets: Vec<u64>,
        notes: Vec<Option<Note>>,
    ) -> Ended<N>
        requires { EndedKeeps N.header N.book ⟦<Journal as Coding>⟧.coding ⟦<Left as Coding>⟧.coding
            (record {
              header = header;
              book = book;
              seats = seats.items;
              queues = queues.items;
              courses = courses.items;
              tickets = tickets.items;
              notes = notes.items;
            }) }
        ensures { result ≡ record {
          header = header;
          book = book;
          seats = seats.items;
          queues = queues.items;
          courses = courses.items;
          tickets = tickets.items;
          notes = notes.items;
        } }
    {
        Ended {
            header,
            book,
            seats,
            queues,
            courses,
            tickets,
            notes,
            names: PhantomData,
        }
    }

    // What every such machine keeps.
    pub(crate) fn keeps(&self)
        ensures { EndedKeeps N.header N.book ⟦<Journal as Coding>⟧.coding ⟦<Left as Coding>⟧.coding self.now }
    {
        // reads a field of it, so that what it keeps is known
        let _lanes = self.header.lanes;
    }

    /// Closes the book, and answers the lists of all owners, by their numbers. They hold each ticket once and rise; each
    /// entry fits those before it on its list, and each quote names an earlier entry of its lane, with what that left. What
    /// the owners read of others' lists stands there, and what their entries name was published.
    pub fn close(self) -> Lists<Journal>
        ensures lists { result ≡ lists_of self.seats }
        ensures tickets { Closes meaning_of_journal result }
        ensures quotes { QuotesHold meaning_of_journal result }
        ensures unquoted { AllUnquoted meaning_of_journal ⟦<Left as Coding>⟧.coding (all_facts self.seats) result }
        ensures read { All (λ s. AllDrawn ⟦<Journal as Coding>⟧.coding s.read result) self.seats }
        ensures kept { KeptLists N.header ⟦<Journal as Coding>⟧.coding self.seats }
    {
        let Ended {
            header: _,
            book,
            seats,
            queues: _,
            courses: _,
            tickets: _,
            notes: _,
            names: _,
        } = self;
        book.close(seats)
    }
}
