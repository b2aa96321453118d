//! The lists that tell which tasks a hand holds. They are made before the tasks leave their queue, so that nothing is
//! refused once they have left.
ghost use Rattle.std.specs.Prelude.{◌≡◌, length, IfOk, if◌then◌else◌};
ghost use Rattle.lb_queue.specs.Tasks.{ids};
ghost use Rattle.lb_cell.specs.Hands.{AreFor, AreOf};

use lb_act::{blank_records, note_records};
use lb_base::{Items, NoMemory};
use lb_core::{Ids, TaskRecords};
use lb_queue::Hand;
use std::alloc::Global;

/// The tasks of a hand, and their ids twice: for the entry by which they leave, and for that of their landing.
#[derive(Drop)]
pub struct HandLists {
    pub(crate) records: TaskRecords,
    pub(crate) out: Ids,
    pub(crate) landing: Ids,
}

// So many ids, which stand for those of the tasks that are to come into a hand.
fn blank_ids(alloc: Global, count: usize) -> Result<Ids, NoMemory>
    ensures { IfOk result (λ list. length list ≡ count) }
{
    let blanks = vec![in alloc; 0; count]?;
    Ok(Items::from_slice(alloc, &blanks)?)
}

// The ids of the tasks in a hand.
fn name(list: &mut Ids, hand: &Hand)
    requires { length list.old ≡ length hand.now.tasks }
    ensures { list.new ≡ ids hand.now.tasks }
{
    for i in 0..hand.len() {
        list.set(i, hand.task(i).record().id);
    }
}

impl HandLists {
    /// Lists for a hand of `count` tasks.
    pub(crate) fn new(alloc: Global, count: usize) -> Result<HandLists, NoMemory>
        ensures { IfOk result (λ lists. AreFor count lists) }
    {
        Ok(HandLists {
            records: blank_records(alloc, count)?,
            out: blank_ids(alloc, count)?,
            landing: blank_ids(alloc, count)?,
        })
    }

    /// These lists for a hand of one task, if it has one, and else such as take no memory.
    pub(crate) fn only_if(self, alloc: Global, one: bool) -> HandLists
        requires { AreFor 1 self }
        ensures { AreFor (if one then 1 else 0) result }
    {
        if one {
            return self;
        }
        HandLists {
            records: Items::new(alloc),
            out: Items::new(alloc),
            landing: Items::new(alloc),
        }
    }

    /// Fills the lists with the tasks of a hand, for which they were made.
    pub(crate) fn fill(&mut self, hand: &Hand)
        requires { AreFor (length hand.now.tasks) self.old }
        ensures { AreOf hand.now.tasks self.new }
    {
        note_records(&mut self.records, hand);
        name(&mut self.out, hand);
        name(&mut self.landing, hand);
    }
}
