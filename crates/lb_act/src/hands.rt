//! The tasks of a hand: the records of them that a course notes, and their landing.
ghost use Rattle.std.specs.Prelude.{◌≡◌, ◌<◌, ◌≤◌, ◌-◌, length, IfOk};
ghost use Rattle.lb_base.specs.declared.mask.TheConstants.{MAX_CPUS};
ghost use Rattle.lb_queue.specs.Hands.{land};
ghost use Rattle.lb_core.specs.Asks.{LandingAsks};
ghost use Rattle.lb_core.specs.Course.{source_of};
ghost use Rattle.lb_core.specs.CourseAfter.{lands};
ghost use Rattle.lb_core.specs.QueueAfter.{cause_of};
ghost use Rattle.lb_act.specs.Hands.{IsLoaded};

use lb_base::{Items, Mask, NoMemory};
use lb_core::{Course, TaskRecords};
use lb_course::{cause_of, landed};
use lb_pelt::Signal;
use lb_queue::{Hand, Queue, TaskRecord};
use std::alloc::Global;

/// `count` records, which stand for the tasks that are to come into a hand.
pub fn blank_records(alloc: Global, count: usize) -> Result<TaskRecords, NoMemory>
    ensures { IfOk result (λ list. length list ≡ count) }
{
    let blank = TaskRecord {
        id: 0,
        nice: 0,
        mask: Mask::none(),
        signal: Signal::zero(),
        put_down: None,
    };
    let blanks = vec![in alloc; blank; count]?;
    Ok(Items::from_slice(alloc, &blanks)?)
}

/// The records of the tasks in a hand take the place of as many others.
pub fn note_records(records: &mut TaskRecords, hand: &Hand)
    requires { length records.old ≡ length hand.now.tasks }
    ensures { records.new ≡ hand.now.tasks }
{
    for i in 0..hand.len() {
        records.set(i, hand.task(i).record());
    }
}

/// The tasks of a lane's hand land at the queue where it goes, and the course of the lane is no more in flight. Their
/// landings were booked, so it has no refusal.
pub fn arrive(alloc: Global, queue: &mut Queue, course: &mut Course, hand: Hand)
    requires loaded { IsLoaded hand course.old }
    requires asks { LandingAsks course.old queue.old.state }
    requires booked { length hand.tasks ≤ queue.old.booked }
    requires source { source_of course.old.decision < MAX_CPUS }
    ensures queue { queue.new.state
        ≡ land queue.old.state course.old.at (cause_of course.old) course.old.moment course.old.hand }
    ensures course { course.new ≡ lands (cause_of course.old) course.old }
    ensures booked { queue.new.booked ≡ queue.old.booked - length hand.tasks }
{
    queue.land(course.at, cause_of(course), hand);
    landed(alloc, course);
}
