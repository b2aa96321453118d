//! A pulled task lands in the queue where its landing is booked.
ghost use Rattle.std.specs.Prelude.{◌≡◌, ◌≤◌, All, IsTrue, false, length};
ghost use Rattle.lb_base.specs.Sets.{is_below};
ghost use Rattle.lb_queue.specs.Queue.{knows};

use lb_base::{MAX_CPUS, Mask, MoveKind};
use lb_detach::{Env, Picked};
use lb_queue::{Hand, OutCause, Queue, Reply};
use std::alloc::Global;
use std::process::Abort;

// A pull to CPU 0, which is idle, of one task.
const PULL: Env = Env {
    to: 0,
    idle: true,
    newly: false,
    kind: MoveKind::Tasks,
    imbalance: 1,
    failures: 0,
    tries: 1,
};

// The calls that take memory, with enough of it, and those that write to a caller's vectors.
#[test]
fn a_pulled_task_lands_where_it_is_booked(rt: HostRuntime) {
    let mut from = two_awake(&rt, rt.alloc());
    let Ok(mut to) = Queue::new(rt.alloc(), 0, 2) else {
        panic!(rt; "no room")
    };
    assert!(rt; to.book(1).is_ok());
    let Ok(mut picked) = Picked::new(rt.alloc(), 2) else {
        panic!(rt; "no room")
    };
    let Ok(mut hand) = Hand::empty(rt.alloc(), 0, 32) else {
        panic!(rt; "no room")
    };
    assert!(rt; from.len() <= 2);
    let taken = from.take(7, &PULL, &mut picked, &mut hand);
    assert!(rt; taken.left == 0 && !taken.some_pinned && !taken.all_pinned);
    assert!(rt; picked.ids.as_slice() == [4].as_slice());
    land(&rt, &mut to, hand);
    assert!(rt; to.knows(4) && !from.knows(4) && to.clock() == 7 && to.booked() == 0);
}

// The queue of CPU 1 with the tasks 3 and 4 awake.
fn two_awake(rt: &impl Abort, alloc: Global) -> Queue {
    let Ok(mut queue) = Queue::new(alloc, 1, 2) else {
        panic!(rt; "no room")
    };
    declare(rt, &mut queue, 3);
    declare(rt, &mut queue, 4);
    wake(rt, &mut queue, 3);
    wake(rt, &mut queue, 4);
    queue
}

// A task of nice value 0 that may run on the first two CPUs.
fn declare(rt: &impl Abort, q: &mut Queue, id: u32)
    requires { q.old.state.cpus ≡ 2 }
    ensures { q.new.state.cpus ≡ 2 }
{
    let mask = Mask { bits: 0b11 };
    assert!(rt; id < 4_294_967_295 && !q.knows(id));
    assert!(rt; mask.first().is_some() && is_within(mask, 2));
    assert!(rt; q.declare(id, 0, mask).is_ok());
}

fn is_within(mask: Mask, cpus: u32) -> bool
    requires { cpus ≤ MAX_CPUS }
    ensures { result ≡ is_below mask cpus }
{
    mask.subset(Mask::all(cpus))
}

fn wake(rt: &impl Abort, q: &mut Queue, id: u32) {
    assert!(rt; q.away(id).is_none());
    assert!(rt; q.wake(0, id) == Reply::Done);
}

// A hand with one task at most lands.
#[tactic(auto, using(lb_queue::proofs::Trials::one_differs))]
fn land(rt: &impl Abort, q: &mut Queue, hand: Hand)
    requires { hand.to ≡ q.old.state.cpu }
{
    assert!(rt; hand.len() <= 1 && hand.len() as u64 <= q.booked());
    assert!(rt; is_unknown(q, &hand));
    q.land(0, OutCause::Pull, hand);
}

#[tactic(auto, using(lb_queue::proofs::Trials::one_unknown))]
fn is_unknown(q: &Queue, hand: &Hand) -> bool
    requires { length hand.now.tasks ≤ 1 }
    ensures { IsTrue result → All (λ t. knows q.now.state t.id ≡ false) hand.now.tasks }
{
    if hand.len() == 0 {
        return true;
    }
    !q.knows(hand.task(0).record().id)
}
