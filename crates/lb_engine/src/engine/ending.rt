//! The end of the engine: each hand that is held lands, and then the queues are let go.
ghost use Rattle.std.specs.Prelude.{map, Option, Some, List, ◌∷◌, ◌++◌, []};
ghost use Rattle.lb_queue.specs.Hands.{HandState};
ghost use Rattle.lb_engine.specs.Ending.{CanLand};

use super::Engine;
use lb_queue::laws::{calls_keep_rest, calls_move};
use lb_queue::{Hand, OutCause, Queue};

// A hand lands where it goes. It is the last of some hands that can land.
fn land_last(queues: &mut [Queue], hand: Hand)
    requires { CanLand (Some hand ∷ []) (map (λ q. q.state) queues.old) (map (λ q. q.booked) queues.old) }
    ensures { (hands : List (Option HandState)) → CanLand (hands ++ Some hand ∷ []) (map (λ q. q.state) queues.old) (map (λ q. q.booked) queues.old)
        → CanLand hands (map (λ q. q.state) queues.new) (map (λ q. q.booked) queues.new) }
{
    // what a landing changes of the tasks of a queue, and that it stays its CPU's
    calls_move();
    calls_keep_rest();
    let to = hand.to() as usize;
    let queue = &mut queues[to];
    queue.land(0, OutCause::Stop, hand);
}

// Each hand lands where it goes, the last lane's first.
fn land_all(mut hands: Vec<Option<Hand>>, queues: &mut [Queue])
    requires { CanLand hands.items (map (λ q. q.state) queues.old) (map (λ q. q.booked) queues.old) }
{
    while let Some(slot) = hands.pop() {
        match slot {
            None => (),
            Some(hand) => land_last(queues, hand),
        }
    }
    hands.destroy_empty();
}

impl Engine {
    ghost use Rattle.lb_engine.specs.Ending.{CanLand};

    /// Lets the engine go: each hand that is held lands where it goes, and the queues are dropped then.
    pub fn end(self)
        requires { CanLand self.hands self.machine.queues self.booked }
    {
        let Engine {
            header: _,
            layout: _,
            ticket: _,
            versions: _,
            mut queues,
            figures: _,
            courses: _,
            hands,
            last: _,
            ticked: _,
            closing: _,
            ended: _,
            places: _,
        } = self;
        land_all(hands, &mut queues);
        drop(queues);
    }
}
