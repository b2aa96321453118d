//! Ticks, stop requests, active requests and kicks of a queue (docs/rules/queue.md).
ghost use Rattle.std.specs.Prelude.{◌≡◌, IfSome, Some, false};

use super::Queue;
use crate::answers::{AskReply, Stop};

impl Queue {
    ghost use Rattle.lb_queue.specs.Hands.{stop_to};
    ghost use Rattle.lb_queue.specs.Requests.{tick, next_stop, ask_active, kick, has_owed};

    /// The CPU's tick: where two or more are awake, the running task makes place for another; where
    /// nobody is awake and no active request is pending, the CPU is tickless from now on; the pending
    /// stop requests become owed. No request is owed from an earlier tick.
    #[tactic(auto, unfolding(crate::specs::Requests::tick))]
    pub fn tick(&mut self, at: u64)
        requires { has_owed self.old.state ≡ false }
        ensures step { self.new.state ≡ tick self.old.state at }
        ensures booked { self.new.booked ≡ self.old.booked }
    {
        self.clock = self.clock.max(at);
        self.tickless = self.tickless || (self.lists.is_idle() && self.active.is_none());
        self.lists.tick(self.clock);
        self.kept = Some(self.lists.summed(self.clock));
    }

    /// The pending stop request of the task with the least id, of the owed requests only if asked.
    /// None exactly where there is none. It can be taken: its task leaves for where it goes.
    pub fn next_stop(&self, owed: bool) -> Option<Stop>
        ensures value { result ≡ next_stop self.now.state owed }
        ensures goes { IfSome result (λ s. stop_to self.now.state s.id ≡ Some s.to) }
    {
        self.lists.next_stop(owed)
    }

    /// Asks that a task be pushed to a CPU. `Old` where a request is pending; then it stays.
    #[tactic(auto, unfolding(crate::specs::Requests::ask_active))]
    pub fn ask_active(&mut self, at: u64, to: u32) -> AskReply
        ensures step { (result, self.new.state) ≡ ask_active self.old.state at to }
        ensures booked { self.new.booked ≡ self.old.booked }
    {
        self.clock = self.clock.max(at);
        self.kept = Some(self.lists.renewed(self.kept, self.clock));
        match self.active {
            Some(_) => AskReply::Old,
            None => {
                self.active = Some(to);
                AskReply::New
            }
        }
    }

    /// Asks for a turn on behalf of idle CPUs: sets the kicked flag. `Old` where it stands.
    #[tactic(auto, unfolding(crate::specs::Requests::kick))]
    pub fn kick(&mut self, at: u64) -> AskReply
        ensures step { (result, self.new.state) ≡ kick self.old.state at }
        ensures booked { self.new.booked ≡ self.old.booked }
    {
        self.clock = self.clock.max(at);
        self.kept = Some(self.lists.renewed(self.kept, self.clock));
        if self.kicked {
            return AskReply::Old;
        }
        self.kicked = true;
        AskReply::New
    }
}
