//! One seat of a machine follows another: lane 0's follows the others, so that it stands above all that was drawn, and the
//! one that draws next follows lane 0's.
ghost use Rattle.std.specs.Prelude.{ℕ, ◌≡◌, ◌<◌, ◌≤◌, length, slice_get, All};
ghost use Rattle.lb_journal.specs.Owners.{lists_of};
ghost use Rattle.lb_end.specs.Closing.{StandsAbove};
ghost use Rattle.lb_end.specs.Seats.{Follows, list_at, next_at};

use crate::ended::Ended;
use crate::following::follow;
use lb_cell::Names;
use lb_journal::laws::uses_stay;

impl<N: Names> Ended<N> {
    // The seat of one owner follows that of another.
    pub(crate) fn follow(&mut self, a: usize, b: usize)
        requires apart { a ≡ b → ⊥ }
        requires inside { (a < length self.old.seats) × (b < length self.old.seats) }
        ensures seats { Follows a b self.old.seats self.new.seats }
        ensures same { self.new ≡ record self.old { seats = self.new.seats } }
    {
        // what a seat's entries say of the versions that they use stays as it reads more
        uses_stay();
        follow(&self.book, &mut self.seats, a, b);
    }

    // Lane 0's seat follows those of all lanes above it and of the queues.
    fn follow_others(&mut self)
        ensures lists { lists_of self.new.seats ≡ lists_of self.old.seats }
        ensures others { (k : ℕ) → (k ≡ 1 → ⊥) → slice_get self.new.seats k ≡ slice_get self.old.seats k }
        ensures above { (k : ℕ) → 2 ≤ k → All (λ d. d.ticket < next_at self.new.seats 1) (list_at self.new.seats k) }
        ensures later { next_at self.old.seats 1 ≤ next_at self.new.seats 1 }
        ensures same { self.new ≡ record self.old { seats = self.new.seats } }
    {
        for k in 2..self.seats.len() {
            self.follow(1, k);
        }
    }

    // Lane 0's seat follows all others, and so stands above all that was drawn: the publisher's follows lane 0's before, for
    // what lane 0 drew itself.
    pub(crate) fn lead(&mut self)
        ensures lists { lists_of self.new.seats ≡ lists_of self.old.seats }
        ensures others { (k : ℕ) → 2 ≤ k → slice_get self.new.seats k ≡ slice_get self.old.seats k }
        ensures above { StandsAbove self.new.seats }
        ensures same { self.new ≡ record self.old { seats = self.new.seats } }
    {
        // there are seats of publisher and lanes
        self.keeps();
        self.follow(0, 1);
        self.follow(1, 0);
        self.follow_others();
    }
}
