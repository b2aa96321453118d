//! What the words of these definitions mean, as laws: each function's contract is the law, and its
//! body is empty.
ghost use Rattle.std.specs.Prelude.{◌≡◌, ℕ, ◌&&◌, nat_lt, Bool, Option};
ghost use Rattle.lb_base.specs.declared.mask.TheConstants.{MAX_CPUS};
ghost use Rattle.lb_base.specs.Mask.{has};
ghost use Rattle.lb_base.specs.Sets.{mask_where};
ghost use Rattle.lb_base.specs.Greatest.{Picks, IsRanking, first_greatest};

/// The mask of a test has exactly the CPUs that pass it.
pub fn mask_of_a_test()
    ensures { (p : ℕ → Bool) → (k : ℕ) → has (mask_where p) k ≡ (nat_lt k MAX_CPUS && p k) }
{}

/// The first of the greatest is found wherever candidates are ranked, and there is only one.
pub fn first_of_the_greatest()
    ensures found { (p : ℕ → Bool) → (above : ℕ → ℕ → Bool) → (n : ℕ) → IsRanking above
        → Picks p above n (first_greatest p above n) }
    ensures unique { (p : ℕ → Bool) → (above : ℕ → ℕ → Bool) → (n : ℕ) → (o : Option ℕ) → Picks p above n o
        → o ≡ first_greatest p above n }
{}
