//! What holds of every signal that the definitions give.

ghost use Rattle.std.specs.Prelude.{ℕ};
ghost use Rattle.lb_pelt.specs.declared.signal.Run.{Run};
ghost use Rattle.lb_pelt.specs.Signal.{Sums, IsBounded, IsWithin, zero_signal, advanced, signal_value};

/// The signal that every task begins with keeps the bounds.
pub fn zero_is_bounded()
    ensures { IsBounded zero_signal }
{}

/// A signal that keeps the bounds still keeps them when it is advanced.
pub fn advanced_is_bounded()
    ensures { (s : Sums) (run : Run) (now : ℕ) → IsBounded s → IsBounded (advanced s run now) }
{}

/// Of a signal that keeps the bounds the load is at most the task's weight, and runnable and util
/// are at most 1,025.
pub fn value_is_bounded()
    ensures { (s : Sums) (weight : ℕ) → IsBounded s → IsWithin weight (signal_value s weight) }
{}
