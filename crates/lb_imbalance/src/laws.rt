//! What the decision is, as laws: each function's contract is the law, and its body only calls the
//! laws that it rests on.
ghost use Rattle.std.specs.Prelude.{◌≡◌, ℕ, List};
ghost use Rattle.lb_base.specs.declared.mask.Mask.{Mask};
ghost use Rattle.lb_base.specs.declared.figure.Fig.{Fig};
ghost use Rattle.lb_base.specs.declared.shape.Shape.{Shape};
ghost use Rattle.lb_base.specs.declared.shape.Kind.{Kind};
ghost use Rattle.lb_imbalance.specs.declared.decision.Decision.{Decision};
ghost use Rattle.lb_imbalance.specs.Choice.{IsDecision};
ghost use Rattle.lb_imbalance.specs.Decision.{decision};

use lb_busiest::laws::{busiest_group, source_queue};

/// The decision is around one choice: the busiest group is the first of the greatest, and the source
/// queue is the least CPU among those with the greatest value. No other decision is.
pub fn decision_is_the_choice()
    ensures holds { (shape : Shape) → (groups : List Mask) → (figs : List Fig) → (cpu : ℕ) → (kind : Kind)
        → (excluded : Mask) → IsDecision shape groups figs cpu kind excluded (decision shape groups figs cpu kind excluded) }
    ensures unique { (shape : Shape) → (groups : List Mask) → (figs : List Fig) → (cpu : ℕ) → (kind : Kind)
        → (excluded : Mask) → (d : Decision) → IsDecision shape groups figs cpu kind excluded d → d ≡ decision shape groups figs cpu kind excluded }
{
    // there is one busiest group, or none, and one source queue in a group, or none
    busiest_group();
    source_queue();
}
