//! What the words of these definitions mean, as laws: each function's contract is the law, and its
//! body is empty.
ghost use Rattle.std.specs.Prelude.{◌≡◌, ℕ, List, Option};
ghost use Rattle.lb_base.specs.declared.mask.Mask.{Mask};
ghost use Rattle.lb_base.specs.declared.figure.Fig.{Fig};
ghost use Rattle.lb_base.specs.declared.group.Stats.{Stats};
ghost use Rattle.lb_base.specs.declared.view.MoveKind.{MoveKind};
ghost use Rattle.lb_busiest.specs.Ranking.{busiest_of, AnswersBusiest};
ghost use Rattle.lb_busiest.specs.Sources.{source_of, AnswersSource};

/// The busiest group is found wherever a group may be it, and there is only one.
pub fn busiest_group()
    ensures found { (stats : List Stats) → AnswersBusiest stats (busiest_of stats) }
    ensures unique { (stats : List Stats) → (o : Option ℕ) → AnswersBusiest stats o → o ≡ busiest_of stats }
{}

/// The source queue is found wherever a CPU may be it, and there is only one.
pub fn source_queue()
    ensures found { (figs : List Fig) → (group : Mask) → (kind : MoveKind) → (imbalance : ℕ)
        → AnswersSource figs group kind imbalance (source_of figs group kind imbalance) }
    ensures unique { (figs : List Fig) → (group : Mask) → (kind : MoveKind) → (imbalance : ℕ) → (o : Option ℕ)
        → AnswersSource figs group kind imbalance o → o ≡ source_of figs group kind imbalance }
{}
