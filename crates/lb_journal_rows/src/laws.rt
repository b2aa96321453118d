//! Each function's contract is a theorem about worked histories, and its body calls those that it stands on.
ghost use Rattle.std.specs.Prelude.{◌≡◌, ℕ, List, []};
ghost use base.Stored.{Coded};
ghost use Rattle.atomic_table.specs.Seated.{TableId};
ghost use Rattle.lb_core.specs.declared.history.History.{History};
ghost use Rattle.lb_core.specs.Legal.{first_fault};
ghost use Rattle.lb_core.specs.declared.rule.Rule.TheVariants.{Figure, Stage};
ghost use Rattle.lb_rows.specs.Lines.{fault_at};
ghost use Rattle.lb_rows.specs.Balancing.{one_task_moves_history};
ghost use Rattle.lb_rows.specs.Commands.{rebuilt_history};
ghost use Rattle.lb_rows.specs.Lanes.{commands_round_a_hand_history};
ghost use Rattle.lb_journal.specs.Journal.{Journal, Left, Fits, meaning_of_journal};
ghost use Rattle.lb_ticket.specs.Tickets.{Closes};
ghost use Rattle.lb_journal.specs.Merge.{Each, CarriesVersion, LeavesAtRest, MayMerge};
ghost use Rattle.lb_journal.specs.Owners.{KeptByOwners};
ghost use Rattle.lb_journal_rows.specs.Lists.{by_owner, merged};
ghost use Rattle.lb_journal_rows.specs.Missing.{MeetsOthers, CarriesFigures, lone_header, stray_row, stray_pub, lone_end, stray_lists, early_look_history, early_look_lists, early_closing_history};
ghost use Rattle.lb_journal_rows.specs.Seats.{woken_trace, seats};

use lb_rows::{faults, lanes};

/// The entries of a history, cut into the lists of their owners and merged by their tickets, are the history.
pub fn merged_back()
    ensures one_lane { merged (by_owner one_task_moves_history) ≡ one_task_moves_history.entries }
    ensures two_lanes { merged (by_owner commands_round_a_hand_history) ≡ commands_round_a_hand_history.entries }
    ensures rebuilt { merged (by_owner rebuilt_history) ≡ rebuilt_history.entries }
{}

/// Each item of the lists of a history carries its header, and each `use` of the worked ones the masks of its
/// version: those of the header, or of the rebuild that the publisher's entry of that version serves.
pub fn header_and_masks()
    ensures header { (history : History) → Each (λ d. d.1.header ≡ history.header) (by_owner history) }
    ensures one_lane { Each (λ d. CarriesVersion one_task_moves_history.header (by_owner one_task_moves_history)
        d.0 d.1 d.1.entry.what) (by_owner one_task_moves_history) }
    ensures rebuilt { Each (λ d. CarriesVersion rebuilt_history.header (by_owner rebuilt_history)
        d.0 d.1 d.1.entry.what) (by_owner rebuilt_history) }
{}

/// What `declared` of the owner's test is for. A lane that the header does not declare takes up a row, and the
/// publisher answers it. The lists meet all premises of the merge, and each item would fit where that lane is
/// declared; as it is not, none of the lane fits any list. The merge breaks the rule `stage`.
pub fn undeclared_lane()
    ensures misses { (ds : List (ℕ × Journal)) (j : Journal) → j.header ≡ lone_header 1 → j.entry.lane ≡ 1 → Fits ds j → ⊥ }
    ensures declared { Fits [] (stray_row 2) × Fits [] (stray_pub 2) × Fits [] (lone_end 2) }
    ensures others { MayMerge (lone_header 1) (stray_lists 1) }
    ensures breaks { first_fault (lone_header 1) (merged (stray_lists 1)) ≡ fault_at 1 Stage }
{}

/// What the premise `figures` is for. A look names a figure that its queue has not published. The lists are those of
/// a closed book and meet all other premises, and the merge breaks the rule `figure`.
pub fn unpublished_figure()
    ensures misses { CarriesFigures early_look_history.header early_look_lists → ⊥ }
    ensures closed { Closes meaning_of_journal early_look_lists }
    ensures others { MeetsOthers early_look_history.header early_look_lists × LeavesAtRest early_look_lists }
    ensures breaks { first_fault early_look_history.header (merged early_look_lists) ≡ fault_at 5 Figure }
{
    // the worked history of this name, whole, breaks the rule there
    faults::unpublished_figure();
}

/// What the premise `at_rest` is for. Lane 0 serves a stop at rest while lane 1's row is not answered: the closing
/// does not find every lane at rest. The lists are those of a closed book and meet all other premises, and the merge
/// breaks the rule `stage`.
pub fn closing_before_all_rest()
    ensures misses { LeavesAtRest (by_owner early_closing_history) → ⊥ }
    ensures closed { Closes meaning_of_journal (by_owner early_closing_history) }
    ensures others { MeetsOthers early_closing_history.header (by_owner early_closing_history)
        × CarriesFigures early_closing_history.header (by_owner early_closing_history) }
    ensures breaks { first_fault early_closing_history.header (merged (by_owner early_closing_history)) ≡ fault_at 6 Stage }
{
    // the worked history of this name, whole, breaks the rule there
    lanes::closing_before_all_rest();
}

/// There are seats that keep all that is asked of owners: lane 1 wakes a task and is answered, and lane 0, which
/// drew nothing, draws the end.
pub fn owners_can_keep()
    ensures { (id : TableId) (code : Coded Journal) (left : Coded Left) → KeptByOwners woken_trace code left (seats id left) 2 }
{}
