//! Laws of the text of a history, each the contract of a function that does nothing.
ghost use Rattle.lb_record.specs.Laws.{HasItsLines, HasItsFields};
ghost use Rattle.lb_record.specs.Rows.{AreAsWanted, HasLines, row_lines, move_lines, turn_lines, end_lines};

/// A line feed ends each line of a history's text and stands nowhere else. So the text has a line for
/// each line of the header and one for each entry, and the entry of ticket T stands T lines after the
/// header's last.
#[tactic(auto, using(crate::proofs::Spelled::has_its_lines))]
pub fn has_its_lines()
    ensures { HasItsLines }
{}

/// A space stands between each two fields of an entry's line and nowhere else.
#[tactic(auto, using(crate::proofs::Spelled::has_its_fields))]
pub fn has_its_fields()
    ensures { HasItsFields }
{}

/// Worked lines of a header and of entries of every kind have the texts that are wanted
/// (docs/rules/history-text.md).
pub fn spells_worked_lines()
    ensures rows { AreAsWanted row_lines }
    ensures moves { AreAsWanted move_lines }
    ensures turns { AreAsWanted turn_lines }
    ensures ends { AreAsWanted end_lines }
    ensures header { HasLines }
{}
