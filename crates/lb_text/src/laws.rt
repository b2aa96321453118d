//! Laws of the spellings, each the contract of a function that does nothing.
ghost use Rattle.lb_text.specs.Laws.{SpellsDecimal, ReadsBack, WritesRuns, HasOneFirstBad, ListsFit};

/// A text spells a number exactly where it is that number in decimal. So each number has one
/// spelling, and one that is written is read back.
pub fn spells_decimal()
    ensures { SpellsDecimal }
{}

/// A list that is written is read back as its mask.
pub fn reads_back()
    ensures { ReadsBack }
{}

/// The runs that are written have exactly the CPUs of the mask, rise, and leave a gap between each
/// two: none could be longer.
pub fn writes_runs()
    ensures { WritesRuns }
{}

/// A text has at most one first bad byte.
pub fn has_one_first_bad()
    ensures { HasOneFirstBad }
{}

/// A list names CPUs that a mask has room for.
pub fn lists_fit()
    ensures { ListsFit }
{}
