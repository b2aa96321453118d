//! What holds of the domains of every CPU, as laws: each function's contract is the law, and its
//! body only calls the laws that it rests on.
ghost use Rattle.lb_domain.specs.Laws.{AreOfLevels, AreFew, StandInOrder, LieInside, GroupsPart, SpansGrow};

use lb_levels::laws::{levels_are_few, spans_part_and_grow};

/// A CPU has at most as many domains as the machine has levels, so at most `MAX_LEVELS`.
pub fn domains_are_few()
    ensures of_levels { AreOfLevels }
    ensures most { AreFew }
{
    // the machine has at most so many levels
    levels_are_few();
}

/// The domains of a CPU stand at their positions: the one at position p has position p.
pub fn domains_stand_in_order()
    ensures { StandInOrder }
{}

/// The span of a domain lies within the machine, and within the mask that has the CPU.
pub fn spans_lie_inside()
    ensures { LieInside }
{}

/// The groups of a domain part its span: no two share a CPU, and together they are the span. The
/// first has the CPU.
pub fn groups_part_the_span()
    ensures { GroupsPart }
{
    // the spans of each level are the groups of the level above it
    spans_part_and_grow();
}

/// From position to position the span grows: it has every CPU that it had below, and others.
pub fn spans_grow()
    ensures { SpansGrow }
{
    // from level to level it does
    spans_part_and_grow();
}
