//! Laws of the drawn traces, each the contract of a function that does nothing.
ghost use Rattle.lb_generator.specs.Laws.{AreAccepted, MomentsAreSmall};

/// The text of a drawn trace with at most 100,000 rows is accepted, and reads as that trace.
pub fn are_accepted()
    ensures { AreAccepted }
{}

/// Each moment of such a trace is below 5,000,000,000 ns.
pub fn moments_are_small()
    ensures { MomentsAreSmall }
{}
