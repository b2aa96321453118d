//! The rules of a legal history, in the order in which they are asked (docs/rules/legality.md).
ghost use Rattle.std.specs.Prelude.{◌≡◌};
ghost use Rattle.lb_core.specs.Names.{name_of};

use std::fmt;

/// The rules of a legal history, in the order in which they are asked. A rule is printed as its
/// name in small letters (docs/rules/legality.md).
#[derive(Clone, Copy, Debug, PartialEq, Eq)]
pub enum Rule {
    /// The written ticket is one more than the last.
    Ticket,
    /// The previous ticket is that of the lane's last entry.
    Prev,
    /// The lane may draw this kind of entry with this owner now.
    Stage,
    /// A row has the next number and names what is declared; the masks of a rebuild share no CPU; and
    /// no other lane ticked the CPU that a row ticks.
    Row,
    /// The queue that answers a task's command is the one where the task is.
    Place,
    /// A reply, a refusal of a turn or a published version is what the state says.
    Reply,
    /// A `use` names a published version, and none below the greatest that this lane used or published.
    Version,
    /// The named figures are those of the right CPUs, published and not too old.
    Figure,
    /// A look is at the position in work, without the CPUs that are excluded there, and its decision is
    /// that of the named figures; so is the target of a scan; a close is of the position in work.
    Decision,
    /// The tasks that leave a queue are those that the rules pick.
    Pick,
    /// The tasks that land are those in the lane's hand.
    Flight,
    /// Positions, outcomes, intervals and failures are those of the counters.
    Counters,
    /// No stop request is owed at the CPU of a tick, or of a tick's `use`; and at the end none is
    /// pending anywhere.
    Owed,
    /// The end names the unserved requests, and nothing follows it.
    End,
}

impl Rule {
    /// The rule's name, as it is printed.
    pub fn name(self) -> &'static str
        ensures { result.now ≡ name_of self }
    {
        match self {
            Rule::Ticket => "ticket",
            Rule::Prev => "prev",
            Rule::Stage => "stage",
            Rule::Row => "row",
            Rule::Place => "place",
            Rule::Reply => "reply",
            Rule::Version => "version",
            Rule::Figure => "figure",
            Rule::Decision => "decision",
            Rule::Pick => "pick",
            Rule::Flight => "flight",
            Rule::Counters => "counters",
            Rule::Owed => "owed",
            Rule::End => "end",
        }
    }
}

impl fmt::Display for Rule {
    ghost use Rattle.std.specs.Prelude.{Some};

    ghost output = { λ rule. Some (name_of rule) };

    fn fmt<W: fmt::Write>(&self, f: &mut fmt::Formatter<W>) -> fmt::Result {
        f.write_str(self.name())
    }
}
