//! Which publisher of versions all lanes of one machine speak of.
ghost use Rattle.logbook.specs.Pages.{Book};

/// One publisher, of whose versions all lanes and the publisher's lock speak.
pub trait Versions {
    ghost versions: { Book };
}
