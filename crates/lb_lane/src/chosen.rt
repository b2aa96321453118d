//! What a lane copies of a version for a turn.
ghost use Rattle.std.specs.Prelude.{◌≡◌, length};

use lb_base::Items;
use lb_domain::Domain;
use lb_trace::Masks;

/// A version that a lane chose for a turn: its number from 1, its masks, and the domains of the turn's CPU in it.
#[derive(Drop)]
pub struct Chosen {
    pub(crate) version: u64,
    pub(crate) masks: Masks,
    pub(crate) cpu: u32,
    pub(crate) domains: Items<Domain>,
}

impl Chosen {
    /// How many domains the CPU has in the version: a turn takes so many counters.
    pub fn count(&self) -> usize
        ensures { result ≡ length self.now.domains }
    {
        self.domains.len()
    }
}
