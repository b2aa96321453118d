//! A lane and the publisher behind its lock before any entry.
ghost use Rattle.std.specs.Prelude.{ℕ, ◌≡◌, ◌<◌, ◌≤◌, true, [], ◌∷◌, Some, All, length, slice_get};
ghost use Rattle.lb_board.specs.Board.{seen_at};
ghost use Rattle.lb_core.specs.Course.{opening_course};
ghost use Rattle.lb_domain.specs.Topologies.{domains_within};
ghost use Rattle.lb_levels.specs.Faults.{CanBeRead};
ghost use Rattle.lb_trace.specs.Accepted.{is_command};
ghost use Rattle.lb_trace.specs.declared.trace.TheConstants.{MAX_ROWS};

use crate::lane::Lane;
use crate::publisher::PublisherCell;
use crate::versions::Versions;
use lb_base::Items;
use lb_cell::{Lane as Side, Names};
use lb_journal::Journal;
use lb_ticket::Seat;
use lb_topub::{Looker, Publisher};
use lb_trace::Rows;
use std::alloc::Global;
use std::marker::{Brand, PhantomData};

/// A call that passes `Brand` picks the publisher of versions itself, too.
impl Versions for Brand {
    ghost versions = { record { number = 0; log_name = 0; cells_name = 0 } };
}

impl<N: Names + Versions> Lane<N> {
    /// A lane before its first row: its side drew nothing and has seen a figure of each CPU, its looker has seen version
    /// 1, which is the header's, and the rows are its own. It vouches for version 1, and has no domains.
    pub fn new(alloc: Global, side: Side<N>, looker: Looker, rows: Rows) -> Lane<N>
        requires machine { CanBeRead N.header.cpus N.header.distances × (length N.board ≡ length N.header.cpus) }
        requires side { (side.course ≡ opening_course (length N.header.cpus)) × (side.seat.list ≡ []) }
        requires seen { (cpu : ℕ) → cpu < length N.header.cpus → 0 < length (seen_at side.known.reader cpu) }
        requires looker { (looker.book ≡ N.versions)
            × (slice_get looker.topologies 0 ≡ Some (domains_within N.header.cpus N.header.distances N.header.parts)) }
        requires rows { All (λ r. r.lane ≡ side.number) rows × All (λ r. is_command N.header r.command ≡ true) rows }
        requires short { length rows ≤ MAX_ROWS }
        ensures { result
            ≡ record { side = side; looker = looker; rows = rows; vouched = 1; turned = 0; domains = [] } }
    {
        Lane {
            side,
            looker,
            rows,
            vouched: 1,
            turned: 0,
            domains: Items::new(alloc),
        }
    }
}

impl<N: Names + Versions> PublisherCell<N> {
    /// The publisher with its seat, which drew nothing: version 1, which is the header's, is published alone.
    pub fn new(publisher: Publisher, seat: Seat<Journal>) -> PublisherCell<N>
        requires seat { (seat.table ≡ N.book) × (seat.number ≡ 0) × (seat.list ≡ []) }
        requires publisher { (publisher.book ≡ N.versions)
            × (publisher.topologies ≡ domains_within N.header.cpus N.header.distances N.header.parts ∷ []) }
        ensures { result ≡ record { publisher = publisher; seat = seat } }
    {
        PublisherCell {
            publisher,
            seat,
            names: PhantomData,
        }
    }
}
