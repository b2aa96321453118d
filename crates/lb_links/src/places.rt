//! Where the node of each id stands.
ghost use Rattle.std.specs.Prelude.{◌≡◌, ◌==◌, ◌+◌, ◌-◌, ◌^◌, ◌<◌, ◌≤◌, ℕ, [], Some, None, if◌then◌else◌, IfOk, IfErr, OnOk, is_some};
ghost use Rattle.lb_links.specs.Lists.{value_of};
ghost use Rattle.lb_links.specs.Places.{IsRising, IsAt, IsGapFor};

use lb_base::NoMemory;
use std::alloc::Global;
use std::marker::Model;

/// The keys of nodes, found by the ids of the nodes. Contracts see the ids with their keys, by rising
/// id, and how many more fit.
#[derive(Drop)]
pub struct Places {
    pairs: Vec<(u32, usize)>,
}

impl Model for Places {
    ghost use Rattle.std.specs.Prelude.{ℕ, ◌-◌, vec_len, vec_capacity};
    ghost use Rattle.std.specs.Coded.{coded×, coded_ℕ};
    ghost use Rattle.lb_base.specs.Room.{WithRoom, with_room_code};
    ghost use Rattle.lb_links.specs.Places.{IsRising};

    ghost Value = { WithRoom (ℕ × ℕ) };

    ghost coded = { with_room_code (coded× coded_ℕ coded_ℕ) };

    ghost view = { λ p. record { items = p.pairs.items; spare = vec_capacity p.pairs - vec_len p.pairs } };

    ghost invariant = { λ p. IsRising p.pairs.items };
}

impl Places {
    // No id. It takes no memory until room is reserved.
    pub(crate) fn new(alloc: Global) -> Places
        ensures { result.items ≡ [] }
    {
        Places {
            pairs: Vec::new(alloc),
        }
    }

    // Makes room for so many more ids. A refusal leaves the ids as they were.
    pub(crate) fn reserve(&mut self, more: usize) -> Result<(), NoMemory>
        ensures items { self.new.items ≡ self.old.items }
        ensures ok { OnOk result (more ≤ self.new.spare) }
        ensures grows { self.old.spare ≤ self.new.spare }
    {
        self.pairs.reserve(more)?;
        Ok(())
    }

    // The key of an id.
    pub(crate) fn find(&self, id: u32) -> Option<usize>
        ensures { result ≡ value_of id self.now.items }
    {
        match search(&self.pairs, id) {
            Ok(at) => Some(self.pairs[at].1),
            Err(_) => None,
        }
    }

    // Adds an id that is not there.
    pub(crate) fn insert(&mut self, id: u32, key: usize)
        requires room { 0 < self.old.spare }
        requires new { value_of id self.old.items ≡ None }
        ensures keys { (other : ℕ) → value_of other self.new.items
            ≡ (if id == other then Some key else value_of other self.old.items) }
        ensures spare { self.new.spare ≡ self.old.spare - 1 }
    {
        match search(&self.pairs, id) {
            Ok(_) => unreachable!(),
            Err(at) => match self.pairs.insert(at, (id, key)) {
                Ok(()) => {}
                Err(_) => unreachable!(),
            },
        }
    }

    // Takes an id out, and answers its key.
    pub(crate) fn remove(&mut self, id: u32) -> Option<usize>
        ensures found { result ≡ value_of id self.old.items }
        ensures keys { (other : ℕ) → value_of other self.new.items
            ≡ (if id == other then None else value_of other self.old.items) }
        ensures spare { self.new.spare ≡ (if is_some result then self.old.spare + 1 else self.old.spare) }
        ensures fits { self.new.spare < 2 ^ 63 }
    {
        match search(&self.pairs, id) {
            Ok(at) => Some(self.pairs.remove(at).1),
            Err(_) => None,
        }
    }
}

// Where an id is among rising ones, or where it would go.
fn search(pairs: &[(u32, usize)], id: u32) -> Result<usize, usize>
    requires { IsRising pairs.now }
    ensures found { IfOk result (IsAt pairs.now id) }
    ensures absent { IfErr result (IsGapFor pairs.now id) }
{
    pairs.binary_search_by_key(&id, |&(other, _)| other)
}
