//! The list as its callers see it: values by their ids.
ghost use Rattle.std.specs.Prelude.{◌≡◌, [], ◌∷◌, ◌+◌, ◌-◌, ◌≤◌, Some, None, IsSome, OnOk, OnErr, max, is_some, option_copied, if◌then◌else◌};
ghost use Rattle.lb_links.specs.Lists.{value_of, without, with_value, fronted, last_id, id_before, AreDistinct};

use crate::chain::Chain;
use crate::places::Places;
use lb_base::NoMemory;
use std::alloc::Global;
use std::marker::Model;

/// A list of values, each with an id that no other has. It goes from the front to the back. Contracts
/// see the ids with their values in that order, and `spare`, for how many more values nodes are
/// reserved. Only `reserve` takes memory.
#[derive(Drop)]
pub struct Links<T> {
    chain: Chain<(u32, T)>,
    places: Places,
    // Both have room for so many more. It is counted, and not read off that room: where one of the two
    // got room and the other was refused it, nothing is to have changed.
    spare: usize,
}

impl<T> Model for Links<T> {
    ghost use Rattle.std.specs.Prelude.{ℕ};
    ghost use Rattle.std.specs.Coded.{coded×, coded_ℕ};
    ghost use Rattle.lb_base.specs.Room.{WithRoom, with_room_code};
    ghost use Rattle.lb_links.specs.Inside.{named, IsFound};

    ghost Value = { WithRoom (ℕ × T) };

    ghost coded = { with_room_code (coded× coded_ℕ T.code) };

    ghost view = { λ l. record { items = named l.chain.items; spare = l.spare } };

    ghost invariant = { λ l. IsFound l.chain l.places l.spare };
}

impl<T: Drop> Links<T> {
    /// The empty list, without reserved nodes. It takes no memory until some are reserved.
    pub fn new(alloc: Global) -> Links<T>
        ensures { result ≡ record { items = []; spare = 0 } }
    {
        Links {
            chain: Chain::new(alloc),
            places: Places::new(alloc),
            spare: 0,
        }
    }

    /// Has nodes reserved for at least `k` more values. A refusal changes nothing.
    pub fn reserve(&mut self, k: usize) -> Result<(), NoMemory>
        ensures ok { OnOk result (self.new ≡ record self.old { spare = max self.old.spare k }) }
        ensures refused { OnErr result (self.new ≡ self.old) }
        ensures distinct { AreDistinct self.old.items }
    {
        if k <= self.spare {
            return Ok(());
        }
        self.chain.reserve(k)?;
        self.places.reserve(k)?;
        self.spare = k;
        Ok(())
    }

    /// Adds a value at the front, in a node that was reserved.
    pub fn push_front(&mut self, id: u32, value: T)
        requires room { 1 ≤ self.old.spare }
        requires new { value_of id self.old.items ≡ None }
        ensures list { self.new ≡ record { items = (id, value) ∷ self.old.items; spare = self.old.spare - 1 } }
        ensures distinct { AreDistinct self.new.items }
    {
        let key = self.chain.push_front((id, value));
        self.places.insert(id, key);
        self.spare -= 1;
    }

    /// Takes a value out: None exactly where the id is not there. Its node is then a reserved one.
    pub fn remove(&mut self, id: u32) -> Option<T>
        ensures value { result ≡ value_of id self.old.items }
        ensures list { self.new.items ≡ without id self.old.items }
        ensures spare { self.new.spare ≡ (if is_some result then self.old.spare + 1 else self.old.spare) }
        ensures distinct { AreDistinct self.old.items }
    {
        let key = self.places.remove(id)?;
        let (_, value) = self.chain.remove(key);
        self.spare += 1;
        Some(value)
    }

    /// Moves a value before all others, which keep their order.
    pub fn to_front(&mut self, id: u32)
        requires { IsSome (value_of id self.old.items) }
        ensures list { self.new ≡ record self.old { items = fronted id self.old.items } }
        ensures distinct { AreDistinct self.old.items }
    {
        if let Some(key) = self.places.find(id) {
            self.chain.to_front(key);
        }
    }

    /// Puts another value in the place of one, and answers that one.
    pub fn set(&mut self, id: u32, value: T) -> T
        requires { IsSome (value_of id self.old.items) }
        ensures value { value_of id self.old.items ≡ Some result }
        ensures list { self.new ≡ record self.old { items = with_value id value self.old.items } }
        ensures distinct { AreDistinct self.old.items }
    {
        match self.places.find(id) {
            Some(key) => {
                let (_, old) = self.chain.set(key, (id, value));
                old
            }
            None => unreachable!(),
        }
    }

    /// The value of an id: None exactly where the id is not there.
    pub fn get(&self, id: u32) -> Option<&T>
        ensures value { option_copied result ≡ value_of id self.now.items }
        ensures distinct { AreDistinct self.now.items }
    {
        let key = self.places.find(id)?;
        let (_, value) = self.chain.get(key);
        Some(value)
    }

    /// The last id: None exactly where the list is empty.
    pub fn back(&self) -> Option<u32>
        ensures value { result ≡ last_id self.now.items }
        ensures distinct { AreDistinct self.now.items }
    {
        let key = self.chain.back()?;
        Some(self.chain.get(key).0)
    }

    /// The next id towards the front: None exactly where the id is at the front or not there.
    pub fn before(&self, id: u32) -> Option<u32>
        ensures value { result ≡ id_before id self.now.items }
        ensures distinct { AreDistinct self.now.items }
    {
        let key = self.places.find(id)?;
        let key = self.chain.before(key)?;
        Some(self.chain.get(key).0)
    }
}
