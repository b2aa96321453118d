//! The list of values by the keys of their nodes in the slab.
ghost use Rattle.std.specs.Prelude.{◌≡◌, [], ◌∷◌, ◌+◌, ◌-◌, ◌<◌, ◌≤◌, Some, None, IsSome, OnOk};
ghost use Rattle.lb_links.specs.Lists.{value_of, without, with_value, fronted, last_id, id_before, Lacks, AreDistinct};

use crate::node::{Ends, Node, lead, replace_value, unlink};
use lb_base::NoMemory;
use slab::Slab;
use std::alloc::Global;
use std::marker::Model;

/// A doubly linked list. Contracts see the keys with their values, from front to back, and how many
/// more values fit.
#[derive(Drop)]
pub struct Chain<X> {
    nodes: Slab<Node<X>>,
    ends: Ends,
}

impl<X> Model for Chain<X> {
    ghost use Rattle.std.specs.Prelude.{ℕ, ◌-◌};
    ghost use Rattle.std.specs.Coded.{coded×, coded_ℕ};
    ghost use Rattle.slab.specs.Slab.{slab_len};
    ghost use Rattle.lb_base.specs.Room.{WithRoom, with_room_code};
    ghost use Rattle.lb_links.specs.Chains.{walk, IsHeld};

    ghost Value = { WithRoom (ℕ × X) };

    ghost coded = { with_room_code (coded× coded_ℕ X.code) };

    ghost view = { λ c. record {
      items = walk c.nodes (slab_len c.nodes) c.ends.front;
      spare = c.nodes.capacity - slab_len c.nodes;
    } };

    ghost invariant = { λ c. IsHeld c.nodes c.ends };
}

impl<X: Drop> Chain<X> {
    // The empty list. It takes no memory until room is reserved.
    pub(crate) fn new(alloc: Global) -> Chain<X>
        ensures { result.items ≡ [] }
    {
        Chain {
            nodes: Slab::new(alloc),
            ends: Ends {
                front: None,
                back: None,
            },
        }
    }

    // Makes room for so many more values. A refusal leaves the values as they were.
    pub(crate) fn reserve(&mut self, more: usize) -> Result<(), NoMemory>
        ensures items { self.new.items ≡ self.old.items }
        ensures ok { OnOk result (more ≤ self.new.spare) }
        ensures grows { self.old.spare ≤ self.new.spare }
    {
        self.nodes.reserve(more)?;
        Ok(())
    }

    // Adds a value at the front, and answers the key of its node.
    pub(crate) fn push_front(&mut self, value: X) -> usize
        requires { 0 < self.old.spare }
        ensures key { Lacks result self.old.items }
        ensures list { self.new ≡ record { items = (result, value) ∷ self.old.items; spare = self.old.spare - 1 } }
        ensures distinct { AreDistinct self.old.items }
    {
        let key = self.nodes.insert_reserved(Node {
            value,
            before: None,
            after: None,
        });
        lead(&mut self.nodes, &mut self.ends, key);
        key
    }

    // Takes a value out.
    pub(crate) fn remove(&mut self, key: usize) -> X
        requires { IsSome (value_of key self.old.items) }
        ensures value { value_of key self.old.items ≡ Some result }
        ensures list { self.new ≡ record { items = without key self.old.items; spare = self.old.spare + 1 } }
        ensures distinct { AreDistinct self.old.items }
    {
        unlink(&mut self.nodes, &mut self.ends, key);
        let Node {
            value,
            before: _,
            after: _,
        } = self.nodes.remove(key);
        value
    }

    // Moves a value before all others.
    pub(crate) fn to_front(&mut self, key: usize)
        requires { IsSome (value_of key self.old.items) }
        ensures list { self.new ≡ record self.old { items = fronted key self.old.items } }
        ensures distinct { AreDistinct self.old.items }
    {
        unlink(&mut self.nodes, &mut self.ends, key);
        lead(&mut self.nodes, &mut self.ends, key);
    }

    // Puts another value where one stands, and answers that one.
    pub(crate) fn set(&mut self, key: usize, value: X) -> X
        requires { IsSome (value_of key self.old.items) }
        ensures value { value_of key self.old.items ≡ Some result }
        ensures list { self.new ≡ record self.old { items = with_value key value self.old.items } }
        ensures distinct { AreDistinct self.old.items }
    {
        replace_value(&mut self.nodes, key, value)
    }

    // The value of a key.
    pub(crate) fn get(&self, key: usize) -> &X
        requires { IsSome (value_of key self.now.items) }
        ensures value { value_of key self.now.items ≡ Some result.now }
        ensures distinct { AreDistinct self.now.items }
    {
        &self.nodes[key].value
    }

    // The key of the last value.
    pub(crate) fn back(&self) -> Option<usize>
        ensures value { result ≡ last_id self.now.items }
        ensures distinct { AreDistinct self.now.items }
    {
        self.ends.back
    }

    // The key of the next value towards the front.
    pub(crate) fn before(&self, key: usize) -> Option<usize>
        requires { IsSome (value_of key self.now.items) }
        ensures value { result ≡ id_before key self.now.items }
        ensures distinct { AreDistinct self.now.items }
    {
        self.nodes[key].before
    }
}
