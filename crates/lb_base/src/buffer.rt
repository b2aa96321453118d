//! A list whose room is kept: what is pushed into room takes no memory.
ghost use Rattle.std.specs.Prelude.{◌≡◌, [], ◌∷◌, ◌++◌, ◌-◌, ◌<◌, ◌≤◌, length, set, OnOk, OnErr};

use crate::memory::NoMemory;
use std::alloc::Global;
use std::marker::Model;

/// A growing list that can keep room: what room was reserved for is added without memory, and so
/// without refusal. Contracts see its items, from the first to the last, and how many more it has
/// room for.
#[derive(Debug, Drop)]
pub struct Buffer<T> {
    items: Vec<T>,
}

impl<T> Model for Buffer<T> {
    ghost use Rattle.std.specs.Prelude.{◌-◌, vec_len, vec_capacity};
    ghost use Rattle.lb_base.specs.Room.{WithRoom, with_room_code};

    ghost Value = { WithRoom T };

    ghost coded = { with_room_code T.code };

    ghost view = { λ b. record { items = b.items.items; spare = vec_capacity b.items - vec_len b.items } };
}

impl<T> Buffer<T> {
    /// The empty list. It takes no memory until room is reserved.
    pub fn new(alloc: Global) -> Buffer<T>
        ensures { result.items ≡ [] }
    {
        Buffer {
            items: Vec::new(alloc),
        }
    }

    /// The items as a slice.
    pub fn as_slice(&self) -> &[T]
        ensures { result.now ≡ self.now.items }
    {
        self.items.as_slice()
    }

    /// Makes room for `more` items. A refusal leaves the list as it was.
    pub fn reserve(&mut self, more: usize) -> Result<(), NoMemory>
        ensures items { self.new.items ≡ self.old.items }
        ensures ok { OnOk result (more ≤ self.new.spare) }
        ensures grows { self.old.spare ≤ self.new.spare }
        ensures refused { OnErr result (self.new ≡ self.old) }
    {
        self.items.reserve(more)?;
        Ok(())
    }
}

impl<T: Drop> Buffer<T> {
    /// Puts another item at place `i`, from 0.
    pub fn set(&mut self, i: usize, item: T)
        requires { i < length self.old.items }
        ensures { self.new ≡ record self.old { items = set self.old.items i item } }
    {
        self.items[i] = item;
    }

    /// Adds an item at the end, where there is room for it.
    pub fn push_reserved(&mut self, item: T)
        requires { 0 < self.old.spare }
        ensures { self.new ≡ record { items = self.old.items ++ item ∷ []; spare = self.old.spare - 1 } }
    {
        self.items.push_reserved(item);
    }
}
