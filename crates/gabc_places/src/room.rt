//! A list of bounded length, whose memory is reserved when it is made.

ghost use Rattle.std.specs.Prelude.{◌≡◌, ℕ, ◌+◌, ◌-◌, ◌<◌, ◌≤◌, ◌==◌, List, [], ◌∷◌, ◌++◌, length, IfOk, IsTrue, ◌↔◌};
ghost use Rattle.gabc_places.specs.BoundedList.{Fits, extended_by, room_left};

use crate::memory::Memory;
use std::alloc::{AllocError, Global};
use std::marker::Model;

/// A list with a largest number of items. Adding to it does not allocate.
#[derive(Debug, Drop)]
pub struct Room<T: Copy> {
    items: Vec<T, Memory>,
    limit: usize,
}

impl<T: Copy> Model for Room<T> {
    ghost use Rattle.std.specs.Prelude.{◌≤◌, vec_len, vec_capacity};
    ghost use Rattle.gabc_places.specs.BoundedList.{BoundedList};

    ghost Value = { BoundedList T };

    ghost view = { λ r. record { items = r.items.items; limit = r.limit } };

    ghost invariant = { λ r. (r.limit ≤ vec_capacity r.items) × (vec_len r.items ≤ r.limit) };
}

impl<T: Copy> Room<T> {
    /// Returns an empty room for `limit` items, and reserves their memory. Fails only if memory
    /// cannot be allocated.
    pub fn with_limit(alloc: Global, limit: usize) -> Result<Room<T>, AllocError>
        ensures { IfOk result (λ r. r ≡ record { items = []; limit = limit }) }
    {
        Room::in_memory(&Memory::with_capacity(alloc, 0)?, limit)
    }

    /// Returns an empty room for `limit` items, which are reserved in `memory`. Fails only if
    /// memory cannot be allocated.
    pub fn in_memory(memory: &Memory, limit: usize) -> Result<Room<T>, AllocError>
        ensures { IfOk result (λ r. r ≡ record { items = []; limit = limit }) }
    {
        let items = Vec::with_capacity(memory.share()?, limit)?;
        Ok(Room { items, limit })
    }

    /// Returns the number of items that it can still take.
    pub fn left(&self) -> usize
        ensures left { result ≡ room_left self.now }
        ensures within { length self.now.items ≤ self.now.limit }
    {
        self.limit - self.items.len()
    }

    /// Returns whether it takes no more items.
    pub fn is_full(&self) -> bool
        ensures full { IsTrue result ↔ (room_left self.now ≡ 0) }
        ensures within { length self.now.items ≤ self.now.limit }
    {
        self.items.len() == self.limit
    }

    /// Returns the items, in the order in which they were added.
    pub fn slice(&self) -> &[T]
        ensures { result.now ≡ self.now.items }
    {
        self.items.as_slice()
    }

    /// Adds `item` at the end. There has to be room for it.
    pub fn push(&mut self, item: T)
        requires { Fits self.old 1 }
        ensures { self.new ≡ extended_by self.old (item ∷ []) }
    {
        self.items.push_reserved(item);
    }

    /// Adds `items` at the end. There has to be room for them.
    pub fn append(&mut self, items: &[T])
        requires { Fits self.old (length items.now) }
        ensures { self.new ≡ extended_by self.old items.now }
    {
        let Ok(()) = self.items.extend_from_slice(items) else {
            unreachable!()
        };
    }

    /// Removes all items. The memory stays reserved.
    pub fn clear(&mut self)
        ensures { self.new ≡ record self.old { items = [] } }
    {
        self.items.clear();
    }
}
