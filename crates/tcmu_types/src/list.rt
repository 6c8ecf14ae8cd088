//! Lists over vectors, which contracts see as their items and the room that is reserved for more.
ghost use Rattle.std.specs.Prelude.{◌≡◌, ◌+◌, ◌-◌, ◌≤◌, ◌==◌, [], ◌∷◌, ◌++◌, length, nat_eq, replicate, IfOk, IsOk, OnOk};
ghost use Rattle.std.specs.List.{list_any};
ghost use Rattle.std.specs.Vec.{vec_len, vec_capacity};
ghost use Rattle.tcmu_types.specs.Data.{texts_of};
ghost use Rattle.tcmu_types.specs.Copied.{HasCopyRoom, LeavesRoom};

use std::alloc::{AllocError, AllocFailed, Global};
use std::marker::Model;
use std::mem;
use thiserror::Error;

/// Memory was wanting. It is the one answer that no clause ties to a cause.
#[derive(Clone, Copy, Debug, PartialEq, Eq, Error)]
#[error("no memory")]
pub struct NoMemory;

impl From<AllocError> for NoMemory {
    fn from(_: AllocError) -> NoMemory {
        NoMemory
    }
}

impl<T: Drop> From<AllocFailed<T>> for NoMemory {
    fn from(_: AllocFailed<T>) -> NoMemory {
        NoMemory
    }
}

/// A list whose room for more items is part of its contract: `reserve` takes memory, and what appends in that room takes none.
#[derive(Debug, Drop)]
pub struct Listed<T> {
    items: Vec<T>,
}

impl<T> Model for Listed<T> {
    ghost use Rattle.std.specs.Prelude.{◌-◌};
    ghost use Rattle.std.specs.Vec.{vec_len, vec_capacity};
    ghost use Rattle.tcmu_types.specs.Data.{Spared};

    ghost Value = { Spared T };

    ghost view = { λ a. record { items = a.items.items; spare = vec_capacity a.items - vec_len a.items } };
}

/// Bytes: a payload, a text, a piece of the region.
pub type Bytes = Listed<u8>;

/// Serials of commands.
pub type Serials = Listed<u64>;

/// Command ids, as they stand in the ring.
pub type Ids = Listed<u16>;

/// Numbers of data blocks.
pub type BlockList = Listed<u32>;

/// The words of a command line.
pub type Words = Listed<Bytes>;

impl<T> Listed<T> {
    /// No items.
    pub fn new(alloc: Global) -> Self
        ensures { result.items ≡ [] }
    {
        Listed {
            items: Vec::new(alloc),
        }
    }

    /// Takes a vector over, with its room.
    pub fn from_vec(items: Vec<T>) -> Self
        ensures items { result.items ≡ items.items }
        ensures room { result.spare ≡ vec_capacity items - vec_len items }
    {
        Listed { items }
    }

    /// Gives the vector back, with its room.
    pub fn into_vec(self) -> Vec<T>
        ensures items { result.items ≡ self.items }
        ensures room { vec_capacity result - vec_len result ≡ self.spare }
    {
        let Listed { items } = self;
        items
    }

    /// The items, in order.
    pub fn as_slice(&self) -> &[T]
        ensures { result.now ≡ self.now.items }
    {
        &self.items
    }

    /// How many items there are.
    pub fn len(&self) -> usize
        ensures { result ≡ length self.now.items }
    {
        self.items.len()
    }

    /// Whether there is no item.
    pub fn is_empty(&self) -> bool
        ensures { result ≡ (length self.now.items == 0) }
    {
        self.items.len() == 0
    }

    /// Makes room for `more` items.
    pub fn reserve(&mut self, more: u64) -> Result<(), NoMemory>
        ensures items { self.new.items ≡ self.old.items }
        ensures room { OnOk result (more ≤ self.new.spare) }
        ensures kept { self.old.spare ≤ self.new.spare }
    {
        self.items.reserve(more as usize)?;
        Ok(())
    }

    /// Forgets the items, and keeps their room.
    pub fn clear(&mut self)
    where
        T: Drop,
        ensures items { self.new.items ≡ [] }
        ensures room { self.old.spare + length self.old.items ≤ self.new.spare }
    {
        self.items.clear();
    }

    /// Appends an item in the room that is there.
    pub fn push(&mut self, item: T)
        requires { 1 ≤ self.old.spare }
        ensures items { self.new.items ≡ self.old.items ++ item ∷ [] }
        ensures room { self.old.spare ≤ self.new.spare + 1 }
    {
        self.items.push_reserved(item);
    }
}

impl<T: Copy> Listed<T> {
    /// A list of these items.
    pub fn from_slice(alloc: Global, items: &[T]) -> Result<Self, NoMemory>
        ensures { IfOk result (λ list. list.items ≡ items.now) }
    {
        Ok(Listed {
            items: Vec::from_slice(alloc, items)?,
        })
    }

    /// Appends items in the room that is there.
    pub fn extend(&mut self, items: &[T])
        requires { length items.now ≤ self.old.spare }
        ensures items { self.new.items ≡ self.old.items ++ items.now }
        ensures room { self.old.spare ≤ self.new.spare + length items.now }
    {
        self.items.extend_from_slice(items).unwrap();
    }

    /// Appends `count` copies of an item in the room that is there.
    pub fn fill(&mut self, item: T, count: usize)
    where
        T: Drop,
        requires { count ≤ self.old.spare }
        ensures items { self.new.items ≡ self.old.items ++ replicate count item }
        ensures room { self.old.spare ≤ self.new.spare + count }
    {
        let length = self.items.len() + count;
        self.items.resize(length, item).unwrap();
    }
}

impl Serials {
    /// Whether this number stands in the list.
    pub fn contains(&self, number: u64) -> bool
        ensures { result ≡ list_any (λ k. nat_eq k number) self.now.items }
    {
        self.items.iter().any(|k| *k == number)
    }
}

impl Listed<Bytes> {
    /// Copies of these words.
    pub fn from_words(alloc: Global, words: &[Bytes]) -> Result<Self, NoMemory>
        ensures { IfOk result (λ list. texts_of list.items ≡ texts_of words.now) }
    {
        let mut list = Listed::new(alloc);
        list.reserve(words.len() as u64)?;
        for word in words {
            let copy = Bytes::from_slice(alloc, word.as_slice())?;
            list.push(copy);
        }
        Ok(list)
    }
}

/// Room for copies that take no memory. A copy takes the room of its kind with it, and `reserve` makes it anew. Contracts see for how
/// many bytes and for how many serials there is room.
#[derive(Drop)]
pub struct CopyRoom {
    bytes: Vec<u8>,
    serials: Vec<u64>,
}

impl Model for CopyRoom {
    ghost use Rattle.std.specs.Prelude.{◌≡◌, []};
    ghost use Rattle.std.specs.Vec.{vec_capacity};
    ghost use Rattle.tcmu_types.specs.Copied.{RoomData};

    ghost Value = { RoomData };

    ghost view = { λ a. record { bytes = vec_capacity a.bytes; serials = vec_capacity a.serials } };

    ghost invariant = { λ a. (a.bytes.items ≡ []) × (a.serials.items ≡ []) };
}

impl CopyRoom {
    /// No room yet.
    pub fn new(alloc: Global) -> CopyRoom
        ensures { result ≡ record { bytes = 0; serials = 0 } }
    {
        CopyRoom {
            bytes: Vec::new(alloc),
            serials: Vec::new(alloc),
        }
    }

    /// Makes room for so many bytes and so many serials. Room that is there needs no memory.
    pub fn reserve(&mut self, bytes: usize, serials: usize) -> Result<(), NoMemory>
        ensures room { OnOk result ((bytes ≤ self.new.bytes) × (serials ≤ self.new.serials)) }
        ensures kept { (self.old.bytes ≤ self.new.bytes) × (self.old.serials ≤ self.new.serials) }
        ensures there { bytes ≤ self.old.bytes → serials ≤ self.old.serials → IsOk result }
    {
        self.bytes.reserve(bytes)?;
        self.serials.reserve(serials)?;
        Ok(())
    }

    /// A copy of these bytes.
    pub fn copy_bytes(&mut self, bytes: &[u8]) -> Bytes
        requires { HasCopyRoom bytes.now [] self.old }
        ensures copy { result.items ≡ bytes.now }
        ensures room { LeavesRoom bytes.now [] self.old self.new }
    {
        Listed::from_vec(fill_and_take(&mut self.bytes, bytes))
    }

    /// A copy of these serials.
    pub fn copy_serials(&mut self, serials: &[u64]) -> Serials
        requires { HasCopyRoom [] serials.now self.old }
        ensures copy { result.items ≡ serials.now }
        ensures room { LeavesRoom [] serials.now self.old self.new }
    {
        Listed::from_vec(fill_and_take(&mut self.serials, serials))
    }
}

/// Fills an empty vector with these items, and takes it out with its room. Where there are no items the room stays.
fn fill_and_take<T: Copy>(room: &mut Vec<T>, items: &[T]) -> Vec<T>
    requires empty { room.old.items ≡ [] }
    requires room { length items.now ≤ vec_capacity room.old }
    ensures items { result.items ≡ items.now }
    ensures empty { room.new.items ≡ [] }
    ensures kept { items.now ≡ [] → vec_capacity room.new ≡ vec_capacity room.old }
{
    let none = Vec::new(*room.allocator());
    if items.len() == 0 {
        return none;
    }
    let mut filled = mem::replace(room, none);
    filled.extend_from_slice(items).unwrap();
    filled
}
