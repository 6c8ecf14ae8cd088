//! The ring's places, with the items that are not cleared.
ghost use Rattle.std.specs.Prelude.{◌≡◌, ◌+◌, ◌%◌, ◌==◌, ◌||◌, ◌<◌, ◌≤◌, [], ◌∷◌, ◌++◌, length, OnOk, IfSome, true};
ghost use Rattle.tcmu_types.specs.Rules.{IsRingSize};
ghost use Rattle.cmd_ring.specs.Places.{IsItemLength};
ghost use Rattle.region_model.specs.TargetSteps.{pads_of};
ghost use Rattle.region_model.specs.TargetCleans.{ends_at};
ghost use Rattle.target_side.specs.RingRecord.{passed, used_of, head_of, free_of, need_of, pad_of, fits_of, place_in_record, item_at, begins_with_command};

use crate::RingItem;
use crate::item::LaidItem;
use cmd_ring::{Place, Ring};
use std::alloc::Global;
use std::collections::VecDeque;
use std::marker::Model;
use tcmu_types::{ItemKind, NoMemory};

/// The command ring's numbers beside the items that are not cleared, in ring order. Places and lengths are in bytes.
#[derive(Drop)]
pub(crate) struct Places {
    ring: Ring,
    items: VecDeque<LaidItem>,
}

impl Model for Places {
    ghost use Rattle.std.specs.Prelude.{◌-◌};
    ghost use Rattle.std.specs.VecDeque.{deque_len, deque_capacity};
    ghost use Rattle.target_side.specs.RingRecord.{SparedRing, KeepsItems};

    ghost Value = { SparedRing };

    ghost view = { λ a. record {
      ring = record { size = a.ring.size; cleaned = a.ring.cleaned; items = a.items.items };
      spare = deque_capacity a.items - deque_len a.items;
    } };

    ghost invariant = { λ a. KeepsItems a.ring a.items.items };
}

/// Whether one of these items ends at a place of the ring, of which the first begins at `start`.
fn ends_at(items: &VecDeque<LaidItem>, ring: u32, start: u32, tail: u32) -> bool
    requires { 0 < ring }
    ensures { result ≡ ends_at ring start items.now.items tail }
{
    let mut at = start as u64;
    for index in 0..items.len() {
        at = (at + items[index].len() as u64) % ring as u64;
        if at == tail as u64 {
            return true;
        }
    }
    false
}

impl Places {
    /// An empty ring of so many bytes.
    pub(crate) fn new(alloc: Global, size: u32) -> Places
        requires { IsRingSize size }
        ensures { result.ring ≡ record { size = size; cleaned = 0; items = [] } }
    {
        Places {
            ring: Ring::new(size),
            items: VecDeque::new(alloc),
        }
    }

    /// How many bytes the ring has.
    pub(crate) fn size(&self) -> u32
        ensures value { result ≡ self.now.ring.size }
        ensures size { IsRingSize self.now.ring.size }
    {
        // What this call ensures is used: the limits of every ring.
        let _head = self.ring.head();
        self.ring.size()
    }

    /// Where the first item begins.
    pub(crate) fn cleaned(&self) -> u32
        ensures value { result ≡ self.now.ring.cleaned }
        ensures below { result < self.now.ring.size }
    {
        // What this call ensures is used: the limits of every ring.
        let _head = self.ring.head();
        self.ring.cleaned()
    }

    /// Where the next item begins, or its padding.
    pub(crate) fn head(&self) -> u32
        ensures value { result ≡ head_of self.now.ring }
        ensures below { result < self.now.ring.size }
    {
        self.ring.head()
    }

    /// How many bytes are in use.
    pub(crate) fn used(&self) -> u32
        ensures value { result ≡ used_of self.now.ring }
        ensures below { result < self.now.ring.size }
    {
        // What this call ensures is used: the limits of every ring.
        let _head = self.ring.head();
        self.ring.used()
    }

    /// How many more bytes can be used.
    pub(crate) fn free(&self) -> u32
        ensures { result ≡ free_of self.now.ring }
    {
        self.ring.free()
    }

    /// How many bytes an item of `len` bytes needs, with the padding before it.
    pub(crate) fn need(&self, len: u32) -> u32
        requires { len ≤ 4194304 }
        ensures { result ≡ need_of self.now.ring len }
    {
        let left = self.size() - self.head();
        let pad = if left < len { left } else { 0 };
        pad + len
    }

    /// How many items there are.
    pub(crate) fn len(&self) -> usize
        ensures { result ≡ length self.now.ring.items }
    {
        self.items.len()
    }

    /// Whether the first item is a command's.
    pub(crate) fn begins_with_command(&self) -> bool
        ensures { result ≡ begins_with_command self.now.ring.items }
    {
        match self.items.front() {
            Some(item) => item.is_command(),
            None => false,
        }
    }

    /// The item at an index, from 0.
    pub(crate) fn item(&self, index: u32) -> Option<RingItem>
        ensures { result ≡ item_at self.now.ring index }
    {
        let item = self.items.get(index as usize)?;
        // What these calls ensure is used: all items together are shorter than the ring.
        let size = self.size();
        let _used = self.used();
        let mut before = 0;
        for earlier in 0..index as usize {
            before += self.items[earlier].len() as u64;
        }
        let at = (self.cleaned() as u64 + before) % size as u64;
        Some(RingItem {
            at: at as u32,
            kind: item.kind(),
            len: item.len(),
        })
    }

    /// Makes room for an item, and for padding before it.
    pub(crate) fn reserve(&mut self) -> Result<(), NoMemory>
        ensures ring { self.new.ring ≡ self.old.ring }
        ensures room { OnOk result (2 ≤ self.new.spare) }
    {
        self.items.reserve(2)?;
        Ok(())
    }

    /// Lays an item that fits, and padding before it where that is needed.
    pub(crate) fn lay(&mut self, kind: ItemKind, len: u32) -> Place
        requires length { IsItemLength self.old.ring.size len }
        requires fits { fits_of self.old.ring len ≡ true }
        requires room { 2 ≤ self.old.spare }
        ensures place { result ≡ place_in_record self.old.ring len }
        ensures items { self.new.ring ≡ record self.old.ring { items = self.old.ring.items ++ pads_of (pad_of self.old.ring len) ++ record { kind = kind; len = len } ∷ [] } }
        ensures head { head_of self.new.ring ≡ (head_of self.old.ring + need_of self.old.ring len) % self.old.ring.size }
        ensures in_one_piece { result.at + len ≤ self.old.ring.size }
        ensures to_the_end { IfSome result.pad (λ pad. result.pad_at + pad ≡ self.old.ring.size) }
        ensures pad_words { IfSome result.pad (λ pad. (8 ≤ pad) × (pad % 8 ≡ 0)) }
    {
        // What these calls ensure is used: the limits of every ring.
        let _before = self.ring.head();
        let place = self.ring.place(len);
        let _after = self.ring.head();
        if let Some(pad) = place.pad {
            self.items.push_back_reserved(LaidItem {
                kind: ItemKind::Pad,
                len: pad,
            });
        }
        self.items.push_back_reserved(LaidItem { kind, len });
        place
    }

    /// The first item is cleared.
    pub(crate) fn pass(&mut self)
        ensures { self.new.ring ≡ passed self.old.ring }
    {
        if let Some(item) = self.items.pop_front() {
            self.ring.advance_clean(item.len());
        }
    }

    /// Whether the first item begins at a place, or an item ends there. It looks at the items up to that place.
    pub(crate) fn is_end(&self, tail: u32) -> bool
        ensures { result ≡ ((tail == self.now.ring.cleaned) || ends_at self.now.ring.size self.now.ring.cleaned self.now.ring.items tail) }
    {
        let start = self.cleaned();
        tail == start || ends_at(&self.items, self.ring.size(), start, tail)
    }

    /// No item is left, and the ring begins anew at its start.
    pub(crate) fn reset(&mut self)
        ensures { self.new.ring ≡ record { size = self.old.ring.size; cleaned = 0; items = [] } }
    {
        self.ring.reset();
        self.items.clear();
    }
}
