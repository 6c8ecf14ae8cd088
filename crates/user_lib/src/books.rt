//! The user side's books: what it keeps for itself, with the bounds of its numbers alone.
ghost use Rattle.std.specs.Prelude.{◌≡◌, ◌≤◌, ◌+◌, ◌%◌, take, OnOk, OnErr};
ghost use Rattle.region_model.specs.UserNext.{with_passed};
ghost use Rattle.ring_laws.specs.RingKept.{IsPlace};

use crate::jobs::Jobs;
use crate::passed::PassedItem;
use std::collections::VecDeque;
use std::marker::Model;
use tcmu_types::{Flags, ItemKind, NoMemory};

/// What the user side of one region keeps.
#[derive(Drop)]
pub(crate) struct UserBooks {
    pub(crate) ring: u32,
    pub(crate) pages: u32,
    pub(crate) flags: Flags,
    pub(crate) place: u32,
    pub(crate) tail: u32,
    pub(crate) jobs: Jobs,
    pub(crate) offsets: VecDeque<u32>,
    pub(crate) items: VecDeque<PassedItem>,
    pub(crate) dispatched: u64,
    pub(crate) placed: u64,
    pub(crate) published: u64,
}

impl Model for UserBooks {
    ghost use Rattle.region_model.specs.Sides.{UserState};
    ghost use Rattle.user_lib.specs.Books.{AreBooks, books_of};

    ghost Value = { UserState };

    ghost view = { λ a. books_of a.ring a.pages a.flags a.place a.tail a.jobs a.offsets.items a.items.items a.dispatched a.placed a.published };

    ghost invariant = { λ a. AreBooks (books_of a.ring a.pages a.flags a.place a.tail a.jobs a.offsets.items a.items.items a.dispatched a.placed a.published) a.jobs.any_order };
}

/// The place behind an entry.
pub(crate) fn place_behind(place: u32, len: u32, ring: u32) -> u32
    requires { 1 ≤ ring }
    ensures { result ≡ (place + len) % ring }
{
    ((place as u64 + len as u64) % ring as u64) as u32
}

impl UserBooks {
    /// An entry of this kind and length is passed.
    pub(crate) fn pass(&mut self, kind: ItemKind, len: u32) -> Result<(), NoMemory>
        requires words { len % 8 ≡ 0 }
        ensures ok { OnOk result (self.new ≡ with_passed self.old kind len) }
        ensures err { OnErr result (self.new ≡ self.old) }
    {
        self.items.reserve(1)?;
        self.items.push_back_reserved(PassedItem { kind, len });
        self.place = place_behind(self.place, len, self.ring);
        Ok(())
    }

    /// The user side is at an earlier place again, with the items that were passed there.
    pub(crate) fn go_back(&mut self, place: u32, count: usize)
        requires { IsPlace self.old.ring place }
        ensures { self.new ≡ record self.old { place = place; items = take count self.old.items } }
    {
        self.place = place;
        self.items.truncate(count);
    }
}
