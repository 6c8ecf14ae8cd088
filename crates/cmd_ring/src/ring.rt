//! The ring's places.
ghost use Rattle.std.specs.Prelude.{◌≡◌, ◌+◌, ◌%◌, ◌≤◌, IsTrue, IfSome};
ghost use Rattle.cmd_ring.specs.Places.{IsRing, IsItemLength, free, pad, fits, room_of, opened, place_of, placed, advanced};
ghost use Rattle.tcmu_types.specs.Rules.{IsRingSize};

use std::marker::Model;

/// Whether an item has room. Lengths are in bytes.
#[derive(Clone, Copy, Debug, PartialEq, Eq)]
pub enum Room {
    /// At the head.
    Fits,
    /// At the ring's start, behind so many bytes of padding.
    FitsAfterPad(u32),
    /// Nowhere: it needs more than is free, its padding included.
    Lacks { need: u32, free: u32 },
}

/// Where an item comes to lie, as offsets in the ring, in bytes.
#[derive(Clone, Copy, Debug, PartialEq, Eq)]
pub struct Place {
    /// The padding that goes before the item, up to the ring's end.
    pub pad: Option<u32>,
    /// Where padding would begin: the head before the item was laid, also where there is no padding.
    pub pad_at: u32,
    /// Where the item begins.
    pub at: u32,
}

/// The places of a command ring (the kernel's tcmu-design, "The Command Ring"): an item lies in one piece, behind padding where it
/// would pass the ring's end, and one byte is never used. Each number is in bytes.
#[derive(Debug, Drop)]
pub struct Ring {
    size: u32,
    cleaned: u32,
    used: u32,
}

impl Model for Ring {
    ghost use Rattle.std.specs.Prelude.{◌+◌, ◌%◌};
    ghost use Rattle.cmd_ring.specs.Places.{RingPlaces, IsRing};

    ghost Value = { RingPlaces };

    ghost view = { λ a. record { size = a.size; head = (a.cleaned + a.used) % a.size; cleaned = a.cleaned; used = a.used } };

    ghost invariant = { λ a. IsRing (record { size = a.size; head = (a.cleaned + a.used) % a.size; cleaned = a.cleaned; used = a.used }) };
}

impl Ring {
    /// An empty ring of so many bytes: a multiple of 4096, at most 4 MiB.
    pub fn new(size: u32) -> Ring
        requires { IsRingSize size }
        ensures { result ≡ opened size }
    {
        Ring {
            size,
            cleaned: 0,
            used: 0,
        }
    }

    /// Whether an item of `len` bytes, a multiple of 8 above 0 and at most half the ring, has room. An empty ring has room for each.
    pub fn room(&self, len: u32) -> Room
        requires { IsItemLength self.now.size len }
        ensures value { result ≡ room_of self.now len }
        ensures empty { self.now.used ≡ 0 → IsTrue (fits self.now len) }
    {
        let pad = self.pad(len);
        let need = pad + len;
        let free = self.free();
        if need > free {
            return Room::Lacks { need, free };
        }
        if pad == 0 {
            Room::Fits
        } else {
            Room::FitsAfterPad(pad)
        }
    }

    /// Lays an item of `len` bytes that has room, and padding before it where `room` says so.
    pub fn place(&mut self, len: u32) -> Place
        requires length { IsItemLength self.old.size len }
        requires room { IsTrue (fits self.old len) }
        ensures value { result ≡ place_of self.old len }
        ensures new { self.new ≡ placed self.old len }
        ensures in_one_piece { result.at + len ≤ self.old.size }
        ensures to_the_end { IfSome result.pad (λ pad. result.pad_at + pad ≡ self.old.size) }
        ensures pad_words { IfSome result.pad (λ pad. (8 ≤ pad) × (pad % 8 ≡ 0)) }
    {
        let pad_at = self.head();
        let pad = self.pad(len);
        self.used += pad + len;
        if pad == 0 {
            Place {
                pad: None,
                pad_at,
                at: pad_at,
            }
        } else {
            Place {
                pad: Some(pad),
                pad_at,
                at: 0,
            }
        }
    }

    /// Gives the `len` oldest bytes in use back, a multiple of 8.
    pub fn advance_clean(&mut self, len: u32)
        requires most { len ≤ self.old.used }
        requires words { len % 8 ≡ 0 }
        ensures { self.new ≡ advanced self.old len }
    {
        self.cleaned = (self.cleaned + len) % self.size;
        self.used -= len;
    }

    /// Gives all back, and begins anew at the ring's start.
    pub fn reset(&mut self)
        ensures { self.new ≡ opened self.old.size }
    {
        self.cleaned = 0;
        self.used = 0;
    }

    /// How many bytes the ring has.
    pub fn size(&self) -> u32
        ensures { result ≡ self.now.size }
    {
        self.size
    }

    /// Where the next item begins, or its padding.
    pub fn head(&self) -> u32
        ensures value { result ≡ self.now.head }
        ensures sound { IsRing self.now }
    {
        (self.cleaned + self.used) % self.size
    }

    /// Where the bytes in use begin, a byte offset in the ring: what is laid longest stands there.
    pub fn cleaned(&self) -> u32
        ensures { result ≡ self.now.cleaned }
    {
        self.cleaned
    }

    /// How many bytes are in use, padding included.
    pub fn used(&self) -> u32
        ensures { result ≡ self.now.used }
    {
        self.used
    }

    /// How many more bytes can be used: the size less those in use, and less the one byte that never is.
    pub fn free(&self) -> u32
        ensures { result ≡ free self.now }
    {
        self.size - self.used - 1
    }

    /// The padding that goes before an item of `len` bytes.
    fn pad(&self, len: u32) -> u32
        ensures value { result ≡ pad self.now len }
        ensures sound { IsRing self.now }
    {
        let left = self.size - self.head();
        if left < len { left } else { 0 }
    }
}
