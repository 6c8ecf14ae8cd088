//! A source and a sink in memory, of which the listed calls fail.
ghost use Rattle.std.specs.Prelude.{◌≡◌, ℕ, List, [], Option, Some, ◌+◌, ◌-◌, ◌≤◌, ◌<◌, ◌||◌, length, take, drop, min, nat_lt, is_err, IfOk, OnOk, OnErr};
ghost use Rattle.tcmu_types.specs.Numbered.{HasCause, is_listed, next_call};
ghost use Rattle.edge.specs.Outside.{Tells, Gave, Gained, GainedFront, CountsFailed};

use crate::{Failed, ListedCalls, Sink, Source};
use std::alloc::Global;
use std::marker::Model;
use tcmu_types::{Bytes, NoMemory, Serials};

/// Bytes in memory as a source.
#[derive(Debug, Drop)]
pub struct MemSource {
    bytes: Bytes,
    at: usize,
    calls: ListedCalls,
}

impl Model for MemSource {
    ghost use Rattle.std.specs.Prelude.{◌≤◌, length, drop};
    ghost use Rattle.edge.specs.Memory.{FromMemory};

    ghost Value = { FromMemory };

    ghost view = { λ s. record { left = drop s.at s.bytes.items; fails = s.calls.fails; calls = s.calls.calls; faults = s.calls.faults } };

    ghost invariant = { λ s. s.at ≤ length s.bytes.items };
}

impl MemSource {
    /// A source of these bytes; its calls are numbered from 1, and those that are listed fail.
    pub fn new(bytes: Bytes, fails: Serials) -> MemSource
        ensures { result ≡ record { left = bytes.items; fails = fails.items; calls = 0; faults = 0 } }
    {
        MemSource {
            bytes,
            at: 0,
            calls: ListedCalls::new(fails),
        }
    }
}

/// Copies as much as fits to the front, and answers how many bytes.
fn copy_front(from: &[u8], into: &mut [u8]) -> usize
    ensures count { result ≡ min (length from.now) (length into.old) }
    ensures copied { take result into.new ≡ take result from.now }
    ensures rest { drop result into.new ≡ drop result into.old }
{
    let count = from.len().min(into.len());
    into[..count].copy_from_slice(&from[..count]);
    count
}

impl Source for MemSource {
    ghost left = { λ s. Some s.left };

    ghost reads = { λ s. s.calls };

    ghost faults = { λ s. s.faults };

    fn read(&mut self, into: &mut [u8]) -> Result<usize, Failed>
        ensures within { IfOk result (λ n. n ≤ length into.new) }
        ensures takes { IfOk result (λ n. Gave (Some self.old.left) (take n into.new) (Some self.new.left)) }
        ensures end { IfOk result (λ n. n ≡ 0 → 0 < length into.new → Tells (Some self.old.left) []) }
        ensures failed { OnErr result (Some self.new.left ≡ Some self.old.left) }
        ensures reads { self.new.calls ≡ next_call self.old.calls }
        ensures cause { HasCause self.old.faults self.new.faults result }
        ensures count { CountsFailed self.old.faults (is_err result) self.new.faults }
        // As much as fits comes, and the rest of `into` stays. The listed calls fail, and no other.
        ensures most { IfOk result (λ n. n ≡ min (length self.old.left) (length into.old)) }
        ensures rest { IfOk result (λ n. drop n into.new ≡ drop n into.old) }
        ensures exact { is_err result ≡ is_listed self.old.fails self.old.calls }
        ensures fails { self.new.fails ≡ self.old.fails }
    {
        self.calls.begin()?;
        let count = copy_front(&self.bytes.as_slice()[self.at..], into);
        self.at += count;
        Ok(count)
    }
}

/// Bytes in memory as a sink, with room for so many.
#[derive(Debug, Drop)]
pub struct MemSink {
    bytes: Bytes,
    room: u64,
    calls: ListedCalls,
}

impl Model for MemSink {
    ghost use Rattle.std.specs.Prelude.{◌≤◌};
    ghost use Rattle.edge.specs.Memory.{ToMemory};

    ghost Value = { ToMemory };

    ghost view = { λ s. record { written = s.bytes.items; room = s.room; fails = s.calls.fails; calls = s.calls.calls; faults = s.calls.faults } };

    ghost invariant = { λ s. s.room ≤ s.bytes.spare };
}

impl MemSink {
    /// An empty sink with room for `room` bytes, which it takes here; its calls are numbered from 1, and those that are listed
    /// fail.
    pub fn new(alloc: Global, room: u64, fails: Serials) -> Result<MemSink, NoMemory>
        ensures { IfOk result (λ s. s ≡ record { written = []; room = room; fails = fails.items; calls = 0; faults = 0 }) }
    {
        let mut bytes = Bytes::new(alloc);
        bytes.reserve(room)?;
        Ok(MemSink {
            bytes,
            room,
            calls: ListedCalls::new(fails),
        })
    }

    /// What was written.
    pub fn written(&self) -> &[u8]
        ensures { result.now ≡ self.now.written }
    {
        self.bytes.as_slice()
    }

    /// How many calls of `write` were made, failed ones too.
    pub fn calls(&self) -> u64
        ensures { result ≡ self.now.calls }
    {
        self.calls.calls()
    }
}

impl Sink for MemSink {
    ghost written = { λ s. Some s.written };

    ghost faults = { λ s. s.faults };

    fn write(&mut self, piece: &[u8]) -> Result<(), Failed>
        ensures ok { OnOk result (Gained (Some self.old.written) piece.now (Some self.new.written)) }
        ensures err { OnErr result (GainedFront (Some self.old.written) piece.now (Some self.new.written)) }
        ensures cause { HasCause self.old.faults self.new.faults result }
        ensures count { CountsFailed self.old.faults (is_err result) self.new.faults }
        // The listed calls fail, and those that are longer than the room left. Such a call appends nothing.
        ensures exact { is_err result ≡ (is_listed self.old.fails self.old.calls || nat_lt self.old.room (length piece.now)) }
        ensures nothing { OnErr result (self.new.written ≡ self.old.written) }
        ensures calls { self.new.calls ≡ next_call self.old.calls }
        ensures fails { self.new.fails ≡ self.old.fails }
        ensures room { OnOk result (self.new.room + length piece.now ≡ self.old.room) }
        ensures room_kept { OnErr result (self.new.room ≡ self.old.room) }
    {
        self.calls.begin()?;
        if self.room < piece.len() as u64 {
            return Err(self.calls.fault());
        }
        self.bytes.extend(piece);
        self.room -= piece.len() as u64;
        Ok(())
    }
}
