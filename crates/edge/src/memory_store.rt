//! A store in memory, of which the listed calls fail.
ghost use Rattle.std.specs.Prelude.{◌≡◌, ◌+◌, ◌≤◌, Some, length, is_err, OnOk, OnErr};
ghost use Rattle.tcmu_types.specs.Numbered.{HasCause, is_listed, next_call};
ghost use Rattle.edge.specs.Outside.{CountsFailed};
ghost use Rattle.edge.specs.Stores.{Shows, Puts, Spoils};

use crate::{Failed, ListedCalls, Store};
use std::marker::Model;
use tcmu_types::{Bytes, Serials, copy_out, overwrite};

/// Bytes in memory as a store.
#[derive(Debug, Drop)]
pub struct MemStore {
    bytes: Vec<u8>,
    calls: ListedCalls,
    syncs: u64,
}

impl Model for MemStore {
    ghost use Rattle.edge.specs.Memory.{StoreInMemory};

    ghost Value = { StoreInMemory };

    ghost view = { λ s. record { bytes = s.bytes.items; fails = s.calls.fails; calls = s.calls.calls; syncs = s.syncs; faults = s.calls.faults } };
}

impl MemStore {
    /// A store of these bytes; its calls are numbered from 1, and those that are listed fail.
    pub fn new(bytes: Bytes, fails: Serials) -> MemStore
        ensures { result ≡ record { bytes = bytes.items; fails = fails.items; calls = 0; syncs = 0; faults = 0 } }
    {
        MemStore {
            bytes: bytes.into_vec(),
            calls: ListedCalls::new(fails),
            syncs: 0,
        }
    }

    /// What it holds.
    pub fn bytes(&self) -> &[u8]
        ensures { result.now ≡ self.now.bytes }
    {
        &self.bytes
    }
}

impl Store for MemStore {
    ghost use Rattle.std.specs.Prelude.{refl};
    ghost use Rattle.edge.specs.Stores.{store_of};
    ghost use Rattle.edge.specs.Memory.{content_of};

    ghost state = { λ s. store_of (content_of s) };

    ghost faults = { λ s. s.faults };

    ghost sized = { λ s. refl };

    fn length(&self) -> u64
        ensures { result ≡ length self.now.bytes }
    {
        self.bytes.len() as u64
    }

    // The listed calls fail, and no other. A failed call changes no byte.
    fn read_at(&mut self, at: u64, into: &mut [u8]) -> Result<(), Failed>
        requires { at + length into.old ≤ length self.old.bytes }
        ensures shown { OnOk result (Shows (Some self.old.bytes) at into.new) }
        ensures exact { is_err result ≡ is_listed self.old.fails self.old.calls }
        ensures kept { self.new ≡ record self.old { calls = next_call self.old.calls; faults = self.new.faults } }
        ensures cause { HasCause self.old.faults self.new.faults result }
        ensures count { CountsFailed self.old.faults (is_err result) self.new.faults }
    {
        self.calls.begin()?;
        copy_out(&self.bytes, at as usize, into);
        Ok(())
    }

    fn write_at(&mut self, at: u64, piece: &[u8]) -> Result<(), Failed>
        requires { at + length piece.now ≤ length self.old.bytes }
        ensures put { OnOk result (Puts at piece.now (Some self.old.bytes) (Some self.new.bytes)) }
        ensures failed { OnErr result (Spoils at (length piece.now) (Some self.old.bytes) (Some self.new.bytes)) }
        ensures size { length self.new.bytes ≡ length self.old.bytes }
        ensures nothing { OnErr result (self.new.bytes ≡ self.old.bytes) }
        ensures exact { is_err result ≡ is_listed self.old.fails self.old.calls }
        ensures kept { self.new ≡ record self.old { bytes = self.new.bytes; calls = next_call self.old.calls; faults = self.new.faults } }
        ensures cause { HasCause self.old.faults self.new.faults result }
        ensures count { CountsFailed self.old.faults (is_err result) self.new.faults }
    {
        self.calls.begin()?;
        overwrite(&mut self.bytes, at as usize, piece);
        Ok(())
    }

    fn sync(&mut self) -> Result<(), Failed>
        ensures exact { is_err result ≡ is_listed self.old.fails self.old.calls }
        ensures kept { self.new ≡ record self.old { calls = next_call self.old.calls; syncs = next_call self.old.syncs; faults = self.new.faults } }
        ensures cause { HasCause self.old.faults self.new.faults result }
        ensures count { CountsFailed self.old.faults (is_err result) self.new.faults }
    {
        self.syncs = self.syncs.saturating_add(1);
        self.calls.begin()
    }
}
