//! A medium over a store, with the range of the bytes that failed calls may have spoiled.
ghost use Rattle.std.specs.Prelude.{◌≡◌, [], ◌+◌, ◌*◌, ◌/◌, ◌%◌, ◌^◌, ◌<◌, ◌≤◌, length, is_err, OnOk, OnErr};
ghost use Rattle.std.specs.Option.{option_map};
ghost use Rattle.tcmu_types.specs.Numbered.{HasCause};
ghost use Rattle.tcmu_model.specs.MediumState.{file};
ghost use Rattle.scsi_model.specs.Medium.{Reads, Writes, Fills, repeated, narrowed, widened, span_of, empty_span, blanked};
ghost use Rattle.edge.specs.Outside.{CountsFailed};
ghost use Rattle.edge.specs.Stores.{Shows, Puts, Spoils};
ghost use Rattle.handler_trait.specs.OverStore.{base_of};
ghost use Rattle.medium_file.specs.FileState.{file_state, lost_span, PutsInPart};

use crate::filling::fill_store;
use edge::{Failed, Store};
use handler_trait::{FreeBlocks, Medium, write_blocks};
use std::marker::Model;

/// The places from `start` up to `end`, in bytes.
#[derive(Clone, Copy, Debug)]
struct Lost {
    start: u64,
    end: u64,
}

/// What stays lost after a success over `n` bytes from `at` on.
fn narrowed(lost: Lost, at: u64, n: u64) -> Lost
    requires { at + n < 2 ^ 64 }
    ensures { lost_span result ≡ narrowed (lost_span lost) (span_of at n) }
{
    if at <= lost.start && lost.end <= at + n {
        Lost { start: 0, end: 0 }
    } else {
        lost
    }
}

/// What is lost after a failure over `n` bytes from `at` on.
fn widened(lost: Lost, at: u64, n: u64) -> Lost
    requires { at + n < 2 ^ 64 }
    ensures { lost_span result ≡ widened (lost_span lost) (span_of at n) }
{
    if lost.start < lost.end {
        Lost {
            start: lost.start.min(at),
            end: lost.end.max(at + n),
        }
    } else {
        Lost {
            start: at,
            end: at + n,
        }
    }
}

/// What is lost after a call over `n` bytes from `at` on, by how that came out.
fn lost_after(lost: Lost, outcome: Result<(), Failed>, at: u64, n: u64) -> Lost
    requires { at + n < 2 ^ 64 }
    ensures narrowed { OnOk outcome (lost_span result ≡ narrowed (lost_span lost) (span_of at n)) }
    ensures widened { OnErr outcome (lost_span result ≡ widened (lost_span lost) (span_of at n)) }
{
    match outcome {
        Ok(()) => narrowed(lost, at, n),
        Err(Failed) => widened(lost, at, n),
    }
}

/// A medium over a store. A read, a write and a sync make one call of it, a fill one for each block, up to the first that fails.
/// After a write or fill that fails one range is lost, the smallest with its bytes and those that were lost before: they are not told
/// until one write or fill that succeeds covers them all. Of the store, contracts know more: there only the blocks of the calls that failed
/// are free, each until it is written again. They see what it shows as a medium, and its store.
#[derive(Drop)]
pub struct FileMedium<S: Store + Drop> {
    store: S,
    free: FreeBlocks,
    blocks: u64,
    lost: Lost,
    calls: u64,
}

impl<S: Store + Drop> Model for FileMedium<S> {
    ghost use Rattle.medium_file.specs.FileState.{FileData, file_state, lost_span, IsFile};

    ghost Value = { FileData S };

    ghost view = { λ f. record { medium = file_state f.blocks (S.state f.store) (lost_span f.lost) f.free f.calls; store = f.store } };

    ghost invariant = { λ f. IsFile f.blocks (S.state f.store) (lost_span f.lost) };
}

impl<S: Store + Drop> FileMedium<S> {
    /// A medium over a store, of which nothing is lost. The store holds whole logical blocks of 512 bytes, from one to 2^35 of them.
    pub fn new(store: S) -> FileMedium<S>
        requires whole { (S.state store).size % 512 ≡ 0 }
        requires some { 512 ≤ (S.state store).size }
        requires most { (S.state store).size ≤ 2 ^ 44 }
        ensures medium { result.medium ≡ file_state ((S.state store).size / 512) (S.state store) empty_span [] 0 }
        ensures store { result.store ≡ store }
    {
        let blocks = store.length() / 512;
        FileMedium {
            store,
            free: FreeBlocks::new(),
            blocks,
            lost: Lost { start: 0, end: 0 },
            calls: 0,
        }
    }

    /// The store, as the calls left it. Where it tells its bytes, they are those of the state's store outside of the free blocks, and those
    /// of the medium outside of the lost range.
    pub fn into_store(self) -> S
        ensures store { result ≡ self.store }
        ensures layer { self.medium.below.layer ≡ file }
        ensures base { self.medium.below.store ≡ base_of (S.state result) self.medium.below.store.free }
        ensures size { (S.state result).size ≡ 512 * self.medium.blocks }
        ensures bytes { self.medium.below.bytes ≡ option_map (blanked self.medium.below.lost) (S.state result).bytes }
    {
        let FileMedium {
            store,
            free: _,
            blocks: _,
            lost: _,
            calls: _,
        } = self;
        store
    }
}

impl<S: Store + Drop> Medium for FileMedium<S> {
    ghost state = { λ f. f.medium };

    ghost faults = { λ f. S.faults f.store };

    fn blocks(&self) -> u64 {
        self.blocks
    }

    fn protected(&self) -> bool {
        // What is read of it shows that no medium over a store is protected.
        let _calls = self.calls;
        false
    }

    fn read(&mut self, at: u64, into: &mut [u8]) -> Result<(), Failed>
        requires { at + length into.old ≤ 512 * self.old.medium.blocks }
        ensures reads { Reads at into.new self.old.medium (is_err result) self.new.medium }
        ensures blocks { self.new.medium.blocks ≡ self.old.medium.blocks }
        ensures protected { self.new.medium.protected ≡ self.old.medium.protected }
        ensures cause { HasCause (S.faults self.old.store) (S.faults self.new.store) result }
        ensures count { CountsFailed (S.faults self.old.store) (is_err result) (S.faults self.new.store) }
        // It gives what the store tells, in the lost range too, and no byte changes.
        ensures exact { OnOk result (Shows (S.state self.old.store).bytes at into.new) }
        ensures kept { (S.state self.new.store).bytes ≡ (S.state self.old.store).bytes }
    {
        self.calls = self.calls.saturating_add(1);
        self.store.read_at(at, into)
    }

    fn write(&mut self, at: u64, bytes: &[u8]) -> Result<(), Failed>
        requires inside { at + length bytes.now ≤ 512 * self.old.medium.blocks }
        requires start { at % 512 ≡ 0 }
        requires some { 0 < length bytes.now }
        requires whole { length bytes.now % 512 ≡ 0 }
        ensures writes { Writes at bytes.now self.old.medium (is_err result) self.new.medium }
        ensures blocks { self.new.medium.blocks ≡ self.old.medium.blocks }
        ensures protected { self.new.medium.protected ≡ self.old.medium.protected }
        ensures cause { HasCause (S.faults self.old.store) (S.faults self.new.store) result }
        ensures count { CountsFailed (S.faults self.old.store) (is_err result) (S.faults self.new.store) }
        // Of the store's own bytes, in the lost range too, only those of this range change.
        ensures put { OnOk result (Puts at bytes.now (S.state self.old.store).bytes (S.state self.new.store).bytes) }
        ensures spoiled { OnErr result (Spoils at (length bytes.now) (S.state self.old.store).bytes (S.state self.new.store).bytes) }
    {
        self.calls = self.calls.saturating_add(1);
        let outcome = write_blocks(&mut self.store, &mut self.free, at, bytes);
        self.lost = lost_after(self.lost, outcome, at, bytes.len() as u64);
        outcome
    }

    fn fill(&mut self, at: u64, block: &[u8; 512], count: u64) -> Result<(), Failed>
        requires inside { at + 512 * count ≤ 512 * self.old.medium.blocks }
        requires start { at % 512 ≡ 0 }
        requires some { 0 < count }
        ensures fills { Fills at block.now count self.old.medium (is_err result) self.new.medium }
        ensures blocks { self.new.medium.blocks ≡ self.old.medium.blocks }
        ensures protected { self.new.medium.protected ≡ self.old.medium.protected }
        ensures cause { HasCause (S.faults self.old.store) (S.faults self.new.store) result }
        ensures count { CountsFailed (S.faults self.old.store) (is_err result) (S.faults self.new.store) }
        // Of the store's own bytes only those of this range change: the copies are written in order, up to the one whose call failed.
        ensures put { OnOk result (Puts at (repeated count block.now) (S.state self.old.store).bytes (S.state self.new.store).bytes) }
        ensures spoiled { OnErr result (PutsInPart at block.now count (S.state self.old.store).bytes (S.state self.new.store).bytes) }
    {
        self.calls = self.calls.saturating_add(1);
        let outcome = fill_store(&mut self.store, &mut self.free, at, block, count);
        self.lost = lost_after(self.lost, outcome, at, 512 * count);
        outcome
    }

    fn sync(&mut self) -> Result<(), Failed> {
        self.calls = self.calls.saturating_add(1);
        self.store.sync()
    }
}
