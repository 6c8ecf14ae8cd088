//! A write of a store below a medium.
ghost use Rattle.std.specs.Prelude.{◌≡◌, ◌+◌, ◌/◌, ◌%◌, ◌≤◌, length, is_err, OnOk, OnErr};
ghost use Rattle.tcmu_types.specs.Numbered.{HasCause};
ghost use Rattle.scsi_model.specs.Base.{without_blocks, with_blocks, WritesStore};
ghost use Rattle.edge.specs.Outside.{CountsFailed};
ghost use Rattle.edge.specs.Stores.{Puts, Spoils};
ghost use Rattle.handler_trait.specs.OverStore.{base_of};

use crate::FreeBlocks;
use edge::{Failed, Store};

/// Notes how a write of `count` blocks from one on came out.
fn note(free: &mut FreeBlocks, outcome: Result<(), Failed>, first: u64, count: u64)
    ensures wrote { OnOk outcome (free.new ≡ without_blocks first count free.old) }
    ensures failed { OnErr outcome (free.new ≡ with_blocks first count free.old) }
{
    match outcome {
        Ok(()) => free.wrote(first, count),
        Err(Failed) => free.failed(first, count),
    }
}

/// Writes whole logical blocks by one call of the store, and notes that they are free where it failed, and where not that they are not.
pub fn write_blocks<S: Store>(
    store: &mut S,
    free: &mut FreeBlocks,
    at: u64,
    bytes: &[u8],
) -> Result<(), Failed>
    requires inside { at + length bytes.now ≤ (S.state store.old).size }
    requires start { at % 512 ≡ 0 }
    requires whole { length bytes.now % 512 ≡ 0 }
    ensures base { WritesStore at bytes.now (base_of (S.state store.old) free.old) (is_err result) (base_of (S.state store.new) free.new) }
    ensures put { OnOk result (Puts at bytes.now (S.state store.old).bytes (S.state store.new).bytes) }
    ensures spoiled { OnErr result (Spoils at (length bytes.now) (S.state store.old).bytes (S.state store.new).bytes) }
    ensures size { (S.state store.new).size ≡ (S.state store.old).size }
    ensures cause { HasCause (S.faults store.old) (S.faults store.new) result }
    ensures count { CountsFailed (S.faults store.old) (is_err result) (S.faults store.new) }
{
    let outcome = store.write_at(at, bytes);
    note(free, outcome, at / 512, bytes.len() as u64 / 512);
    outcome
}
