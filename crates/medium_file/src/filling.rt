//! Blocks that are written to a store one after the other.
ghost use Rattle.std.specs.Prelude.{◌≡◌, ◌+◌, ◌*◌, ◌%◌, ◌≤◌, is_err, OnOk, OnErr};
ghost use Rattle.tcmu_types.specs.Numbered.{HasCause};
ghost use Rattle.scsi_model.specs.Base.{FillsStore};
ghost use Rattle.scsi_model.specs.Medium.{repeated};
ghost use Rattle.edge.specs.Outside.{CountsFailed};
ghost use Rattle.edge.specs.Stores.{Puts, Spoils};
ghost use Rattle.handler_trait.specs.OverStore.{base_of};
ghost use Rattle.medium_file.specs.FileState.{PutsInPart};

use edge::{Failed, Store};
use handler_trait::{FreeBlocks, write_blocks};

/// Writes `count` copies of a block from `at` on in order, one call of the store each, up to the first that fails. After a failure the
/// copies before it stand, those behind it were not tried, and the 512 bytes of its own place may be anything.
pub fn fill_store<S: Store>(
    store: &mut S,
    free: &mut FreeBlocks,
    at: u64,
    block: &[u8; 512],
    count: u64,
) -> Result<(), Failed>
    requires inside { at + 512 * count ≤ (S.state store.old).size }
    requires start { at % 512 ≡ 0 }
    ensures base { FillsStore at block.now count (base_of (S.state store.old) free.old) (is_err result) (base_of (S.state store.new) free.new) }
    ensures put { OnOk result (Puts at (repeated count block.now) (S.state store.old).bytes (S.state store.new).bytes) }
    ensures failed { OnErr result (Spoils at (512 * count) (S.state store.old).bytes (S.state store.new).bytes) }
    ensures front { OnErr result (PutsInPart at block.now count (S.state store.old).bytes (S.state store.new).bytes) }
    ensures size { (S.state store.new).size ≡ (S.state store.old).size }
    ensures cause { HasCause (S.faults store.old) (S.faults store.new) result }
    ensures count { CountsFailed (S.faults store.old) (is_err result) (S.faults store.new) }
{
    // It shows that the places fit a u64.
    let _length = store.length();
    for k in 0..count {
        write_blocks(store, free, at + 512 * k, block)?;
    }
    Ok(())
}
