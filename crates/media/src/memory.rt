//! A medium in memory.
ghost use Rattle.std.specs.Prelude.{◌≡◌, ◌+◌, ◌*◌, ◌≤◌, length, replicate, IfOk};
ghost use Rattle.tcmu_types.specs.Overwriting.{overwritten};
ghost use Rattle.tcmu_model.specs.MediumState.{memory};
ghost use Rattle.scsi_model.specs.Medium.{memory_state};

use edge::Failed;
use handler_trait::Medium;
use std::alloc::Global;
use std::marker::Model;
use tcmu_types::{NoMemory, copy_out, overwrite};

/// Logical blocks in memory, not protected. Its calls are counted, none fails, and none takes memory.
#[derive(Debug, Drop)]
pub struct MemMedium {
    bytes: Vec<u8>,
    blocks: u64,
    calls: u64,
}

impl Model for MemMedium {
    ghost use Rattle.std.specs.Prelude.{◌≡◌, ◌*◌, ◌^◌, ◌≤◌, length};
    ghost use Rattle.tcmu_model.specs.MediumState.{MediumState};
    ghost use Rattle.scsi_model.specs.Medium.{memory_state};

    ghost Value = { MediumState };

    ghost view = { λ m. memory_state m.blocks m.bytes.items m.calls };

    ghost invariant = { λ m. (length m.bytes.items ≡ 512 * m.blocks) × (1 ≤ m.blocks) × (m.blocks ≤ 2 ^ 35) };
}

impl MemMedium {
    /// So many logical blocks of zeros. Their memory is taken here, and none later.
    pub fn new(alloc: Global, blocks: u32) -> Result<MemMedium, NoMemory>
        requires { 1 ≤ blocks }
        ensures { IfOk result (λ m. m ≡ memory_state blocks (replicate (512 * blocks) 0) 0) }
    {
        let mut bytes = Vec::new(alloc);
        bytes.resize(512 * blocks as usize, 0)?;
        Ok(MemMedium {
            bytes,
            blocks: u64::from(blocks),
            calls: 0,
        })
    }

    /// Gives the memory back.
    pub(crate) fn discard(self)
        ensures { self.below.layer ≡ memory }
    {
        // Its fields are named, so that its view shows that it lies in memory.
        let MemMedium {
            bytes: _,
            blocks: _,
            calls: _,
        } = self;
    }
}

/// Overwrites the bytes of a vector from `at` on with a piece.
fn overwrite_in(bytes: &mut Vec<u8>, at: usize, piece: &[u8])
    requires { at + length piece.now ≤ length bytes.old.items }
    ensures value { bytes.new.items ≡ overwritten at piece.now bytes.old.items }
    ensures long { length bytes.new.items ≡ length bytes.old.items }
{
    overwrite(bytes, at, piece);
}

impl Medium for MemMedium {
    ghost state = { λ m. m };

    ghost faults = { λ _. 0 };

    fn blocks(&self) -> u64 {
        self.blocks
    }

    fn protected(&self) -> bool {
        // What is read of it shows that no medium in memory is protected.
        let _calls = self.calls;
        false
    }

    fn read(&mut self, at: u64, into: &mut [u8]) -> Result<(), Failed> {
        self.calls = self.calls.saturating_add(1);
        copy_out(self.bytes.as_slice(), at as usize, into);
        Ok(())
    }

    fn write(&mut self, at: u64, bytes: &[u8]) -> Result<(), Failed> {
        self.calls = self.calls.saturating_add(1);
        overwrite_in(&mut self.bytes, at as usize, bytes);
        Ok(())
    }

    fn fill(&mut self, at: u64, block: &[u8; 512], count: u64) -> Result<(), Failed> {
        self.calls = self.calls.saturating_add(1);
        for k in 0..count {
            overwrite_in(&mut self.bytes, (at + 512 * k) as usize, block);
        }
        Ok(())
    }

    fn sync(&mut self) -> Result<(), Failed> {
        self.calls = self.calls.saturating_add(1);
        Ok(())
    }
}
