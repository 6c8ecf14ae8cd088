//! What a handler serves its device's bytes from.
ghost use Rattle.std.specs.Prelude.{◌≡◌, ℕ, ◌+◌, ◌*◌, ◌%◌, ◌^◌, ◌<◌, ◌≤◌, length, is_err};
ghost use Rattle.tcmu_types.specs.Numbered.{HasCause};
ghost use Rattle.edge.specs.Outside.{CountsFailed};
ghost use Rattle.tcmu_model.specs.MediumState.{MediumState};
ghost use Rattle.scsi_model.specs.Medium.{Reads, Writes, Fills, Syncs};

use edge::Failed;

/// Logical blocks of 512 bytes (SBC-3). Places are offsets in bytes. No call changes the number of blocks or the protected bit.
pub trait Medium {
    /// The number of blocks, the protected bit, the bytes where they are told, and the calls made.
    ghost state: { Self → MediumState };

    /// How many calls have failed; the count stops at 2^64 - 1.
    ghost faults: { Self → ℕ };

    /// How many logical blocks there are.
    fn blocks(&self) -> u64
        ensures value { result ≡ (state self.now).blocks }
        ensures some { 1 ≤ result }
        ensures most { result ≤ 2 ^ 35 };

    /// Whether commands that write are refused.
    fn protected(&self) -> bool
        ensures { result ≡ (state self.now).protected };

    /// Fills `into` with the bytes from `at` on, which lie in the medium; what a failed call leaves in `into` is not said.
    fn read(&mut self, at: u64, into: &mut [u8]) -> Result<(), Failed>
        requires { at + length into.old ≤ 512 * (state self.old).blocks }
        ensures reads { Reads at into.new (state self.old) (is_err result) (state self.new) }
        ensures blocks { (state self.new).blocks ≡ (state self.old).blocks }
        ensures protected { (state self.new).protected ≡ (state self.old).protected }
        ensures cause { HasCause (faults self.old) (faults self.new) result }
        ensures count { CountsFailed (faults self.old) (is_err result) (faults self.new) };

    /// Writes whole blocks, at least one, from a block's start on. After a failed call only bytes of this range may differ.
    fn write(&mut self, at: u64, bytes: &[u8]) -> Result<(), Failed>
        requires inside { at + length bytes.now ≤ 512 * (state self.old).blocks }
        requires start { at % 512 ≡ 0 }
        requires some { 0 < length bytes.now }
        requires whole { length bytes.now % 512 ≡ 0 }
        ensures writes { Writes at bytes.now (state self.old) (is_err result) (state self.new) }
        ensures blocks { (state self.new).blocks ≡ (state self.old).blocks }
        ensures protected { (state self.new).protected ≡ (state self.old).protected }
        ensures cause { HasCause (faults self.old) (faults self.new) result }
        ensures count { CountsFailed (faults self.old) (is_err result) (faults self.new) };

    /// Writes `count` copies of a block, at least one, from a block's start on. After a failed call only bytes of this range may differ.
    fn fill(&mut self, at: u64, block: &[u8; 512], count: u64) -> Result<(), Failed>
        requires inside { at + 512 * count ≤ 512 * (state self.old).blocks }
        requires start { at % 512 ≡ 0 }
        requires some { 0 < count }
        ensures fills { Fills at block.now count (state self.old) (is_err result) (state self.new) }
        ensures blocks { (state self.new).blocks ≡ (state self.old).blocks }
        ensures protected { (state self.new).protected ≡ (state self.old).protected }
        ensures cause { HasCause (faults self.old) (faults self.new) result }
        ensures count { CountsFailed (faults self.old) (is_err result) (faults self.new) };

    /// Brings all that was written before to what is below (SYNCHRONIZE CACHE). The bytes of the medium stay as they are.
    fn sync(&mut self) -> Result<(), Failed>
        ensures syncs { Syncs (state self.old) (is_err result) (state self.new) }
        ensures blocks { (state self.new).blocks ≡ (state self.old).blocks }
        ensures protected { (state self.new).protected ≡ (state self.old).protected }
        ensures cause { HasCause (faults self.old) (faults self.new) result }
        ensures count { CountsFailed (faults self.old) (is_err result) (faults self.new) };
}
