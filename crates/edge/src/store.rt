//! A store of bytes of a fixed length, which is read, written and synced by numbered calls.
ghost use Rattle.std.specs.Prelude.{◌≡◌, ◌≤◌, ◌<◌, ◌+◌, ℕ, List, Option, Some, length, is_err, IfOk, IfSome, OnOk, OnErr};
ghost use Rattle.tcmu_types.specs.Numbered.{ComesOut, one_more, next_call, HasCause};
ghost use Rattle.edge.specs.Outside.{CountsFailed};
ghost use Rattle.edge.specs.Stores.{StoreState, Puts, Spoils, Shows};

use crate::Failed;

/// A store of bytes, of a fixed number. Places are offsets in bytes. `read_at`, `write_at` and `sync` are numbered from 1, a call
/// that failed too.
pub trait Store {
    /// How many bytes it holds, the bytes where they are told, its numbered calls, and how many of them were syncs, failed ones too.
    ghost state: { Self → StoreState };

    /// How many calls have failed; the count stops at 2^64 - 1.
    ghost faults: { Self → ℕ };

    /// A store that tells its bytes tells as many as it holds.
    ghost sized: { (s : Self) → IfSome ((state s).bytes) (λ bytes. length bytes ≡ (state s).size) };

    /// How many bytes it holds. No call changes that.
    fn length(&self) -> u64
        ensures { result ≡ (state self.now).size };

    /// Fills `into` with the bytes from `at` on, which lie in the store; what a failed call leaves in `into` is not said.
    fn read_at(&mut self, at: u64, into: &mut [u8]) -> Result<(), Failed>
        requires { at + length into.old ≤ (state self.old).size }
        ensures shown { OnOk result (Shows (state self.old).bytes at into.new) }
        ensures bytes { (state self.new).bytes ≡ (state self.old).bytes }
        ensures size { (state self.new).size ≡ (state self.old).size }
        ensures calls { (state self.new).calls ≡ one_more (state self.old).calls }
        ensures exact { ComesOut (state self.old).calls (is_err result) }
        ensures cause { HasCause (faults self.old) (faults self.new) result }
        ensures count { CountsFailed (faults self.old) (is_err result) (faults self.new) }
        ensures syncs { (state self.new).syncs ≡ (state self.old).syncs };

    /// Puts the piece from `at` on, within the store. After a failed call only bytes of this range may differ.
    fn write_at(&mut self, at: u64, piece: &[u8]) -> Result<(), Failed>
        requires { at + length piece.now ≤ (state self.old).size }
        ensures put { OnOk result (Puts at piece.now (state self.old).bytes (state self.new).bytes) }
        ensures failed { OnErr result (Spoils at (length piece.now) (state self.old).bytes (state self.new).bytes) }
        ensures size { (state self.new).size ≡ (state self.old).size }
        ensures calls { (state self.new).calls ≡ one_more (state self.old).calls }
        ensures exact { ComesOut (state self.old).calls (is_err result) }
        ensures cause { HasCause (faults self.old) (faults self.new) result }
        ensures count { CountsFailed (faults self.old) (is_err result) (faults self.new) }
        ensures syncs { (state self.new).syncs ≡ (state self.old).syncs };

    /// Brings all that was written before to the device below (fsync of POSIX). What the store tells stays as it is.
    fn sync(&mut self) -> Result<(), Failed>
        ensures bytes { (state self.new).bytes ≡ (state self.old).bytes }
        ensures size { (state self.new).size ≡ (state self.old).size }
        ensures calls { (state self.new).calls ≡ one_more (state self.old).calls }
        ensures exact { ComesOut (state self.old).calls (is_err result) }
        ensures cause { HasCause (faults self.old) (faults self.new) result }
        ensures count { CountsFailed (faults self.old) (is_err result) (faults self.new) }
        ensures syncs { (state self.new).syncs ≡ next_call (state self.old).syncs };
}
