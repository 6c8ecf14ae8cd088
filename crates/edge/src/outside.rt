//! A source and a sink of bytes, each with a count of faults.
ghost use Rattle.std.specs.Prelude.{◌≡◌, ◌≤◌, ◌<◌, ℕ, List, [], Option, length, take, is_err, IfOk, OnOk, OnErr};
ghost use Rattle.tcmu_types.specs.Numbered.{HasCause, next_call};
ghost use Rattle.edge.specs.Outside.{Tells, Gave, Gained, GainedFront, CountsFailed};

use thiserror::Error;

/// A call of the outside failed. The count of faults of what was called rose in that call.
#[derive(Clone, Copy, Debug, PartialEq, Eq, Error)]
#[error("a call of the outside failed")]
pub struct Failed;

/// Where bytes come from.
pub trait Source {
    /// The bytes that are left, where they are told.
    ghost left: { Self → Option (List ℕ) };

    /// How many calls of `read` were made, failed ones too; the count stops at 2^64 - 1.
    ghost reads: { Self → ℕ };

    /// How many calls have failed; the count stops at 2^64 - 1.
    ghost faults: { Self → ℕ };

    /// Takes bytes from the front of those that are left, puts them at the front of `into`, and answers how many. `Ok(0)` for an
    /// `into` that is not empty means the end of the source. A failed call takes no byte.
    fn read(&mut self, into: &mut [u8]) -> Result<usize, Failed>
        ensures within { IfOk result (λ n. n ≤ length into.new) }
        ensures takes { IfOk result (λ n. Gave (left self.old) (take n into.new) (left self.new)) }
        ensures end { IfOk result (λ n. n ≡ 0 → 0 < length into.new → Tells (left self.old) []) }
        ensures failed { OnErr result (left self.new ≡ left self.old) }
        ensures reads { reads self.new ≡ next_call (reads self.old) }
        ensures cause { HasCause (faults self.old) (faults self.new) result }
        ensures count { CountsFailed (faults self.old) (is_err result) (faults self.new) };
}

/// Where bytes go.
pub trait Sink {
    /// The bytes that are written, where they are told.
    ghost written: { Self → Option (List ℕ) };

    /// How many calls have failed; the count stops at 2^64 - 1.
    ghost faults: { Self → ℕ };

    /// Appends the piece to what is written; a failed call appends a front of it.
    fn write(&mut self, piece: &[u8]) -> Result<(), Failed>
        ensures ok { OnOk result (Gained (written self.old) piece.now (written self.new)) }
        ensures err { OnErr result (GainedFront (written self.old) piece.now (written self.new)) }
        ensures cause { HasCause (faults self.old) (faults self.new) result }
        ensures count { CountsFailed (faults self.old) (is_err result) (faults self.new) };
}
