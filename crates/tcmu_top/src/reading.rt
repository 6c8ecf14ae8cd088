//! Reading a source to its end.
ghost use Rattle.std.specs.Prelude.{◌≡◌, ◌≤◌, ◌<◌, [], length, IfOk, OnOk, IsErrOf, IfSome};
ghost use Rattle.tcmu_types.specs.Numbered.{Rose};
ghost use Rattle.edge.specs.Outside.{Tells};
ghost use Rattle.tcmu_top.specs.Calls.{TookFront};
ghost use Rattle.tcmu_top.specs.declared.reading.Unread.TheVariants.{NoMemory as Wanting};

use edge::Source;
use scenario_text::MOST_TEXT;
use std::alloc::{AllocError, Global};

/// Why a source was not read to its end.
#[derive(Clone, Copy, Debug, PartialEq, Eq)]
pub enum Unread {
    /// A read of the source failed.
    Failed,
    /// The source has more bytes than a scenario.
    TooLong,
    NoMemory,
}

impl From<AllocError> for Unread {
    ghost from_gives = { λ _ e. e ≡ Wanting };

    fn from(_: AllocError) -> Unread {
        Unread::NoMemory
    }
}

/// All the bytes that the source has left: at most 4,194,304, else `TooLong`. Each turn of the loop takes at least one byte.
pub fn read_all<S: Source>(alloc: Global, src: &mut S) -> Result<Vec<u8>, Unread>
    ensures all { IfOk result (λ bytes. Tells (S.left src.old) bytes.items) }
    ensures end { OnOk result (Tells (S.left src.new) []) }
    ensures size { IfOk result (λ bytes. length bytes.items ≤ 4194304) }
    ensures too_long { IsErrOf result Unread.TooLong → IfSome (S.left src.old) (λ bytes. 4194304 < length bytes) }
    ensures failed { IsErrOf result Unread.Failed → Rose (S.faults src.old) (S.faults src.new) }
    ensures later { S.faults src.old ≤ S.faults src.new }
    ensures calm { OnOk result (S.faults src.new ≡ S.faults src.old) }
    ensures calm_long { IsErrOf result Unread.TooLong → S.faults src.new ≡ S.faults src.old }
    ensures wanting { IsErrOf result Unread.NoMemory → S.faults src.new ≡ S.faults src.old }
    ensures taken { TookFront (S.left src.old) (S.left src.new) (S.reads src.old) (S.reads src.new) }
{
    let mut bytes = Vec::new(alloc);
    let mut piece = [0u8; 4096];
    while bytes.len() <= MOST_TEXT {
        let Ok(n) = src.read(&mut piece) else {
            return Err(Unread::Failed);
        };
        if n == 0 {
            return Ok(bytes);
        }
        bytes.extend_from_slice(&piece[..n])?;
    }
    Err(Unread::TooLong)
}
