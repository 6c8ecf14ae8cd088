//! Command descriptor blocks.
ghost use Rattle.std.specs.Prelude.{◌≡◌, ◌≢◌, ◌≤◌, ◌<◌, ◌↔◌, IfOk, IfErr, IsOk, length};
ghost use Rattle.tcmu_types.specs.Rules.{IsCdb, group_length, wanted_length, takes_payload, is_data_out};

use crate::opcode;
use arrayvec::ArrayVec;
use std::marker::Model;
use thiserror::Error;

/// Why bytes are no command descriptor block: the length that the first byte's group has, and the length that there is (both in
/// bytes). `want` is 0 where there is no first byte.
#[derive(Clone, Copy, Debug, PartialEq, Eq, Error)]
#[error("a command descriptor block of {want} bytes is wanted, not of {have}")]
pub struct CdbLength {
    /// In bytes: 6, 10, 12 or 16 by the group of the first byte (SPC-4, 4.2.5.1), or 0 without one.
    pub want: u8,
    /// How many bytes there were.
    pub have: u64,
}

/// A command descriptor block of the length that the group of its operation code has (SPC-4, 4.2.5.1). Groups 3, 6 and 7 are
/// carried as 16 bytes.
#[derive(Debug, Drop)]
pub struct Cdb {
    bytes: ArrayVec<u8, 16>,
}

impl Model for Cdb {
    ghost use Rattle.std.specs.Prelude.{ℕ, List};
    ghost use Rattle.tcmu_types.specs.Rules.{IsCdb};

    ghost Value = { List ℕ };

    ghost view = { λ a. a.bytes.items };

    ghost invariant = { λ a. IsCdb a.bytes.items };
}

/// How many bytes a block has whose first byte is this, by its group (SPC-4, 4.2.5.1); groups 3, 6 and 7 have 16.
pub fn group_length(code: u8) -> u8
    ensures value { result ≡ group_length code }
    ensures most { result ≤ 16 }
{
    if code < 0x20 {
        6
    } else if code < 0x60 {
        10
    } else if code < 0xa0 {
        16
    } else if code < 0xc0 {
        12
    } else {
        16
    }
}

impl Cdb {
    /// Refused exactly where the length is not the one of the first byte's group.
    pub fn new(bytes: &[u8]) -> Result<Cdb, CdbLength>
        ensures accepted { IsOk result ↔ IsCdb bytes.now }
        ensures value { IfOk result (λ cdb. cdb ≡ bytes.now) }
        ensures refused { IfErr result (λ e. e ≡ record { want = wanted_length bytes.now; have = length bytes.now }) }
    {
        let have = bytes.len() as u64;
        let Some(code) = bytes.first() else {
            return Err(CdbLength { want: 0, have });
        };
        let want = group_length(*code);
        if have != u64::from(want) {
            return Err(CdbLength { want, have });
        }
        let mut kept = ArrayVec::new();
        match kept.try_extend_from_slice(bytes) {
            Ok(()) => Ok(Cdb { bytes: kept }),
            Err(_) => unreachable!(),
        }
    }

    /// Its bytes, the operation code first; as many as its group code says (SPC-4, 4.2.5.1).
    pub fn as_bytes(&self) -> &[u8]
        ensures value { result.now ≡ self.now }
        ensures whole { IsCdb self.now }
    {
        self.bytes.as_slice()
    }

    /// The same block once more; it takes no memory.
    pub fn copy(&self) -> Cdb
        ensures { result ≡ self.now }
    {
        let mut bytes = ArrayVec::new();
        match bytes.try_extend_from_slice(self.bytes.as_slice()) {
            Ok(()) => Cdb { bytes },
            Err(_) => unreachable!(),
        }
    }
}

fn is_data_out(code: u8) -> bool
    ensures { result ≡ is_data_out code }
{
    matches!(
        code,
        opcode::WRITE_6
            | opcode::WRITE_10
            | opcode::WRITE_12
            | opcode::WRITE_16
            | opcode::WRITE_SAME_10
            | opcode::WRITE_SAME_16
            | opcode::UNMAP
            | opcode::COMPARE_AND_WRITE
            | opcode::PERSISTENT_RESERVE_OUT
    )
}

/// Whether a command with this block sends data (data-out), by its operation code.
pub fn takes_payload(cdb: &Cdb) -> bool
    ensures { result ≡ takes_payload cdb.now }
{
    is_data_out(cdb.as_bytes()[0])
}
