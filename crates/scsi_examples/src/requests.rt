//! Requests by their bytes, and the outcomes that tables name.
use handler_trait::{Handler, Request};
use std::alloc::Global;
use std::test::Fail;
use tcmu_types::{Bytes, Cdb, Reply, ScsiStatus};

/// How a command ends.
#[derive(Clone, Copy, Debug, PartialEq, Eq)]
pub enum Outcome {
    /// GOOD, without sense data.
    Good,
    /// CHECK CONDITION, with its sense key, additional sense code and qualifier.
    Check(u8, u8, u8),
    /// Any other status, or sense data that are missing or too many; with the status.
    Other(u8),
}

impl Outcome {
    /// How the command of a reply ended.
    pub fn of(reply: &Reply) -> Outcome {
        match reply.sense {
            None if reply.status == ScsiStatus::GOOD => Outcome::Good,
            Some(sense) if reply.status == ScsiStatus::CHECK_CONDITION => {
                Outcome::Check(sense.key, sense.asc, sense.ascq)
            }
            _ => Outcome::Other(reply.status.0),
        }
    }
}

/// GOOD, without sense data.
pub const GOOD: Outcome = Outcome::Good;

/// MEDIUM ERROR, WRITE ERROR.
pub const WRITE_ERROR: Outcome = Outcome::Check(0x3, 0x0c, 0x00);

/// MEDIUM ERROR, UNRECOVERED READ ERROR.
pub const READ_ERROR: Outcome = Outcome::Check(0x3, 0x11, 0x00);

/// ILLEGAL REQUEST, PARAMETER LIST LENGTH ERROR.
pub const LIST_LENGTH: Outcome = Outcome::Check(0x5, 0x1a, 0x00);

/// ILLEGAL REQUEST, INVALID COMMAND OPERATION CODE.
pub const OPERATION_CODE: Outcome = Outcome::Check(0x5, 0x20, 0x00);

/// ILLEGAL REQUEST, LOGICAL BLOCK ADDRESS OUT OF RANGE.
pub const RANGE: Outcome = Outcome::Check(0x5, 0x21, 0x00);

/// ILLEGAL REQUEST, INVALID FIELD IN CDB.
pub const FIELD: Outcome = Outcome::Check(0x5, 0x24, 0x00);

/// ILLEGAL REQUEST, INVALID FIELD IN PARAMETER LIST.
pub const LIST_FIELD: Outcome = Outcome::Check(0x5, 0x26, 0x00);

/// DATA PROTECT, WRITE PROTECTED.
pub const PROTECTED: Outcome = Outcome::Check(0x7, 0x27, 0x00);

/// MISCOMPARE, MISCOMPARE DURING VERIFY OPERATION.
pub const MISCOMPARE: Outcome = Outcome::Check(0xe, 0x1d, 0x00);

/// So many copies of a byte.
pub fn filled(alloc: Global, byte: u8, n: usize) -> Result<Vec<u8>, Fail> {
    let mut bytes = Vec::new(alloc);
    bytes.resize(n, byte)?;
    Ok(bytes)
}

/// The bytes of hexadecimal digits.
pub fn bytes_of(alloc: Global, digits: &str) -> Result<Vec<u8>, Fail> {
    Ok(hex::decode(alloc, digits).ok().ok_or("hexadecimal digits")?)
}

/// Whether this is a logical block full of a byte.
pub fn is_block_of(bytes: &[u8], byte: u8) -> bool {
    bytes.len() == 512 && bytes.iter().all(|item| *item == byte)
}

/// A command descriptor block in hexadecimal digits, with the bytes that go with it.
fn request(alloc: Global, cdb: &str, sent: &[u8], in_len: u32) -> Result<Request, Fail> {
    let cdb = bytes_of(alloc, cdb)?;
    let cdb = Cdb::new(&cdb).ok().ok_or("a command descriptor block")?;
    let sent = Bytes::from_slice(alloc, sent)?;
    Ok(Request { cdb, sent, in_len })
}

/// The reply to a command descriptor block in hexadecimal digits, with the bytes that go with it.
pub fn ask<H: Handler>(
    alloc: Global,
    disk: &mut H,
    cdb: &str,
    sent: &[u8],
    in_len: u32,
) -> Result<Reply, Fail> {
    let request = request(alloc, cdb, sent, in_len)?;
    Ok(disk.handle(alloc, &request)?)
}
