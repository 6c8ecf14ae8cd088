//! Writing entries. Each entry that is written lies in `front`. Each writer writes just its bytes, and leaves all others. Every `at`
//! is a byte offset in the ring, which begins at byte 128 of the front.
ghost use Rattle.std.specs.Prelude.{◌≡◌, ◌+◌, ◌-◌, ◌*◌, ◌%◌, ◌^◌, ◌≤◌, ◌<◌, length};
ghost use Rattle.tcmu_model.specs.Lengths.{round_up, tmr_length};
ghost use Rattle.region_model.specs.Layout.{ring_start, entry_header, pad_bytes, tmr_bytes, command_bytes, command_head, command_length, answer_bytes, iovs_bytes, ids_bytes, with_response};
ghost use Rattle.tcmu_types.specs.ByteFields.{put, padded};

use crate::fields::{
    BIDI_COUNT, CDB_OFFSET, COMMAND, ID, ID_COUNT, IDS, IOV_COUNT, IOV_LEN, IOVECS, LEAST_COMMAND,
    PAD, PROTECTION_COUNT, READ_LENGTH_FLAG, TMR, TMR_TYPE, UFLAGS,
};
use mailbox_bytes::MAILBOX_LEN;
use tcmu_types::little_endian::{put_bytes, put_u8, put_u16, put_u32, put_u64, put_zeros};
use tcmu_types::{Cdb, Ids, Iovs, Reply, sense_bytes};

/// The header of an entry: its length with the opcode, and its id.
fn put_header(front: &mut [u8], start: usize, op: u8, len: u32, id: u16)
    requires room { start + 8 ≤ length front.old }
    requires fits { len + op < 2 ^ 32 }
    ensures { front.new ≡ put front.old start (entry_header op len id) }
{
    put_u32(front, start, len + op as u32);
    put_u16(front, start + ID, id);
    put_zeros(front, start + 6, 2);
}

/// Writes padding of `len` bytes, a multiple of 8 and not 0: its header, then zeros.
pub fn write_pad(front: &mut [u8], at: u32, len: u32)
    requires least { 8 ≤ len }
    requires aligned { len % 8 ≡ 0 }
    requires inside { ring_start + at + len ≤ length front.old }
    ensures { front.new ≡ put front.old (ring_start + at) (pad_bytes len) }
{
    let start = MAILBOX_LEN + at as usize;
    put_header(front, start, PAD, len, 0);
    put_zeros(front, start + 8, len as usize - 8);
}

/// The first 48 bytes of a command's entry: its header, the number of iovecs, and where its command descriptor block stands.
fn put_command_head(front: &mut [u8], start: usize, len: u32, id: u16, count: u32, cdb_off: u64)
    requires room { start + 48 ≤ length front.old }
    requires fits { len + 1 < 2 ^ 32 }
    ensures { front.new ≡ put front.old start (command_head len id count cdb_off) }
{
    put_header(front, start, COMMAND, len, id);
    put_u32(front, start + IOV_COUNT, count);
    put_u32(front, start + BIDI_COUNT, 0);
    put_u32(front, start + PROTECTION_COUNT, 0);
    put_zeros(front, start + 20, 4);
    put_u64(front, start + CDB_OFFSET, cdb_off);
    put_zeros(front, start + 32, 16);
}

/// Iovecs, 16 bytes each.
fn put_iovs(front: &mut [u8], start: usize, iovs: &Iovs)
    requires room { start + 16 * length iovs.now.items ≤ length front.old }
    ensures { front.new ≡ put front.old start (iovs_bytes iovs.now.items) }
{
    let mut at = start;
    for iov in iovs.as_slice() {
        put_u64(front, at, iov.base);
        put_u64(front, at + 8, iov.len);
        at += IOV_LEN;
    }
}

/// Ids, two bytes each.
fn put_ids(front: &mut [u8], start: usize, ids: &Ids)
    requires room { start + 2 * length ids.now.items ≤ length front.old }
    ensures { front.new ≡ put front.old start (ids_bytes ids.now.items) }
{
    let mut at = start;
    for id in ids.as_slice() {
        put_u16(front, at, *id);
        at += 2;
    }
}

/// The next multiple of 8.
fn round_up(len: usize) -> usize
    requires { len < 2 ^ 62 }
    ensures { result ≡ round_up len }
{
    len.div_ceil(8) * 8
}

/// Bytes, and zeros behind them up to a length.
fn put_padded(front: &mut [u8], start: usize, bytes: &[u8], len: usize)
    requires fits { length bytes.now ≤ len }
    requires room { start + len ≤ length front.old }
    ensures { front.new ≡ put front.old start (padded len bytes.now) }
{
    put_bytes(front, start, bytes);
    put_zeros(front, start + bytes.len(), len - bytes.len());
}

/// Writes a command's entry, with `blocks` slots for iovecs: of each slot that `iovs` leaves the bytes are zero.
pub fn write_request(front: &mut [u8], at: u32, id: u16, blocks: u32, iovs: &Iovs, cdb: &Cdb)
    requires slots { length iovs.now.items ≤ blocks }
    requires inside { ring_start + at + command_length blocks (length cdb.now) ≤ length front.old }
    requires fits { command_length blocks (length cdb.now) < 2 ^ 32 }
    ensures { front.new ≡ put front.old (ring_start + at) (command_bytes at id blocks iovs.now.items cdb.now) }
{
    let start = MAILBOX_LEN + at as usize;
    let place = (LEAST_COMMAND as usize).max(IOVECS + IOV_LEN * blocks as usize);
    let cdb = cdb.as_bytes();
    let cdb_len = round_up(cdb.len());
    let count = iovs.len();
    let iovs_end = IOVECS + IOV_LEN * count;
    put_command_head(
        front,
        start,
        (place + cdb_len) as u32,
        id,
        count as u32,
        (start + place) as u64,
    );
    put_iovs(front, start + IOVECS, iovs);
    put_zeros(front, start + iovs_end, place - iovs_end);
    put_padded(front, start + place, cdb, cdb_len);
}

/// Writes a task management entry of a type (`tmr_type` of `struct tcmu_tmr_entry`) that names these ids.
pub fn write_tmr(front: &mut [u8], at: u32, kind: u8, ids: &Ids)
    requires inside { ring_start + at + tmr_length (length ids.now.items) ≤ length front.old }
    requires fits { tmr_length (length ids.now.items) < 2 ^ 32 }
    ensures { front.new ≡ put front.old (ring_start + at) (tmr_bytes kind ids.now.items) }
{
    let start = MAILBOX_LEN + at as usize;
    let count = ids.len();
    let used = IDS + 2 * count;
    let len = round_up(used);
    put_header(front, start, TMR, len as u32, 0);
    put_u8(front, start + TMR_TYPE, kind);
    put_zeros(front, start + 9, 3);
    put_u32(front, start + ID_COUNT, count as u32);
    put_zeros(front, start + 16, 16);
    put_ids(front, start + IDS, ids);
    put_zeros(front, start + used, len - used);
}

/// Writes bytes 7 to 111 of an entry, which begin at `start` of the front.
fn put_response(front: &mut [u8], start: usize, uflags: u8, status: u8, read_len: u32, sense: &[u8])
    requires sense { length sense.now ≤ 96 }
    requires room { start + 105 ≤ length front.old }
    ensures { front.new ≡ put front.old start (answer_bytes uflags status read_len sense.now) }
{
    put_u8(front, start, uflags);
    put_u8(front, start + 1, status);
    put_zeros(front, start + 2, 3);
    put_u32(front, start + 5, read_len);
    put_padded(front, start + 9, sense, 96);
}

/// Writes a response over an entry: its id, and bytes 7 to 111. `read_len` is the length in bytes of what was read, where it is told.
pub fn write_response(front: &mut [u8], at: u32, id: u16, reply: &Reply, read_len: Option<u32>)
    requires inside { ring_start + at + 112 ≤ length front.old }
    ensures { front.new ≡ with_response front.old at id reply.now read_len }
{
    let start = MAILBOX_LEN + at as usize;
    let status = reply.status.0;
    let (uflags, count) = match read_len {
        Some(count) => (READ_LENGTH_FLAG, count),
        None => (0, 0),
    };
    put_u16(front, start + ID, id);
    match reply.sense {
        Some(sense) => put_response(
            front,
            start + UFLAGS,
            uflags,
            status,
            count,
            &sense_bytes(sense),
        ),
        None => put_response(front, start + UFLAGS, uflags, status, count, &[]),
    }
}
