//! Reading entries that anyone may have written. Every `at` is a byte offset in the ring, which begins at byte 128 of the front.
ghost use Rattle.std.specs.Prelude.{◌≡◌, ◌+◌, ◌-◌, ◌*◌, ◌%◌, ◌≤◌, ◌<◌, length, IfOk};
ghost use Rattle.region_model.specs.Layout.{ring_start, data_start};
ghost use Rattle.region_model.specs.MailboxReading.{IsMailbox};
ghost use Rattle.region_model.specs.EntryReading.{iov_at, lies_inside, tmr_id_at, first_outside, cdb_at, command_read, tmr_read, limit_of, least_of, kind_read, sized_read, entry_read, response_at, ReadsEntry, KeepsBounds};

use crate::fields::{
    BIDI_COUNT, CDB_OFFSET, COMMAND, HEADER_LEN, ID, ID_COUNT, IDS, IOV_COUNT, IOV_LEN, IOVECS,
    LEAST_COMMAND, LEAST_TMR, PAD, PROTECTION_COUNT, TMR, TMR_TYPE, UFLAGS,
};
use mailbox_bytes::MAILBOX_LEN;
use region_model::{EntryFault, EntryRef, Mailbox, Response};
use tcmu_types::little_endian::{le_u16_at, le_u32_at, le_u64_at, u8_at};
use tcmu_types::{Cdb, Iov, PAGE, group_length};

/// The iovec of this number, from 0, of the command's entry at ring offset `at`, which lies in `front`, whatever its bytes say.
#[tactic(auto, unfolding(region_model::specs::EntryReading::iov_at))]
pub fn read_iov(front: &[u8], at: u32, index: u32) -> Iov
    requires { ring_start + at + 64 + 16 * index ≤ length front.now }
    ensures { result ≡ iov_at front.now (ring_start + at) index }
{
    let slot = MAILBOX_LEN + at as usize + IOVECS + IOV_LEN * index as usize;
    Iov {
        base: le_u64_at(front, slot),
        len: le_u64_at(front, slot + 8),
    }
}

/// The id of this number, from 0, in the task management entry at ring offset `at` (from byte 32 on, two bytes each), which lies in
/// `front`.
#[tactic(auto, unfolding(region_model::specs::EntryReading::tmr_id_at))]
pub fn read_tmr_id(front: &[u8], at: u32, index: u32) -> u16
    requires { ring_start + at + 34 + 2 * index ≤ length front.now }
    ensures { result ≡ tmr_id_at front.now (ring_start + at) index }
{
    le_u16_at(front, MAILBOX_LEN + at as usize + IDS + 2 * index as usize)
}

/// Whether an iovec lies inside the `area` bytes from `low` on.
fn lies_inside(iov: Iov, low: u64, area: u64) -> bool
    ensures { result ≡ lies_inside low (low + area) iov }
{
    if iov.base < low {
        return false;
    }
    let skipped = iov.base - low;
    skipped <= area && iov.len <= area - skipped
}

/// The first iovec that does not lie inside the data area.
fn first_outside(front: &[u8], at: u32, count: u32, low: u64, area: u64) -> Option<u32>
    requires slots { ring_start + at + 48 + 16 * count ≤ length front.now }
    ensures { result ≡ first_outside front.now (ring_start + at) low (low + area) 0 count }
{
    for index in 0..count {
        let iov = read_iov(front, at, index);
        if !lies_inside(iov, low, area) {
            return Some(index);
        }
    }
    None
}

/// The CDB at a byte, if it lies in a range of bytes.
#[tactic(auto, unfolding(region_model::specs::EntryReading::cdb_at))]
fn cdb_at(front: &[u8], low: u64, high: u64, off: u64) -> Option<Cdb>
    requires { high ≤ length front.now }
    ensures { result ≡ cdb_at front.now low high off }
{
    if off < low || off >= high {
        return None;
    }
    let length = u64::from(group_length(front[off as usize]));
    if length > high - off {
        return None;
    }
    Cdb::new(&front[off as usize..(off + length) as usize]).ok()
}

/// The command's entry at ring offset `at`, of `len` bytes, or the first rule that it breaks.
#[tactic(auto, unfolding(region_model::specs::EntryReading::command_read))]
fn read_cmd(
    front: &[u8],
    area: u64,
    data_off: u32,
    at: u32,
    len: u32,
) -> Result<EntryRef, EntryFault>
    requires least { 112 ≤ len }
    requires inside { ring_start + at + len ≤ length front.now }
    ensures { result ≡ command_read front.now area data_off (ring_start + at) len }
{
    let start = MAILBOX_LEN + at as usize;
    let iov_cnt = le_u32_at(front, start + IOV_COUNT);
    let iovs_end = IOVECS as u64 + IOV_LEN as u64 * iov_cnt as u64;
    if len as u64 <= iovs_end {
        return Err(EntryFault::BadCount(iov_cnt));
    }
    let bidi = le_u32_at(front, start + BIDI_COUNT);
    if bidi != 0 {
        return Err(EntryFault::BadCount(bidi));
    }
    let protection = le_u32_at(front, start + PROTECTION_COUNT);
    if protection != 0 {
        return Err(EntryFault::BadCount(protection));
    }
    let off = le_u64_at(front, start + CDB_OFFSET);
    let id = le_u16_at(front, start + ID);
    let low = start as u64 + iovs_end;
    let cdb = cdb_at(front, low, start as u64 + len as u64, off).ok_or(EntryFault::CdbOutside(
        off,
    ))?;
    if let Some(index) = first_outside(front, at, iov_cnt, data_off as u64, area) {
        return Err(EntryFault::IovOutside(index));
    }
    Ok(EntryRef::Cmd {
        len,
        id,
        iov_cnt,
        cdb,
    })
}

/// The task management entry at ring offset `at`, of `len` bytes, or the rule that it breaks.
#[tactic(auto, unfolding(region_model::specs::EntryReading::tmr_read))]
fn read_tmr(front: &[u8], at: u32, len: u32) -> Result<EntryRef, EntryFault>
    requires least { 32 ≤ len }
    requires inside { ring_start + at + len ≤ length front.now }
    ensures { result ≡ tmr_read front.now (ring_start + at) len }
{
    let start = MAILBOX_LEN + at as usize;
    let count = le_u32_at(front, start + ID_COUNT);
    if (len as u64) < IDS as u64 + 2 * count as u64 {
        return Err(EntryFault::BadCount(count));
    }
    Ok(EntryRef::Tmr {
        len,
        kind: u8_at(front, start + TMR_TYPE),
        count,
    })
}

/// How many bytes an entry at this place may have: up to the head where that is behind it, else up to the ring's end.
#[tactic(auto, unfolding(region_model::specs::EntryReading::limit_of))]
fn limit_of(mailbox: &Mailbox, at: u32) -> u32
    requires ring { at < mailbox.now.cmdr_size }
    requires head { mailbox.now.head < mailbox.now.cmdr_size }
    ensures value { result ≡ limit_of mailbox.now at }
    ensures bound { at + result ≤ mailbox.now.cmdr_size }
{
    if at < mailbox.head {
        mailbox.head - at
    } else {
        mailbox.cmdr_size - at
    }
}

/// The least bytes of an entry of this opcode.
#[tactic(auto, unfolding(region_model::specs::EntryReading::least_of))]
fn least_of(op: u8) -> u32
    ensures { result ≡ least_of op }
{
    match op {
        COMMAND => LEAST_COMMAND,
        TMR => LEAST_TMR,
        _ => HEADER_LEN,
    }
}

/// The entry of this opcode, long enough for it and inside the ring.
#[tactic(auto, unfolding(region_model::specs::EntryReading::kind_read, region_model::specs::EntryReading::least_of))]
fn read_kind(
    front: &[u8],
    area: u64,
    data_off: u32,
    at: u32,
    op: u8,
    len: u32,
) -> Result<EntryRef, EntryFault>
    requires least { least_of op ≤ len }
    requires inside { ring_start + at + len ≤ length front.now }
    ensures { result ≡ kind_read front.now area data_off (ring_start + at) op len }
{
    match op {
        PAD => Ok(EntryRef::Pad { len }),
        COMMAND => read_cmd(front, area, data_off, at, len),
        TMR => read_tmr(front, at, len),
        _ => Ok(EntryRef::Unknown { op, len }),
    }
}

/// The entry of this opcode and length, where the length is one that it may have.
#[tactic(auto, unfolding(region_model::specs::EntryReading::sized_read))]
fn read_sized(
    front: &[u8],
    area: u64,
    mailbox: &Mailbox,
    at: u32,
    op: u8,
    len: u32,
) -> Result<EntryRef, EntryFault>
    requires mailbox { IsMailbox mailbox.now }
    requires ring { at < mailbox.now.cmdr_size }
    requires reaches { data_start mailbox.now.cmdr_size ≤ length front.now }
    ensures { result ≡ sized_read front.now area mailbox.now at op len }
{
    if len < least_of(op) {
        return Err(EntryFault::BadLength(len));
    }
    let limit = limit_of(mailbox, at);
    if limit < len {
        return Err(EntryFault::PastEnd { len, limit });
    }
    read_kind(front, area, PAGE + mailbox.cmdr_size, at, op, len)
}

/// The entry at ring offset `at`, or the first rule of `EntryFault` that it breaks. `front` is the region before the data area, `area` how
/// many bytes the data area has. Any bytes may stand there. `at` is a multiple of 8 below the ring's size, `mailbox` is one that
/// `mailbox_bytes::read` accepted, and `front` has all of the region before the data area.
#[tactic(auto, unfolding(region_model::specs::EntryReading::entry_read))]
pub fn read_entry(
    front: &[u8],
    area: u64,
    mailbox: &Mailbox,
    at: u32,
) -> Result<EntryRef, EntryFault>
    requires mailbox { IsMailbox mailbox.now }
    requires aligned { at % 8 ≡ 0 }
    requires ring { at < mailbox.now.cmdr_size }
    requires reaches { data_start mailbox.now.cmdr_size ≤ length front.now }
    ensures value { result ≡ entry_read front.now area mailbox.now at }
    ensures exact { ReadsEntry front.now area mailbox.now at result }
    ensures bounds { IfOk result (λ entry. KeepsBounds front.now area mailbox.now at entry) }
{
    let word = le_u32_at(front, MAILBOX_LEN + at as usize);
    read_sized(front, area, mailbox, at, (word % 8) as u8, word - word % 8)
}

/// The response in the command's entry at ring offset `at` (its bytes 4 to 111), which lies in `front`, whatever these bytes say.
#[tactic(auto, unfolding(region_model::specs::EntryReading::response_at))]
pub fn read_response(front: &[u8], at: u32) -> Response
    requires { ring_start + at + 112 ≤ length front.now }
    ensures { result ≡ response_at front.now (ring_start + at) }
{
    let start = MAILBOX_LEN + at as usize;
    let mut sense = [0; 96];
    sense.copy_from_slice(&front[start + 16..start + 112]);
    Response {
        id: le_u16_at(front, start + ID),
        uflags: u8_at(front, start + UFLAGS),
        status: u8_at(front, start + 8),
        read_len: le_u32_at(front, start + 12),
        sense,
    }
}
