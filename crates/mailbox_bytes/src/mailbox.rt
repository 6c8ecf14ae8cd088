//! The mailbox written and read.
ghost use Rattle.std.specs.Prelude.{◌≡◌, ◌≤◌, length, IfOk};
ghost use Rattle.region_model.specs.Layout.{mailbox_bytes};
ghost use Rattle.tcmu_types.specs.ByteFields.{put};
ghost use Rattle.region_model.specs.MailboxReading.{judged, mailbox_read, is_ring_size, ReadsMailbox, IsMailbox};

use region_model::{Mailbox, MailboxFault};
use tcmu_types::little_endian::{le_u16_at, le_u32_at, put_u16, put_u32, put_zeros};
use tcmu_types::{MOST_RING, PAGE};

/// How many bytes a mailbox has; the command ring begins behind them.
pub const MAILBOX_LEN: usize = 128;

/// The byte at which the head stands, a number of 32 bits.
pub const HEAD: usize = 12;

/// The byte at which the tail stands, a number of 32 bits.
pub const TAIL: usize = 64;

/// Writes the mailbox over the first 128 bytes; its spare bytes are zero, and the rest stays.
pub fn write(mailbox: &Mailbox, into: &mut [u8])
    requires { 128 ≤ length into.old }
    ensures { into.new ≡ put into.old 0 (mailbox_bytes mailbox.now) }
{
    put_u16(into, 0, mailbox.version);
    put_u16(into, 2, mailbox.flags);
    put_u32(into, 4, mailbox.cmdr_off);
    put_u32(into, 8, mailbox.cmdr_size);
    put_u32(into, HEAD, mailbox.head);
    put_zeros(into, 16, 48);
    put_u32(into, TAIL, mailbox.tail);
    put_zeros(into, 68, 60);
}

fn is_ring_size(size: u32) -> bool
    ensures { result ≡ is_ring_size size }
{
    PAGE <= size && size <= MOST_RING && size % PAGE == 0
}

/// The mailbox, or its first fault.
#[tactic(auto, unfolding(region_model::specs::MailboxReading::judged))]
fn judged(mailbox: Mailbox) -> Result<Mailbox, MailboxFault>
    ensures { result ≡ judged mailbox }
{
    if mailbox.version != 2 {
        return Err(MailboxFault::Version(mailbox.version));
    }
    if mailbox.cmdr_off != MAILBOX_LEN as u32 {
        return Err(MailboxFault::Offset(mailbox.cmdr_off));
    }
    if !is_ring_size(mailbox.cmdr_size) {
        return Err(MailboxFault::Size(mailbox.cmdr_size));
    }
    if mailbox.head % 8 != 0 {
        return Err(MailboxFault::Unaligned(mailbox.head));
    }
    if mailbox.tail % 8 != 0 {
        return Err(MailboxFault::Unaligned(mailbox.tail));
    }
    if mailbox.head >= mailbox.cmdr_size {
        return Err(MailboxFault::OutOfRing(mailbox.head));
    }
    if mailbox.tail >= mailbox.cmdr_size {
        return Err(MailboxFault::OutOfRing(mailbox.tail));
    }
    Ok(mailbox)
}

/// Reads the first 128 bytes as a mailbox: the mailbox exactly where no rule is broken, else the first fault in the order of
/// `MailboxFault`. Flag bits above the third and spare bytes are not looked at.
#[tactic(auto, unfolding(region_model::specs::MailboxReading::mailbox_read, region_model::specs::MailboxReading::mailbox_in))]
pub fn read(bytes: &[u8]) -> Result<Mailbox, MailboxFault>
    ensures value { result ≡ mailbox_read bytes.now }
    ensures exact { ReadsMailbox bytes.now result }
    ensures sound { IfOk result (λ m. IsMailbox m) }
{
    if bytes.len() < MAILBOX_LEN {
        return Err(MailboxFault::Short(bytes.len() as u64));
    }
    judged(Mailbox {
        version: le_u16_at(bytes, 0),
        flags: le_u16_at(bytes, 2),
        cmdr_off: le_u32_at(bytes, 4),
        cmdr_size: le_u32_at(bytes, 8),
        head: le_u32_at(bytes, HEAD),
        tail: le_u32_at(bytes, TAIL),
    })
}
