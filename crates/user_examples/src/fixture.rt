//! A region with a ring of 4096 bytes, whose words are written by hand, and what a user side sees in it.
ghost use Rattle.std.specs.Prelude.{◌≡◌, true, length, IfSome};
ghost use Rattle.std.specs.List.{list_any};
ghost use Rattle.region_model.specs.UserSteps.{is_open_job};
ghost use Rattle.ring_laws.specs.UserKept.{HasPages, HasRing, IsWholeJob};
ghost use Rattle.user_lib.specs.Stays.{StayOpen, StaysAttached};

use entry_codec::EntryFault;
use mailbox_bytes::MailboxFault;
use shm_region::Region;
use std::alloc::Global;
use tcmu_types::{Bytes, Flags, NoMemory, Reply, ScsiStatus, Settings};
use user_lib::{Job, JobData, Next, User, UserFault};

/// What a next answered, in numbers.
#[derive(Clone, Copy, Debug, PartialEq, Eq)]
pub(crate) enum Seen {
    /// A job of this id and of so many bytes that it may answer, with so many blocks.
    Moved(u16, u32, usize),
    /// A job of this id and of so many bytes that it may answer, with a copy of so many bytes.
    Copied(u16, u32, usize),
    /// A note of this type, with so many ids.
    Note(u8, usize),
    Nothing,
    Mailbox(MailboxFault),
    Entry(u32, EntryFault),
    NoMemory,
}

pub(crate) fn as_seen(next: &Result<Next, UserFault>) -> Seen {
    match next {
        Ok(Next::Job(job)) => match &job.carried {
            JobData::Moved(parts) => Seen::Moved(job.id, job.in_len, parts.len()),
            JobData::Copied(bytes) => Seen::Copied(job.id, job.in_len, bytes.len()),
        },
        Ok(Next::Note { kind, ids }) => Seen::Note(*kind, ids.len()),
        Ok(Next::Nothing) => Seen::Nothing,
        Err(UserFault::BadMailbox(fault)) => Seen::Mailbox(*fault),
        Err(UserFault::BadEntry { at, fault }) => Seen::Entry(*at, *fault),
        Err(UserFault::NoMemory) => Seen::NoMemory,
    }
}

/// A region whose area has so many blocks of 4096 bytes.
fn region(alloc: Global, blocks: u32) -> Result<Region, NoMemory> {
    let settings = Settings {
        ring: 4096,
        blocks: 4,
        flags: Flags {
            ooo: true,
            read_len: false,
            tmr: true,
        },
        timeout: 0,
        qfull: 0,
        pages: 1,
    };
    let mut region = Region::new(alloc, settings)?;
    region.grow(alloc, blocks.min(4))?;
    Ok(region)
}

/// Writes a word of 32 bits at a byte of the region.
pub(crate) fn set_word(region: &mut Region, at: u32, word: u32)
    ensures front { length region.new.front ≡ length region.old.front }
    ensures pages { region.new.pages ≡ region.old.pages }
{
    if at as usize + 4 <= region.front().len() {
        region.write_front(at as u64, &word.to_le_bytes());
    }
}

/// A byte of the region before its data area.
pub(crate) fn byte_at(region: &Region, at: usize) -> Option<u8> {
    region.front().get(at).copied()
}

/// A region where these words stand.
pub(crate) fn region_with(
    alloc: Global,
    blocks: u32,
    words: &[(u32, u32)],
) -> Result<Region, NoMemory> {
    let mut region = region(alloc, blocks)?;
    for word in words {
        let (at, value) = *word;
        set_word(&mut region, at, value);
    }
    Ok(region)
}

/// GOOD, and no bytes.
pub(crate) fn good(alloc: Global) -> Reply
    ensures { length result.payload ≡ 0 }
{
    Reply {
        status: ScsiStatus::GOOD,
        sense: None,
        payload: Bytes::new(alloc),
    }
}

/// The next job, where one comes of a user side that has taken few.
pub(crate) fn next_job(alloc: Global, region: &mut Region, user: &mut User) -> Option<Job>
    requires ring { HasRing region.old user.old }
    requires pages { HasPages region.old user.old }
    ensures is_open { IfSome result (λ job. list_any (is_open_job job.id) user.new.jobs ≡ true) }
    ensures whole { IfSome result (λ job. IsWholeJob user.new job) }
    ensures open { StayOpen user.old user.new }
    ensures same { StaysAttached user.old user.new }
    ensures ring { HasRing region.new user.new }
    ensures pages { HasPages region.new user.new }
{
    if user.numbers().dispatched > 8 {
        return None;
    }
    match user.next(alloc, region) {
        Ok(Next::Job(job)) => Some(job),
        _ => None,
    }
}

/// What the next next sees, where the user side has taken few.
pub(crate) fn see_next(alloc: Global, region: &mut Region, user: &mut User) -> Seen
    requires ring { HasRing region.old user.old }
    requires pages { HasPages region.old user.old }
    ensures open { StayOpen user.old user.new }
    ensures same { StaysAttached user.old user.new }
    ensures ring { HasRing region.new user.new }
    ensures pages { HasPages region.new user.new }
{
    if user.numbers().dispatched > 8 {
        return Seen::NoMemory;
    }
    as_seen(&user.next(alloc, region))
}
