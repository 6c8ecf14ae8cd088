//! What a hostile kernel can write, and what the user side answers.
ghost use Rattle.std.specs.Prelude.{◌≡◌, ◌≤◌, ◌^◌};
ghost use Rattle.ring_laws.specs.UserKept.{HasPages, HasRing};

use crate::fixture::{Seen, as_seen, byte_at, good, region_with, set_word};
use entry_codec::EntryFault;
use mailbox_bytes::MailboxFault;
use shm_region::Region;
use std::alloc::Global;
use std::test::Fail;
use tcmu_types::Respond;
use user_lib::{AttachFault, Next, User};

/// What a user side that attaches to a region sees at a first and a second next.
fn seen_twice(alloc: Global, region: &mut Region) -> (Seen, Seen) {
    match User::attach(alloc, region) {
        Ok(user) => {
            let mut user = user;
            let first = as_seen(&user.next(alloc, region));
            let second = as_seen(&user.next(alloc, region));
            user.detach(region);
            (first, second)
        }
        Err(AttachFault::Mailbox(fault)) => (Seen::Mailbox(fault), Seen::Mailbox(fault)),
        Err(AttachFault::NoMemory) => (Seen::NoMemory, Seen::NoMemory),
    }
}

#[test]
fn a_length_of_no_entry_is_a_fault_each_time(rt: HostRuntime) -> Result<(), Fail> {
    let mut region = region_with(rt.alloc(), 0, &[(12, 8), (128, 1)])?;
    let want = Seen::Entry(0, EntryFault::BadLength(0));
    assert_eq!(rt; seen_twice(rt.alloc(), &mut region), (want, want));
    Ok(())
}

#[test]
fn a_head_that_is_no_place_is_a_fault(rt: HostRuntime) -> Result<(), Fail> {
    let mut region = region_with(rt.alloc(), 0, &[(12, 9)])?;
    let want = Seen::Mailbox(MailboxFault::Unaligned(9));
    assert_eq!(rt; seen_twice(rt.alloc(), &mut region), (want, want));
    Ok(())
}

#[test]
fn an_unknown_entry_is_marked_and_passed(rt: HostRuntime) -> Result<(), Fail> {
    let mut region = region_with(rt.alloc(), 0, &[(12, 8), (128, 15)])?;
    assert_eq!(rt;
        seen_twice(rt.alloc(), &mut region),
        (Seen::Nothing, Seen::Nothing)
    );
    assert_eq!(rt; byte_at(&region, 135), Some(1));
    Ok(())
}

/// A command's entry of 128 bytes at ring offset 0, a READ(10) with one iovec, the head behind it: words at bytes of the region.
const READ: [(u32, u32); 6] = [
    (12, 128),
    (128, 0x81),
    (136, 1),
    (152, 240),
    (184, 512),
    (240, 0x28),
];

/// Words of a hostile region, how many blocks it has, and what the user side sees at a first and a second next.
const CASES: [(&[(u32, u32)], u32, Seen, Seen); 16] = [
    // an iovec that begins before the data area
    (
        &[
            (12, 128),
            (128, 0x81),
            (136, 1),
            (152, 240),
            (184, 8),
            (240, 0x28),
        ],
        0,
        Seen::Entry(0, EntryFault::IovOutside(0)),
        Seen::Entry(0, EntryFault::IovOutside(0)),
    ),
    // another ring size than the region's
    (
        &[(8, 8192)],
        0,
        Seen::Mailbox(MailboxFault::Size(8192)),
        Seen::Mailbox(MailboxFault::Size(8192)),
    ),
    // a head behind the ring's end
    (
        &[(12, 4096)],
        0,
        Seen::Mailbox(MailboxFault::OutOfRing(4096)),
        Seen::Mailbox(MailboxFault::OutOfRing(4096)),
    ),
    // a command of 112 bytes without iovecs
    (
        &[(12, 112), (128, 0x71), (152, 176), (176, 0x28)],
        0,
        Seen::Moved(0, 0, 0),
        Seen::Nothing,
    ),
    // a descriptor block that begins before the place for it
    (
        &[(12, 112), (128, 0x71), (152, 175), (175, 0x28)],
        0,
        Seen::Entry(0, EntryFault::CdbOutside(175)),
        Seen::Entry(0, EntryFault::CdbOutside(175)),
    ),
    // a descriptor block of 10 bytes that ends behind the entry
    (
        &[(12, 112), (128, 0x71), (152, 231), (231, 0x28)],
        0,
        Seen::Entry(0, EntryFault::CdbOutside(231)),
        Seen::Entry(0, EntryFault::CdbOutside(231)),
    ),
    // an entry that ends behind the head
    (
        &[(12, 120), (128, 0x81)],
        0,
        Seen::Entry(
            0,
            EntryFault::PastEnd {
                len: 128,
                limit: 120,
            },
        ),
        Seen::Entry(
            0,
            EntryFault::PastEnd {
                len: 128,
                limit: 120,
            },
        ),
    ),
    // a block named by two iovecs is copied
    (
        &[
            (12, 128),
            (128, 0x81),
            (136, 2),
            (152, 240),
            (176, 8192),
            (184, 4096),
            (192, 8192),
            (200, 4096),
            (240, 0x28),
        ],
        1,
        Seen::Copied(0, 8192, 0),
        Seen::Nothing,
    ),
    // blocks that are not neighbours move
    (
        &[
            (12, 128),
            (128, 0x81),
            (136, 2),
            (152, 240),
            (176, 16384),
            (184, 4096),
            (192, 8192),
            (200, 512),
            (240, 0x28),
        ],
        3,
        Seen::Moved(0, 4608, 2),
        Seen::Nothing,
    ),
    // an iovec of no byte is copied
    (
        &[
            (12, 128),
            (128, 0x81),
            (136, 1),
            (152, 240),
            (176, 8192),
            (240, 0x28),
        ],
        1,
        Seen::Copied(0, 0, 0),
        Seen::Nothing,
    ),
    // a WRITE(10) whose iovec begins inside a block has a copy of its bytes
    (
        &[
            (12, 128),
            (128, 0x81),
            (136, 1),
            (152, 240),
            (176, 8200),
            (184, 512),
            (240, 0x2a),
        ],
        1,
        Seen::Copied(0, 0, 512),
        Seen::Nothing,
    ),
    // a note names jobs that were never given
    (
        &[(12, 40), (128, 0x2a), (136, 5), (140, 2), (160, 0x1_0001)],
        0,
        Seen::Note(5, 0),
        Seen::Nothing,
    ),
    // a note of more ids than it has room for
    (
        &[(12, 40), (128, 0x2a), (136, 5), (140, 5)],
        0,
        Seen::Entry(0, EntryFault::BadCount(5)),
        Seen::Entry(0, EntryFault::BadCount(5)),
    ),
    // padding up to the head
    (&[(12, 8), (128, 8)], 0, Seen::Nothing, Seen::Nothing),
    // a second entry of the same id
    (
        &[
            (12, 256),
            (128, 0x81),
            (132, 7),
            (152, 240),
            (240, 0x28),
            (256, 0x81),
            (260, 7),
            (280, 368),
            (368, 0x28),
        ],
        0,
        Seen::Moved(7, 0, 0),
        Seen::Moved(7, 0, 0),
    ),
    // a fault behind an unknown entry
    (
        &[(12, 24), (128, 15), (136, 1)],
        0,
        Seen::Entry(8, EntryFault::BadLength(0)),
        Seen::Entry(8, EntryFault::BadLength(0)),
    ),
];

#[test]
fn sees_what_a_hostile_kernel_wrote(rt: HostRuntime) -> Result<(), Fail> {
    for case in &CASES {
        let (words, blocks, first, second) = *case;
        let mut region = region_with(rt.alloc(), blocks, words)?;
        assert_eq!(rt; seen_twice(rt.alloc(), &mut region), (first, second));
    }
    Ok(())
}

/// Takes the next job and answers it with GOOD and no bytes, after the area has shrunk to so many blocks.
fn answer_next(alloc: Global, region: &mut Region, user: &mut User, blocks: u32) -> Option<Respond>
    requires ring { HasRing region.old user.old }
    requires pages { HasPages region.old user.old }
    requires few { user.old.dispatched ≤ 2 ^ 63 }
    ensures ring { HasRing region.new user.new }
    ensures pages { HasPages region.new user.new }
{
    match user.next(alloc, region) {
        Ok(Next::Job(job)) => {
            region.shrink(blocks);
            Some(user.respond(region, job, good(alloc)))
        }
        _ => None,
    }
}

#[test]
fn a_copied_job_is_answered_in_a_shrunk_area(rt: HostRuntime) -> Result<(), Fail> {
    let mut region = region_with(rt.alloc(), 1, &READ)?;
    set_word(&mut region, 176, 8200);
    let before = region.front().to_vec(rt.alloc())?;
    let mut user = User::attach(rt.alloc(), &region)?;
    let answer = answer_next(rt.alloc(), &mut region, &mut user, 0);
    assert_eq!(rt; answer, Some(Respond::Placed));
    user.detach(&mut region);
    let after = region.front();
    let changed = before.iter().zip(after.iter()).enumerate().all(|(at, (old, new))| old == new
        || (132 <= at && at < 240 && at != 134));
    assert!(rt; changed);
    Ok(())
}

/// Words of the mailbox that change behind the attach, and what the next next sees.
const BEHIND: [(u32, u32, Seen); 4] = [
    // another version
    (0, 0x5_0003, Seen::Mailbox(MailboxFault::Version(3))),
    // no flag at all
    (0, 2, Seen::Moved(0, 512, 1)),
    // another place of the ring
    (4, 64, Seen::Mailbox(MailboxFault::Offset(64))),
    // another size of the ring
    (8, 8192, Seen::Mailbox(MailboxFault::Size(8192))),
];

/// What a next sees once a word of the mailbox has changed behind the attach.
fn seen_behind(alloc: Global, region: &mut Region, at: u32, word: u32) -> Seen {
    match User::attach(alloc, region) {
        Ok(user) => {
            let mut user = user;
            set_word(region, at, word);
            let seen = as_seen(&user.next(alloc, region));
            user.detach(region);
            seen
        }
        Err(AttachFault::Mailbox(fault)) => Seen::Mailbox(fault),
        Err(AttachFault::NoMemory) => Seen::NoMemory,
    }
}

#[test]
fn sees_a_mailbox_that_changed_behind_the_attach(rt: HostRuntime) -> Result<(), Fail> {
    for case in &BEHIND {
        let (at, word, want) = *case;
        let mut region = region_with(rt.alloc(), 1, &READ)?;
        set_word(&mut region, 176, 8192);
        assert_eq!(rt; seen_behind(rt.alloc(), &mut region, at, word), want);
    }
    Ok(())
}
