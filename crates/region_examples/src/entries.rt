//! The worked bytes of entries, and each fault at its border. The region has a ring of 4096 bytes, its data area begins at byte 8192.

use entry_codec::{
    EntryFault, EntryRef, read_entry, read_iov, read_response, read_tmr_id, write_pad,
    write_request, write_response, write_tmr,
};
use mailbox_bytes::{Mailbox, read, write};
use std::alloc::Global;
use std::test::Fail;
use tcmu_types::little_endian::{put_u32, put_u64};
use tcmu_types::{Bytes, Cdb, Ids, Iov, Iovs, NoMemory, Reply, ScsiStatus, Sense};

const DATA_OFF: u64 = 8192;

/// Bytes before the data area, each 0xaa behind the mailbox.
fn front_with(alloc: Global, head: u32) -> Result<Vec<u8>, NoMemory> {
    let mut front = vec![in alloc; 0xaa; 8192]?;
    let mailbox = Mailbox {
        version: 2,
        flags: 1,
        cmdr_off: 128,
        cmdr_size: 4096,
        head,
        tail: 0,
    };
    if front.len() >= 128 {
        write(&mailbox, &mut front);
    }
    Ok(front)
}

fn entry_in(front: &[u8], area: u64, at: u32) -> Option<Result<EntryRef, EntryFault>> {
    let mailbox = read(front).ok()?;
    if at % 8 != 0 || at >= mailbox.cmdr_size || front.len() < 4096 + mailbox.cmdr_size as usize {
        return None;
    }
    Some(read_entry(front, area, &mailbox, at))
}

/// The fault of the entry at ring offset 0, where the data area has one block.
fn fault_in(front: &[u8]) -> Option<EntryFault> {
    match entry_in(front, 4096, 0)? {
        Ok(_) => None,
        Err(fault) => Some(fault),
    }
}

fn set_u32(front: &mut [u8], at: u32, word: u32) {
    if front.len() >= 132 + at as usize {
        put_u32(front, 128 + at as usize, word);
    }
}

fn set_u64(front: &mut [u8], at: u32, number: u64) {
    if front.len() >= 136 + at as usize {
        put_u64(front, 128 + at as usize, number);
    }
}

/// A front with a READ(10) of one block at ring offset 0, and the head behind it.
fn request(alloc: Global, iov: Iov) -> Result<Vec<u8>, NoMemory> {
    let mut front = front_with(alloc, 128)?;
    let iovs = Iovs::from_slice(alloc, &[iov])?;
    if let Ok(cdb) = Cdb::new(&[0x28, 0, 0, 0, 0, 0, 0, 0, 1, 0]) {
        if front.len() >= 8192 && iovs.len() <= 1 {
            write_request(&mut front, 0, 1, 1, &iovs, &cdb);
        }
    }
    Ok(front)
}

/// Whether bytes are these runs, each of a byte and a count.
fn is_runs(bytes: &[u8], runs: &[(u8, usize)]) -> bool {
    let mut rest = bytes;
    for run in runs {
        let (byte, count) = *run;
        if rest.len() < count || !rest[..count].iter().all(|other| *other == byte) {
            return false;
        }
        rest = &rest[count..];
    }
    rest.is_empty()
}

#[test]
fn writes_padding_up_to_the_ring_end(rt: HostRuntime) -> Result<(), Fail> {
    let mut front = front_with(rt.alloc(), 0)?;
    assert!(rt; front.len() == 8192);
    write_pad(&mut front, 4032, 64);
    assert!(rt;
        is_runs(
            front.get(4156..4228).unwrap_or(&[]),
            &[(0xaa, 4), (0x40, 1), (0, 63), (0xaa, 4)]
        )
    );
    Ok(())
}

#[test]
fn writes_a_command_with_merged_blocks(rt: HostRuntime) -> Result<(), Fail> {
    let mut front = front_with(rt.alloc(), 0)?;
    let iovs = Iovs::from_slice(
        rt.alloc(),
        &[Iov {
            base: DATA_OFF,
            len: 20480,
        }],
    )?;
    assert!(rt; front.len() == 8192 && iovs.len() == 1);
    if let Ok(cdb) = Cdb::new(&[0x28, 0, 0, 0, 0, 0, 0, 0, 0x28, 0]) {
        write_request(&mut front, 0, 0, 5, &iovs, &cdb);
    }
    assert!(rt;
        is_runs(
            front.get(128..273).unwrap_or(&[]),
            &[
                (0x91, 1),
                (0, 7),
                (1, 1),
                (0, 16),
                (1, 1),
                (0, 23),
                (0x20, 1),
                (0, 7),
                (0x50, 1),
                (0, 70),
                (0x28, 1),
                (0, 7),
                (0x28, 1),
                (0, 7),
                (0xaa, 1)
            ]
        )
    );
    Ok(())
}

/// A word that is written at a byte of a good entry, and the rule that the entry breaks then.
const WORDS: [(u32, u32, Option<EntryFault>); 17] = [
    (0, 0x81, None),
    (0, 0x01, Some(EntryFault::BadLength(0))),
    (0, 0x69, Some(EntryFault::BadLength(104))),
    (
        0,
        0x89,
        Some(EntryFault::PastEnd {
            len: 136,
            limit: 128,
        }),
    ),
    (0, 0x1a, Some(EntryFault::BadLength(24))),
    (0, 0x22, Some(EntryFault::BadCount(8192))),
    (0, 0x0f, None),
    (0, 0x07, Some(EntryFault::BadLength(0))),
    (8, 4, None),
    (8, 5, Some(EntryFault::BadCount(5))),
    (12, 3, Some(EntryFault::BadCount(3))),
    (16, 4, Some(EntryFault::BadCount(4))),
    (24, 191, Some(EntryFault::CdbOutside(191))),
    (24, 192, None),
    (24, 250, None),
    (24, 251, Some(EntryFault::CdbOutside(251))),
    (24, 256, Some(EntryFault::CdbOutside(256))),
];

#[test]
fn names_the_first_broken_rule(rt: HostRuntime) -> Result<(), Fail> {
    let iov = Iov {
        base: DATA_OFF,
        len: 512,
    };
    for (at, word, want) in WORDS {
        let mut front = request(rt.alloc(), iov)?;
        if at == 0 && word == 0x22 {
            set_u32(&mut front, 12, 8192);
        }
        if at == 8 && word == 4 {
            set_u64(&mut front, 64, DATA_OFF);
            set_u64(&mut front, 80, DATA_OFF);
            set_u64(&mut front, 96, DATA_OFF);
        }
        set_u32(&mut front, at, word);
        assert_eq!(rt; fault_in(&front), want, "{word} at {at}");
    }
    Ok(())
}

#[test]
fn an_iovec_lies_inside_up_to_the_end(rt: HostRuntime) -> Result<(), Fail> {
    for (base, len, want) in [
        (0u64, 8u64, Some(EntryFault::IovOutside(0))),
        (8191, 1, Some(EntryFault::IovOutside(0))),
        (8192, 4096, None),
        (8192, 4097, Some(EntryFault::IovOutside(0))),
        (12288, 0, None),
        (12289, 0, Some(EntryFault::IovOutside(0))),
        (8193, 0xffff_ffff_ffff_ffff, Some(EntryFault::IovOutside(0))),
    ] {
        let front = request(rt.alloc(), Iov { base, len })?;
        assert_eq!(rt; fault_in(&front), want, "{base} and {len}");
    }
    Ok(())
}

/// Runs of bytes of an entry behind its response: each byte, and how often it stands there.
const RESPONSE: [(u8, usize); 24] = [
    (0x81, 1),
    (0, 3),
    (0x34, 1),
    (0x12, 1),
    (0x66, 1),
    (2, 1),
    (2, 1),
    (0, 3),
    (7, 1),
    (0, 3),
    (0x70, 1),
    (0, 1),
    (5, 1),
    (0, 4),
    (10, 1),
    (0, 4),
    (0x20, 1),
    (1, 1),
    (0, 82),
    (0x28, 1),
    (0, 7),
    (1, 1),
    (0, 7),
    (0xaa, 1),
];

#[test]
fn a_response_changes_its_bytes_alone(rt: HostRuntime) -> Result<(), Fail> {
    let mut front = request(
        rt.alloc(),
        Iov {
            base: DATA_OFF,
            len: 512,
        },
    )?;
    assert!(rt; front.len() == 8192);
    set_u32(&mut front, 4, 0x5566_7788);
    let reply = Reply {
        status: ScsiStatus(2),
        sense: Some(Sense {
            key: 5,
            asc: 0x20,
            ascq: 1,
        }),
        payload: Bytes::new(rt.alloc()),
    };
    assert!(rt; front.len() == 8192);
    write_response(&mut front, 0, 0x1234, &reply, Some(7));
    assert!(rt; is_runs(front.get(128..257).unwrap_or(&[]), &RESPONSE));
    assert!(rt; front.len() == 8192);
    let response = read_response(&front, 0);
    assert_eq!(rt; response.id, 0x1234);
    assert_eq!(rt; response.uflags, 2);
    assert_eq!(rt; response.status, 2);
    assert_eq!(rt; response.read_len, 7);
    assert_eq!(rt; response.sense[2], 5);
    Ok(())
}

#[test]
fn reads_what_was_written(rt: HostRuntime) -> Result<(), Fail> {
    let mut front = front_with(rt.alloc(), 0)?;
    let ids = Ids::from_slice(rt.alloc(), &[3, 0x102])?;
    assert!(rt; front.len() == 8192 && ids.len() == 2);
    write_tmr(&mut front, 8, 5, &ids);
    assert!(rt; front.len() == 8192);
    assert!(rt;
        matches!(
            entry_in(&front, 0, 8),
            Some(Ok(EntryRef::Tmr {
                len: 40,
                kind: 5,
                count: 2
            }))
        )
    );
    assert_eq!(rt; read_tmr_id(&front, 8, 1), 0x102);
    let front = request(
        rt.alloc(),
        Iov {
            base: DATA_OFF,
            len: 512,
        },
    )?;
    assert!(rt; front.len() == 8192);
    assert_eq!(rt;
        read_iov(&front, 0, 0),
        Iov {
            base: DATA_OFF,
            len: 512
        }
    );
    assert!(rt;
        matches!(
            entry_in(&front, 4096, 0),
            Some(Ok(EntryRef::Cmd {
                len: 128,
                id: 1,
                iov_cnt: 1,
                ..
            }))
        )
    );
    Ok(())
}
