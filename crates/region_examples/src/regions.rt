//! Lending and copying on a region with a ring of 4096 bytes and two data blocks.
use iovec_scatter::Parts;
use mailbox_bytes::{Mailbox, read};
use shm_region::Region;
use std::alloc::Global;
use std::test::Fail;
use tcmu_types::{Flags, Iov, Iovs, NoMemory, Settings};

/// The byte at which the data area begins.
const DATA_OFF: u64 = 8192;

/// `len` bytes from byte `base` of the region on.
fn iov(base: u64, len: u64) -> Iov {
    Iov { base, len }
}

/// A region of two blocks of 1, 2 or 16 pages.
fn region(alloc: Global, pages: u32) -> Result<Region, NoMemory> {
    let settings = Settings {
        ring: 4096,
        blocks: 4,
        flags: Flags {
            ooo: true,
            read_len: false,
            tmr: false,
        },
        timeout: 0,
        qfull: 0,
        pages: match pages {
            1 => 1,
            2 => 2,
            _ => 16,
        },
    };
    let mut region = Region::new(alloc, settings)?;
    region.grow(alloc, 2)?;
    Ok(region)
}

/// What a `lend` of these iovecs answers, and what it moved.
fn lent(region: &mut Region, alloc: Global, iovs: &[Iov]) -> Result<(bool, Parts, Iovs), NoMemory> {
    let iovs = Iovs::from_slice(alloc, iovs)?;
    let mut parts = Parts::new(alloc);
    let Some(room) = region.room_for(&iovs) else {
        return Err(NoMemory);
    };
    parts.reserve(room)?;
    let answer = region.lend(&iovs, &mut parts);
    Ok((answer, parts, iovs))
}

/// The four bytes from a place on while one iovec's blocks are lent, and once they are back; None where they can't be lent.
fn lent_and_back(
    region: &mut Region,
    alloc: Global,
    iov: Iov,
    base: u64,
) -> Result<Option<([u8; 4], [u8; 4])>, NoMemory> {
    let iovs = Iovs::from_slice(alloc, &[iov])?;
    let mut parts = Parts::new(alloc);
    let Some(room) = region.room_for(&iovs) else {
        return Err(NoMemory);
    };
    parts.reserve(room)?;
    if !region.lend(&iovs, &mut parts) {
        return Ok(None);
    }
    let lent = read_at(region, alloc, base);
    region.back(&iovs, parts);
    let back = read_at(region, alloc, base)?;
    Ok(Some((lent?, back)))
}

fn byte_of(region: &Region, block: u32, at: usize) -> Option<u8> {
    region.area(block)?.get(at).copied()
}

#[test]
fn opens_with_the_mailbox_and_zeros(rt: HostRuntime) -> Result<(), Fail> {
    let region = region(rt.alloc(), 1)?;
    assert!(rt; region.data_off() == DATA_OFF);
    assert!(rt; region.area_len() == 8192);
    assert!(rt; region.head() == 0 && region.tail() == 0);
    let mailbox = read(region.front());
    assert_eq!(rt;
        mailbox,
        Ok(Mailbox {
            version: 2,
            flags: 1,
            cmdr_off: 128,
            cmdr_size: 4096,
            head: 0,
            tail: 0
        })
    );
    assert!(rt; region.front().iter().filter(|byte| **byte != 0).count() == 4);
    Ok(())
}

#[test]
fn lends_by_its_rule(rt: HostRuntime) -> Result<(), Fail> {
    for pages in [1u32, 2, 16] {
        let size = 4096 * pages as u64;
        let second = DATA_OFF + size;
        for (first, next, want) in [
            (iov(DATA_OFF, size), iov(second, 512), true),
            (iov(second, size), iov(DATA_OFF, size), true),
            (iov(DATA_OFF, size), iov(DATA_OFF, size), false),
            (iov(DATA_OFF, size), iov(second + 8, 512), false),
            (iov(DATA_OFF, 512), iov(second, 512), false),
            (iov(DATA_OFF, size), iov(second, 0), false),
            (iov(DATA_OFF, size), iov(second + size, 8), false),
            (iov(0, size), iov(second, 8), false),
        ] {
            let mut region = region(rt.alloc(), pages)?;
            let (answer, parts, _) = lent(&mut region, rt.alloc(), &[first, next])?;
            assert_eq!(rt;
                answer,
                want,
                "{pages} pages, {} and {}",
                first.base, next.base
            );
            assert_eq!(rt; parts.len(), if want { 2 } else { 0 });
            assert_eq!(rt; region.area(0).is_none(), want);
            assert_eq!(rt; region.area(1).is_none(), want);
        }
    }
    Ok(())
}

/// Writes bytes along one iovec that lies in the region.
fn write_at(region: &mut Region, alloc: Global, iov: Iov, bytes: &[u8]) -> Result<u64, NoMemory> {
    let iovs = Iovs::from_slice(alloc, &[iov])?;
    let end = region.data_off() + region.area_len();
    if iov.base >= end || iov.len > end - iov.base {
        return Ok(0);
    }
    Ok(region.copy_in(&iovs, bytes))
}

/// The four bytes from a place on.
fn read_at(region: &Region, alloc: Global, base: u64) -> Result<[u8; 4], NoMemory> {
    let iovs = Iovs::from_slice(alloc, &[Iov { base, len: 4 }])?;
    let mut into = [0xff; 4];
    let end = region.data_off() + region.area_len();
    if base < end && 4 <= end - base {
        region.copy_out(&iovs, &mut into);
    }
    Ok(into)
}

#[test]
fn a_lent_block_reads_as_zeros_and_comes_back(rt: HostRuntime) -> Result<(), Fail> {
    let mut region = region(rt.alloc(), 1)?;
    let across = DATA_OFF + 4094;
    let done = write_at(&mut region, rt.alloc(), iov(across, 4), &[1, 2, 3, 4, 5])?;
    assert_eq!(rt; done, 4);
    assert_eq!(rt; read_at(&region, rt.alloc(), across)?, [1, 2, 3, 4]);
    let first = iov(DATA_OFF, 4096);
    assert_eq!(rt;
        lent_and_back(&mut region, rt.alloc(), first, across)?,
        Some(([0, 0, 3, 4], [1, 2, 3, 4]))
    );
    let (answer, _, _) = lent(&mut region, rt.alloc(), &[first])?;
    assert!(rt; answer);
    assert_eq!(rt;
        lent_and_back(&mut region, rt.alloc(), first, across)?,
        None
    );
    assert_eq!(rt;
        write_at(&mut region, rt.alloc(), iov(across, 4), &[7, 7, 7])?,
        3
    );
    assert_eq!(rt; read_at(&region, rt.alloc(), across)?, [0, 0, 7, 4]);
    region.shrink(1);
    assert_eq!(rt; read_at(&region, rt.alloc(), across)?, [0xff; 4]);
    assert!(rt; byte_of(&region, 0, 4095).is_none() && byte_of(&region, 1, 0).is_none());
    Ok(())
}

/// Fills a block that is at home.
fn fill_block(region: &mut Region, block: u32, byte: u8) -> bool {
    match region.area_mut(block) {
        Some(bytes) => {
            bytes.fill(byte);
            true
        }
        None => false,
    }
}

#[test]
fn a_block_is_written_in_its_place(rt: HostRuntime) -> Result<(), Fail> {
    let mut region = region(rt.alloc(), 1)?;
    assert!(rt; fill_block(&mut region, 1, 7) && !fill_block(&mut region, 2, 7));
    assert_eq!(rt;
        read_at(&region, rt.alloc(), DATA_OFF + 4094)?,
        [0, 0, 7, 7]
    );
    let first = Iov {
        base: DATA_OFF,
        len: 4096,
    };
    let (answer, _, _) = lent(&mut region, rt.alloc(), &[first])?;
    assert!(rt; answer && !fill_block(&mut region, 0, 7));
    Ok(())
}
