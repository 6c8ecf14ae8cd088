//! Calls of the target in their order, on a region with a ring of 4096 bytes.
use crate::fixture::{Bench, cleaned};
use std::test::Fail;
use target_side::RingItem;
use tcmu_types::{Enter, ItemKind, Tmr};

#[test]
fn a_ring_wraps_behind_padding(rt: HostRuntime) -> Result<(), Fail> {
    let mut bench = Bench::near_the_end(rt.alloc())?;
    let _ = bench.tmr(7, &[])?;
    let _ = bench.submit(2)?;
    assert_eq!(rt;
        bench.item(1),
        Some(RingItem {
            at: 4000,
            kind: ItemKind::Pad,
            len: 96
        })
    );
    assert_eq!(rt;
        bench.item(2),
        Some(RingItem {
            at: 0,
            kind: ItemKind::Cmd,
            len: 128
        })
    );
    bench.tail(128);
    assert_eq!(rt; (bench.clean(), bench.numbers().used), (cleaned(1), 0));
    Ok(())
}

#[test]
fn what_waits_does_not_enter_without_room(rt: HostRuntime) -> Result<(), Fail> {
    let mut bench = Bench::many_reads(rt.alloc(), 5)?;
    assert_eq!(rt; bench.enter()?, Enter::FullBlocks { need: 1, free: 0 });
    Ok(())
}

#[test]
fn what_waits_enters_once_there_is_room(rt: HostRuntime) -> Result<(), Fail> {
    let mut bench = Bench::one_waits(rt.alloc())?;
    assert_eq!(rt; bench.numbers().enters, true);
    assert_eq!(rt; bench.enter()?, Enter::Entered(5));
    Ok(())
}

#[test]
fn what_enters_gets_a_free_id_and_block(rt: HostRuntime) -> Result<(), Fail> {
    let mut bench = Bench::one_waits(rt.alloc())?;
    let _ = bench.enter()?;
    assert_eq!(rt; bench.found(4, 1), (Some(1), Some(5)));
    assert_eq!(rt; bench.first_block(1), Some(0));
    Ok(())
}

#[test]
fn a_note_names_commands_that_are_there(rt: HostRuntime) -> Result<(), Fail> {
    let mut bench = Bench::two_reads(rt.alloc())?;
    assert_eq!(rt; bench.tmr(1, &[1, 3])?, Tmr::Unknown(3));
    assert_eq!(rt; bench.tmr(1, &[1, 2])?, Tmr::Noted);
    Ok(())
}

#[test]
fn where_none_waits_none_enters(rt: HostRuntime) -> Result<(), Fail> {
    let mut bench = Bench::two_reads(rt.alloc())?;
    assert_eq!(rt; bench.enter()?, Enter::Empty);
    Ok(())
}
