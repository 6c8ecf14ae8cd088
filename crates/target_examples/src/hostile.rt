//! What a hostile user side can write, and what the target answers, on a region with a ring of 4096 bytes.
use crate::fixture::{Bench, answered_with, bad_tail, broken, cleaned};
use std::test::Fail;
use target_side::RingItem;
use tcmu_types::{ItemKind, Submit};

#[test]
fn an_id_of_none_is_a_fault_up_to_a_reset(rt: HostRuntime) -> Result<(), Fail> {
    let mut bench = Bench::two_reads(rt.alloc())?;
    bench.set_id(0, 0);
    bench.tail(128);
    assert_eq!(rt; (bench.clean(), bench.clean()), (broken(0), broken(0)));
    assert_eq!(rt; bench.logged(0), None);
    assert_eq!(rt; bench.reset(1), 2);
    assert_eq!(rt;
        (bench.logged(0), bench.logged(1)),
        (Some((1, 8, 0)), Some((2, 8, 0)))
    );
    Ok(())
}

#[test]
fn a_tail_inside_an_entry_cleans_nothing(rt: HostRuntime) -> Result<(), Fail> {
    let mut bench = Bench::two_reads(rt.alloc())?;
    bench.tail(8);
    assert_eq!(rt; (bench.clean(), bench.clean()), (bad_tail(8), bad_tail(8)));
    assert_eq!(rt; (bench.numbers().pending, bench.logged(0)), (2, None));
    Ok(())
}

#[test]
fn an_id_that_stands_twice_completes_once(rt: HostRuntime) -> Result<(), Fail> {
    let mut bench = Bench::two_reads(rt.alloc())?;
    bench.set_id(128, 1);
    bench.respond(0, 0, 0, 0);
    bench.respond(128, 0, 0, 0);
    bench.tail(256);
    assert_eq!(rt; bench.clean(), broken(1));
    assert_eq!(rt;
        (bench.logged(0), bench.logged(1)),
        (Some((1, 0, 512)), None)
    );
    Ok(())
}

#[test]
fn a_length_above_what_was_asked_counts_as_that(rt: HostRuntime) -> Result<(), Fail> {
    let mut bench = Bench::two_reads(rt.alloc())?;
    bench.respond(0, 2, 0, 4_294_967_295);
    bench.tail(128);
    assert_eq!(rt; bench.clean(), cleaned(1));
    assert_eq!(rt; bench.logged(0), Some((1, 0, 512)));
    assert_eq!(rt; bench.has_zeros(0), true);
    Ok(())
}

#[test]
fn an_unknown_entry_is_a_hardware_error(rt: HostRuntime) -> Result<(), Fail> {
    let mut bench = Bench::two_reads(rt.alloc())?;
    bench.respond(0, 1, 0, 0);
    bench.tail(128);
    assert_eq!(rt; bench.clean(), cleaned(1));
    assert_eq!(rt;
        (bench.logged(0), bench.sense(0)),
        (Some((1, 2, 0)), Some((4, 0x44)))
    );
    Ok(())
}

#[test]
fn a_tail_that_ends_no_item_is_a_fault_that_goes_away(rt: HostRuntime) -> Result<(), Fail> {
    let mut bench = Bench::two_reads(rt.alloc())?;
    bench.respond(0, 0, 0, 0);
    bench.tail(512);
    assert_eq!(rt; bench.clean(), bad_tail(512));
    bench.tail(3);
    assert_eq!(rt; bench.clean(), bad_tail(3));
    bench.tail(128);
    assert_eq!(rt; (bench.clean(), bench.clean()), (cleaned(1), cleaned(0)));
    Ok(())
}

#[test]
fn a_tail_outside_the_ring_cleans_nothing(rt: HostRuntime) -> Result<(), Fail> {
    let mut bench = Bench::two_reads(rt.alloc())?;
    bench.tail(4096);
    assert_eq!(rt; bench.clean(), bad_tail(4096));
    bench.tail(4_294_967_295);
    assert_eq!(rt; bench.clean(), bad_tail(4_294_967_295));
    Ok(())
}

#[test]
fn the_old_end_is_no_tail_after_a_reset(rt: HostRuntime) -> Result<(), Fail> {
    let mut bench = Bench::two_reads(rt.alloc())?;
    bench.tail(256);
    assert_eq!(rt; bench.reset(2), 2);
    assert_eq!(rt; bench.places(), (0, 0, 0));
    bench.tail(256);
    assert_eq!(rt; bench.clean(), bad_tail(256));
    bench.tail(0);
    assert_eq!(rt; bench.clean(), cleaned(0));
    Ok(())
}

#[test]
fn a_repeated_id_completes_once_whatever_expires_between(rt: HostRuntime) -> Result<(), Fail> {
    let mut bench = Bench::two_reads(rt.alloc())?;
    bench.set_id(128, 1);
    bench.respond(0, 0, 0, 0);
    bench.tail(128);
    assert_eq!(rt; bench.clean(), cleaned(1));
    assert_eq!(rt; bench.tick(30), 1);
    bench.tail(256);
    assert_eq!(rt; bench.clean(), broken(1));
    assert_eq!(rt;
        (bench.logged(0), bench.logged(1), bench.logged(2)),
        (Some((1, 0, 512)), Some((2, 2, 0)), None)
    );
    assert_eq!(rt; bench.sense(1), Some((0xb, 8)));
    Ok(())
}

#[test]
fn a_late_answer_of_an_expired_command_is_not_logged(rt: HostRuntime) -> Result<(), Fail> {
    let mut bench = Bench::two_reads(rt.alloc())?;
    assert_eq!(rt; bench.tick(30), 2);
    assert_eq!(rt; (bench.numbers().held, bench.numbers().expired), (2, 2));
    bench.respond(0, 0, 0, 0);
    bench.tail(128);
    assert_eq!(rt; bench.clean(), cleaned(0));
    assert_eq!(rt; (bench.numbers().held, bench.logged(2)), (1, None));
    Ok(())
}

#[test]
fn a_command_that_waits_has_no_id(rt: HostRuntime) -> Result<(), Fail> {
    let mut bench = Bench::many_reads(rt.alloc(), 5)?;
    assert_eq!(rt; bench.numbers().delayed, 1);
    bench.set_id(0, 5);
    bench.tail(128);
    assert_eq!(rt; bench.clean(), broken(5));
    assert_eq!(rt; bench.tick(5), 1);
    assert_eq!(rt; bench.logged(0), Some((5, 0x28, 0)));
    assert_eq!(rt; bench.reset(1), 4);
    Ok(())
}

#[test]
fn of_the_flags_the_two_low_bits_count(rt: HostRuntime) -> Result<(), Fail> {
    for uflags in 0..=255 {
        let want = if uflags % 2 == 1 {
            (1, 2, 0)
        } else if uflags / 2 % 2 == 1 {
            (1, 0, 100)
        } else {
            (1, 0, 512)
        };
        assert_eq!(rt; answered_with(rt.alloc(), uflags, 0, 100)?, Some(want));
    }
    Ok(())
}

#[test]
fn a_length_counts_up_to_what_was_asked(rt: HostRuntime) -> Result<(), Fail> {
    let alloc = rt.alloc();
    assert_eq!(rt; answered_with(alloc, 2, 0, 0)?, Some((1, 0, 0)));
    assert_eq!(rt; answered_with(alloc, 2, 0, 512)?, Some((1, 0, 512)));
    assert_eq!(rt; answered_with(alloc, 2, 0, 513)?, Some((1, 0, 512)));
    assert_eq!(rt; answered_with(alloc, 0, 0, 513)?, Some((1, 0, 512)));
    Ok(())
}

#[test]
fn only_good_has_bytes(rt: HostRuntime) -> Result<(), Fail> {
    let alloc = rt.alloc();
    assert_eq!(rt; answered_with(alloc, 2, 2, 512)?, Some((1, 2, 0)));
    assert_eq!(rt; answered_with(alloc, 2, 8, 512)?, Some((1, 8, 0)));
    assert_eq!(rt; answered_with(alloc, 0, 255, 512)?, Some((1, 255, 0)));
    Ok(())
}

#[test]
fn sense_data_come_with_check_condition_alone(rt: HostRuntime) -> Result<(), Fail> {
    let mut bench = Bench::two_reads(rt.alloc())?;
    // Byte 2 has the sense key in its low four bits, byte 12 the code.
    bench.set_word(128 + 16, 0x00f5_0070);
    bench.set_word(128 + 28, 0x24);
    bench.set_word(256 + 16, 0x00f5_0070);
    bench.respond(0, 0, 2, 0);
    bench.respond(128, 0, 8, 0);
    bench.tail(256);
    assert_eq!(rt; bench.clean(), cleaned(2));
    assert_eq!(rt; (bench.sense(0), bench.sense(1)), (Some((5, 0x24)), None));
    Ok(())
}

#[test]
fn a_tail_behind_a_note_cleans_it(rt: HostRuntime) -> Result<(), Fail> {
    let mut bench = Bench::reads_with_note(rt.alloc())?;
    bench.set_word(128 + 128, 0xffff_ffff);
    bench.respond(0, 0, 0, 0);
    bench.tail(128 + 40);
    assert_eq!(rt; bench.clean(), cleaned(1));
    assert_eq!(rt;
        bench.item(0),
        Some(RingItem {
            at: 168,
            kind: ItemKind::Cmd,
            len: 128
        })
    );
    assert_eq!(rt; (bench.item(1), bench.numbers().cleaned), (None, 168));
    Ok(())
}

#[test]
fn behind_a_broken_entry_commands_still_expire_and_are_reset(rt: HostRuntime) -> Result<(), Fail> {
    let mut bench = Bench::two_reads(rt.alloc())?;
    bench.set_id(0, 0);
    bench.tail(256);
    assert_eq!(rt; bench.clean(), broken(0));
    bench.set_id(0, 1);
    assert_eq!(rt; bench.clean(), broken(0));
    assert_eq!(rt; bench.tick(30), 2);
    assert_eq!(rt; (bench.clean(), bench.reset(1)), (broken(0), 0));
    assert_eq!(rt;
        (bench.logged(0), bench.logged(1), bench.logged(2)),
        (Some((1, 2, 0)), Some((2, 2, 0)), None)
    );
    Ok(())
}

#[test]
fn lengths_and_kinds_in_the_ring_are_not_read(rt: HostRuntime) -> Result<(), Fail> {
    let mut bench = Bench::two_reads(rt.alloc())?;
    bench.set_word(128, 8);
    bench.set_word(256, 0xffff_ffff);
    bench.respond(0, 0, 0, 0);
    bench.respond(128, 0, 0, 0);
    bench.tail(256);
    assert_eq!(rt; bench.clean(), cleaned(2));
    assert_eq!(rt;
        (bench.logged(0), bench.logged(1)),
        (Some((1, 0, 512)), Some((2, 0, 512)))
    );
    Ok(())
}

#[test]
fn ids_that_are_exchanged_complete_their_own_commands(rt: HostRuntime) -> Result<(), Fail> {
    let mut bench = Bench::two_reads(rt.alloc())?;
    bench.set_id(0, 2);
    bench.set_id(128, 1);
    bench.respond(0, 0, 8, 0);
    bench.respond(128, 0, 0, 0);
    bench.tail(256);
    assert_eq!(rt; bench.clean(), cleaned(2));
    assert_eq!(rt;
        (bench.logged(0), bench.logged(1)),
        (Some((2, 8, 0)), Some((1, 0, 512)))
    );
    Ok(())
}

#[test]
fn a_head_that_was_overwritten_is_written_again(rt: HostRuntime) -> Result<(), Fail> {
    let mut bench = Bench::new(rt.alloc(), 0)?;
    let _ = bench.submit(1)?;
    bench.head(7);
    assert_eq!(rt; bench.submit(2)?, Submit::Queued(2));
    assert_eq!(rt; (bench.places().0, bench.numbers().head), (256, 256));
    Ok(())
}

#[test]
fn a_payload_is_of_the_commands_own_blocks(rt: HostRuntime) -> Result<(), Fail> {
    let mut bench = Bench::two_reads(rt.alloc())?;
    // The first entry's iovec names the second command's block.
    bench.set_word(128 + 48, 8192 + 4096);
    bench.fill(0, 7);
    bench.fill(1, 9);
    bench.respond(0, 0, 0, 0);
    bench.tail(128);
    assert_eq!(rt; bench.clean(), cleaned(1));
    assert_eq!(rt; bench.first_byte(0), Some(7));
    Ok(())
}

#[test]
fn a_tail_past_an_entry_without_an_answer_reads_the_request(rt: HostRuntime) -> Result<(), Fail> {
    let mut bench = Bench::two_reads(rt.alloc())?;
    bench.tail(128);
    assert_eq!(rt; bench.clean(), cleaned(1));
    // Where an answer has its status, a request has the count of its iovecs.
    assert_eq!(rt; bench.logged(0), Some((1, 1, 0)));
    Ok(())
}
