//! The plain functions on worked lengths, and the laws of runs at a handler's relation.
ghost use Rattle.std.specs.Prelude.{◌≡◌, []};

use std::alloc::Global;
use std::test::Fail;
use tcmu_model::{
    Answering, asked_law, block_lists_alone, block_lists_law, blocks_of, cause_law, drain_empties,
    drain_ends, drain_goes_on, entry_length, journal_law, plain, runs_keep_sound, tmr_length,
};
use tcmu_types::{Bytes, Cdb, Command, Name};

/// A handler that answers GOOD without bytes, and leaves its medium.
struct Idle;

impl Answering for Idle {
    ghost relation = { λ name before request reply after. (reply.status ≡ 0) × (reply.payload ≡ []) × (after ≡ before) };
}

#[test]
fn laws_hold_for_a_handler() {
    runs_keep_sound::<Idle>();
    block_lists_law::<Idle>();
    block_lists_alone::<Idle, Idle>();
    drain_ends::<Idle>();
    drain_goes_on::<Idle>();
    drain_empties::<Idle>();
    journal_law::<Idle>();
    cause_law::<Idle>();
    asked_law::<Idle>();
}

/// A READ(10) that asks for so many bytes.
fn read(alloc: Global, in_len: u32) -> Option<Command> {
    let cdb = Cdb::new(&[0x28, 0, 0, 0, 0, 0, 0, 0, 1, 0]).ok()?;
    Command::new(Name::new("a")?, 1, cdb, Bytes::new(alloc), in_len)
}

#[test]
fn lengths_of_commands(rt: HostRuntime) -> Result<(), Fail> {
    for (in_len, pages, blocks, length) in [
        (512u32, 1u32, 1u32, 128u32),
        (20480, 1, 5, 144),
        (65536, 1, 16, 320),
        (1048576, 1, 256, 4160),
        (8192, 2, 1, 128),
        (8193, 2, 2, 128),
    ] {
        let command = read(rt.alloc(), in_len).ok_or("a command")?;
        assert_eq!(rt; blocks_of(&command, pages), blocks);
        assert_eq!(rt; entry_length(&command, pages), length);
    }
    Ok(())
}

#[test]
fn lengths_of_notes(rt: HostRuntime) {
    for (count, length) in [(0u32, 32u32), (1, 40), (4, 40), (5, 48)] {
        assert_eq!(rt; tmr_length(count), length);
    }
}

#[test]
fn room_of_a_ring(rt: HostRuntime) {
    let full = [128; 31];
    assert_eq!(rt;
        (plain::head(4096, &full), plain::used(&full, 0)),
        (3968, 3968)
    );
    assert_eq!(rt;
        (plain::need(4096, &full, 128), plain::free(4096, &full, 0)),
        (128, 127)
    );
    assert!(rt; !plain::fits(4096, &full, 0, 128) && plain::fits(4096, &full, 1, 128));
}

#[test]
fn padding_of_an_item(rt: HostRuntime) {
    let turned = [144; 28];
    assert_eq!(rt;
        (plain::head(4096, &turned), plain::pad(4096, &turned, 144)),
        (4032, 64)
    );
    assert_eq!(rt;
        (
            plain::pad(4096, &turned, 64),
            plain::need(4096, &turned, 144)
        ),
        (0, 208)
    );
    let nearly = [2048, 2040];
    assert_eq!(rt;
        (
            plain::pad(4096, &nearly, 120),
            plain::need(4096, &nearly, 120)
        ),
        (8, 128)
    );
    assert_eq!(rt; plain::free(4096, &nearly, 0), 7);
    assert!(rt; !plain::fits(4096, &nearly, 0, 120));
}

#[test]
fn free_blocks(rt: HostRuntime) {
    assert!(rt; plain::is_held(&[2, 0], 2) && !plain::is_held(&[2, 0], 1));
    for (held, limit, free) in [
        ([0, 1], 4, Some(2)),
        ([0, 2], 4, Some(1)),
        ([1, 2], 4, Some(0)),
        ([0, 1], 2, None),
    ] {
        assert_eq!(rt; plain::first_free(&held, limit), free);
    }
}
