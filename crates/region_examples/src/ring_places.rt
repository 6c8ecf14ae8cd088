//! Lengths that fill a ring of a page, with where they come to lie.
ghost use Rattle.std.specs.Prelude.{◌≡◌};
ghost use Rattle.cmd_ring.specs.Places.{IsItemLength};

use cmd_ring::{Place, Ring, Room};
use std::test::Fail;
use tcmu_model::plain;

/// Lays an item where there is room.
fn lay(ring: &mut Ring, len: u32) -> Option<Place>
    requires { IsItemLength ring.old.size len }
    ensures { ring.new.size ≡ ring.old.size }
{
    match ring.room(len) {
        Room::Lacks { .. } => None,
        Room::Fits => Some(ring.place(len)),
        Room::FitsAfterPad(_) => Some(ring.place(len)),
    }
}

/// Lays so many items of this length, and says how many had room.
fn lay_all(ring: &mut Ring, len: u32, count: u32) -> u32
    requires { IsItemLength ring.old.size len }
    ensures { ring.new.size ≡ ring.old.size }
{
    let mut laid = 0;
    for _ in 0..count {
        if lay(ring, len).is_some() {
            laid += 1;
        }
    }
    laid
}

/// Lays an item in an empty ring and gives its bytes back.
fn pass(ring: &mut Ring, len: u32)
    requires { IsItemLength ring.old.size len }
    ensures { ring.new.size ≡ ring.old.size }
{
    if lay(ring, len).is_some() && ring.used() == len {
        ring.advance_clean(len);
    }
}

#[test]
fn the_last_byte_is_never_used(rt: HostRuntime) -> Result<(), Fail> {
    let mut ring = Ring::new(4096);
    assert_eq!(rt; lay_all(&mut ring, 128, 31), 31);
    assert_eq!(rt;
        ring.room(128),
        Room::Lacks {
            need: 128,
            free: 127
        }
    );
    assert_eq!(rt;
        (ring.head(), ring.cleaned(), ring.used(), ring.free()),
        (3968, 0, 3968, 127)
    );
    let laid = [128; 31];
    assert_eq!(rt;
        (ring.head() as u64, ring.used() as u64, ring.free() as u64),
        (
            plain::head(4096, &laid),
            plain::used(&laid, 0),
            plain::free(4096, &laid, 0)
        )
    );
    assert!(rt; !plain::fits(4096, &laid, 0, 128));
    ring.reset();
    assert_eq!(rt;
        (ring.head(), ring.cleaned(), ring.used(), ring.free()),
        (0, 0, 0, 4095)
    );
    Ok(())
}

#[test]
fn an_item_lies_behind_padding_at_the_start(rt: HostRuntime) -> Result<(), Fail> {
    let mut ring = Ring::new(4096);
    for _ in 0..28 {
        pass(&mut ring, 144);
    }
    assert_eq!(rt; (ring.head(), ring.cleaned(), ring.used()), (4032, 4032, 0));
    let laid = [144; 28];
    assert_eq!(rt;
        (plain::head(4096, &laid), plain::pad(4096, &laid, 144)),
        (4032, 64)
    );
    assert_eq!(rt; ring.room(144), Room::FitsAfterPad(64));
    assert_eq!(rt;
        lay(&mut ring, 144),
        Some(Place {
            pad: Some(64),
            pad_at: 4032,
            at: 0
        })
    );
    assert_eq!(rt;
        (ring.head(), ring.cleaned(), ring.used(), ring.free()),
        (144, 4032, 208, 3887)
    );
    Ok(())
}

#[test]
fn an_item_fits_exactly(rt: HostRuntime) -> Result<(), Fail> {
    let mut ring = Ring::new(4096);
    assert_eq!(rt; lay_all(&mut ring, 128, 30), 30);
    assert_eq!(rt;
        lay(&mut ring, 120),
        Some(Place {
            pad: None,
            pad_at: 3840,
            at: 3840
        })
    );
    assert_eq!(rt; (ring.used(), ring.free()), (3960, 135));
    assert_eq!(rt; ring.room(128), Room::Fits);
    assert_eq!(rt;
        lay(&mut ring, 128),
        Some(Place {
            pad: None,
            pad_at: 3960,
            at: 3960
        })
    );
    assert_eq!(rt; (ring.head(), ring.free()), (4088, 7));
    assert_eq!(rt; ring.room(120), Room::Lacks { need: 128, free: 7 });
    Ok(())
}
