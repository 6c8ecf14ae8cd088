//! What the target writes into the region: entries with the padding before them, and the data of commands.
ghost use Rattle.std.specs.Prelude.{◌≡◌, ◌+◌, ◌*◌, ◌%◌, ◌<◌, ◌≤◌, ◌^◌, length, IfSome};
ghost use Rattle.tcmu_types.specs.ByteFields.{put};
ghost use Rattle.tcmu_model.specs.Lengths.{tmr_length};
ghost use Rattle.region_model.specs.Areas.{written_along};
ghost use Rattle.region_model.specs.Layout.{ring_start, command_bytes, command_length, pad_bytes, tmr_bytes};
ghost use Rattle.region_model.specs.Regions.{size_of};
ghost use Rattle.target_side.specs.Writing.{data_for, with_padding};

use cmd_ring::Place;
use entry_codec::{write_pad, write_request, write_tmr};
use shm_region::Region;
use tcmu_types::{BlockList, Cdb, Command, Ids, Iovs, takes_payload};

/// Writes padding at a ring offset.
fn put_pad(region: &mut Region, at: u32, len: u32)
    requires least { 8 ≤ len }
    requires aligned { len % 8 ≡ 0 }
    requires inside { ring_start + at + len ≤ length region.old.front }
    ensures { region.new ≡ record region.old { front = put region.old.front (ring_start + at) (pad_bytes len) } }
{
    write_pad(region.front_mut(), at, len);
}

/// Writes the padding before an item, where there is some.
pub(crate) fn put_padding(region: &mut Region, place: Place)
    requires words { IfSome place.pad (λ pad. (8 ≤ pad) × (pad % 8 ≡ 0)) }
    requires inside { IfSome place.pad (λ pad. ring_start + place.pad_at + pad ≤ length region.old.front) }
    ensures value { region.new ≡ record region.old { front = with_padding region.old.front place } }
    ensures front { length region.new.front ≡ length region.old.front }
{
    if let Some(pad) = place.pad {
        put_pad(region, place.pad_at, pad);
    }
}

/// Writes a command's entry at a ring offset, with so many slots for iovecs.
pub(crate) fn put_request(region: &mut Region, at: u32, id: u16, slots: u32, iovs: &Iovs, cdb: &Cdb)
    requires slots { length iovs.now.items ≤ slots }
    requires inside { ring_start + at + command_length slots (length cdb.now) ≤ length region.old.front }
    requires fits { command_length slots (length cdb.now) < 2 ^ 32 }
    ensures { region.new ≡ record region.old { front = put region.old.front (ring_start + at) (command_bytes at id slots iovs.now.items cdb.now) } }
{
    write_request(region.front_mut(), at, id, slots, iovs, cdb);
}

/// Writes a task management entry of a type at a ring offset.
pub(crate) fn put_tmr(region: &mut Region, at: u32, kind: u8, ids: &Ids)
    requires inside { ring_start + at + tmr_length (length ids.now.items) ≤ length region.old.front }
    requires fits { tmr_length (length ids.now.items) < 2 ^ 32 }
    ensures { region.new ≡ record region.old { front = put region.old.front (ring_start + at) (tmr_bytes kind ids.now.items) } }
{
    write_tmr(region.front_mut(), at, kind, ids);
}

/// Writes what a command sends along its blocks, or makes them zero, where it sends nothing.
pub(crate) fn put_data(region: &mut Region, blocks: &BlockList, command: &Command)
    ensures { region.new ≡ record region.old { blocks = written_along (size_of region.old) region.old.blocks blocks.now.items (data_for (size_of region.old) command.now (length blocks.now.items)) } }
{
    if takes_payload(command.cdb()) {
        region.write_blocks(blocks, command.sent().as_slice());
    } else {
        region.clear_blocks(blocks);
    }
}
