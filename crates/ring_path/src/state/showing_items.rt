//! The items of a ring, as a dump shows them: along the target's record, each with its command ids as zero.
ghost use Rattle.std.specs.Prelude.{◌≡◌, ◌≤◌, ◌<◌, ◌+◌, ◌*◌, ◌^◌, length, take, drop, IfOk};
ghost use Rattle.tcmu_types.specs.ByteFields.{field, put};
ghost use Rattle.tcmu_types.specs.Overwriting.{zeros};
ghost use Rattle.region_model.specs.Layout.{ring_start};
ghost use Rattle.region_model.specs.Represents.{entry_at};
ghost use Rattle.ring_laws.specs.PictureRead.{items_read, without_ids};
ghost use Rattle.ring_path.specs.Dumped.{HasCount, HaveCounts};

use mailbox_bytes::MAILBOX_LEN;
use std::alloc::Global;
use target_side::{RingItem, Target};
use tcmu_types::little_endian::le_u32_at;
use tcmu_types::{Bytes, Item, ItemKind, Items, NoMemory};

/// The bytes from a place on; none behind the end.
fn behind(bytes: &[u8], at: usize) -> &[u8]
    ensures { result.now ≡ drop at bytes.now }
{
    if at < bytes.len() { &bytes[at..] } else { &[] }
}

/// The first bytes, at most so many.
pub(super) fn first(bytes: &[u8], count: usize) -> &[u8]
    ensures { result.now ≡ take count bytes.now }
{
    if count < bytes.len() {
        &bytes[..count]
    } else {
        bytes
    }
}

/// The bytes of an item of so many bytes at a ring offset.
fn entry_at(front: &[u8], at: u32, len: u32) -> &[u8]
    ensures { result.now ≡ entry_at front.now at len }
{
    first(behind(front, MAILBOX_LEN + at as usize), len as usize)
}

/// A copy with so many zeros in the place of the bytes from a place on.
fn with_zeros(alloc: Global, bytes: &[u8], at: usize, count: usize) -> Result<Bytes, NoMemory>
    requires at { at < 2 ^ 32 }
    requires count { count < 2 ^ 40 }
    ensures { IfOk result (λ copy. copy.items ≡ put bytes.now at (zeros count)) }
{
    let front = first(bytes, at);
    let rest = behind(bytes, at + count);
    let mut copy = Bytes::new(alloc);
    copy.reserve((front.len() + count + rest.len()) as u64)?;
    copy.extend(front);
    copy.fill(0, count);
    copy.extend(rest);
    Ok(copy)
}

/// A copy of an entry with its command ids as zero: its own, or those that a note names.
fn without_ids(alloc: Global, kind: ItemKind, entry: &[u8]) -> Result<Bytes, NoMemory>
    requires { HasCount kind entry.now }
    ensures { IfOk result (λ copy. copy.items ≡ without_ids kind entry.now) }
{
    match kind {
        ItemKind::Pad => Bytes::from_slice(alloc, entry),
        ItemKind::Cmd => with_zeros(alloc, entry, 4, 2),
        ItemKind::Tmr => with_zeros(alloc, entry, 32, 2 * le_u32_at(entry, 12) as usize),
    }
}

/// An item as a dump shows it.
fn item_of(alloc: Global, front: &[u8], item: RingItem) -> Result<Item, NoMemory>
    requires { HasCount item.kind (entry_at front.now item.at item.len) }
    ensures at { IfOk result (λ x. x.at ≡ item.at) }
    ensures kind { IfOk result (λ x. x.kind ≡ item.kind) }
    ensures bytes { IfOk result (λ x. x.bytes ≡ without_ids item.kind (entry_at front.now item.at item.len)) }
{
    let bytes = without_ids(alloc, item.kind, entry_at(front, item.at, item.len))?;
    Ok(Item {
        at: item.at,
        kind: item.kind,
        bytes,
    })
}

/// The items that are not cleared, in ring order.
pub(super) fn items_of(alloc: Global, front: &[u8], target: &Target) -> Result<Items, NoMemory>
    requires { HaveCounts front.now target.now.settings.ring target.now.cleaned target.now.items }
    ensures { IfOk result (λ xs. xs.items ≡ items_read front.now target.now.settings.ring target.now.cleaned target.now.items) }
{
    let mut items = Items::new(alloc);
    // An item has a byte at least, so there are no more of them than bytes in use.
    for index in 0..target.numbers().used {
        match target.item(index) {
            Some(item) => {
                items.reserve(1)?;
                items.push(item_of(alloc, front, item)?);
            }
            None => return Ok(items),
        }
    }
    Ok(items)
}
