//! The iovecs of a payload.
ghost use Rattle.std.specs.Prelude.{◌≡◌, ◌+◌, ◌*◌, ◌^◌, ◌<◌, ◌≤◌, [], ◌++◌, length, min};
ghost use Rattle.tcmu_model.specs.Lengths.{blocks_for, block_size};
ghost use Rattle.region_model.specs.Iovecs.{piece, iovs_along, EndBelow, Covers};
ghost use Rattle.iovec_scatter.specs.Growing.{grown, growing, EndsBelow};

use tcmu_types::{BlockList, Iov, Iovs, PAGE};

/// The part of a payload in one block.
fn piece(data_off: u64, size: u64, block: u32, left: u64) -> Iov
    requires size { size ≤ 65536 }
    requires ends { data_off + size * block + min size left < 2 ^ 64 }
    ensures { result ≡ piece data_off size block left }
{
    Iov {
        base: data_off + size * block as u64,
        len: size.min(left),
    }
}

/// Joins the next piece to the iovec before it, or puts that one down.
fn grow(grows: Option<Iov>, next: Iov, into: &mut Iovs) -> Iov
    requires room { growing grows ≤ into.old.spare }
    requires ends { EndsBelow grows }
    requires next_ends { next.base + next.len < 2 ^ 64 }
    ensures list { into.new.items ≡ into.old.items ++ (grown grows next).0 }
    ensures spare { into.old.spare ≤ into.new.spare + growing grows }
    ensures grown { result ≡ (grown grows next).1 }
{
    let Some(last) = grows else {
        return next;
    };
    if last.base + last.len == next.base {
        Iov {
            base: last.base,
            len: last.len + next.len,
        }
    } else {
        into.push(last);
        next
    }
}

/// The iovecs of a payload of `len` bytes along data blocks of `pages` pages of 4096 bytes, which stand from byte `data_off` of the
/// region on: in order, adjacent blocks merged, the last cut. `into` is empty and has room for as many iovecs as there are blocks; the
/// blocks are just as many as `len` needs, of 1 to 16 pages; the iovecs end below 2^64.
pub fn iovs_of(data_off: u64, pages: u32, blocks: &BlockList, len: u32, into: &mut Iovs)
    requires empty { into.old.items ≡ [] }
    requires room { length blocks.now.items ≤ into.old.spare }
    requires least { 1 ≤ pages }
    requires most { pages ≤ 16 }
    requires count { length blocks.now.items ≡ blocks_for pages len }
    requires ends { EndBelow (iovs_along data_off (block_size pages) blocks.now.items len) }
    ensures value { into.new.items ≡ iovs_along data_off (block_size pages) blocks.now.items len }
    ensures covers { Covers data_off (block_size pages) blocks.now.items len into.new.items }
{
    let size = (PAGE * pages) as u64;
    let mut grows: Option<Iov> = None;
    let mut left = len as u64;
    for block in blocks.as_slice() {
        let next = piece(data_off, size, *block, left);
        left = left.saturating_sub(size);
        grows = Some(grow(grows, next, into));
    }
    if let Some(last) = grows {
        into.push(last);
    }
}
