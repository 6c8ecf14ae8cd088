//! Plain, slow functions beside the definitions, for tests to compare the fast code with: a ring's room from the lengths of all
//! items that were laid in it, and the search for a free block. Lengths and places are in bytes.
ghost use Rattle.std.specs.Prelude.{◌≡◌, ◌<◌, ◌≤◌, ◌^◌, ℕ, length};
ghost use Rattle.tcmu_model.specs.RingState.{items_of, ring_of, lengths, head, used, free, pad, need, fits};
ghost use Rattle.tcmu_types.specs.Numbers.{is_among};
ghost use Rattle.tcmu_model.specs.BlockLists.{first_free};

/// The bytes of items of these lengths.
fn total(laid: &[u32]) -> u64
    requires { length laid.now < 2 ^ 32 }
    ensures { result ≡ lengths (items_of laid.now) }
{
    let mut sum = 0;
    for len in laid {
        sum += *len as u64;
    }
    sum
}

/// Where the next item begins in a ring in which items of these lengths were laid.
pub fn head(size: u32, laid: &[u32]) -> u64
    requires size { 0 < size }
    requires range { length laid.now < 2 ^ 32 }
    ensures { result ≡ head (ring_of size laid.now 0) }
{
    total(laid) % size as u64
}

/// The bytes of the items that are not cleared, where so many of the oldest are.
pub fn used(laid: &[u32], cleared: usize) -> u64
    requires front { cleared ≤ length laid.now }
    requires range { length laid.now < 2 ^ 32 }
    ensures { (size : ℕ) → result ≡ used (ring_of size laid.now cleared) }
{
    total(&laid[cleared..])
}

/// How many more bytes can be used. One never is, so that a full ring differs from an empty one.
pub fn free(size: u32, laid: &[u32], cleared: usize) -> u64
    requires front { cleared ≤ length laid.now }
    requires range { length laid.now < 2 ^ 32 }
    ensures { result ≡ free (ring_of size laid.now cleared) }
{
    (size as u64)
        .saturating_sub(used(laid, cleared))
        .saturating_sub(1)
}

/// The padding that goes before an item of `len` bytes.
pub fn pad(size: u32, laid: &[u32], len: u32) -> u64
    requires size { 0 < size }
    requires range { length laid.now < 2 ^ 32 }
    ensures { result ≡ pad (ring_of size laid.now 0) len }
{
    let left = size as u64 - head(size, laid);
    if left < len as u64 { left } else { 0 }
}

/// What an item of `len` bytes needs with its padding.
pub fn need(size: u32, laid: &[u32], len: u32) -> u64
    requires size { 0 < size }
    requires range { length laid.now < 2 ^ 32 }
    ensures { result ≡ need (ring_of size laid.now 0) len }
{
    pad(size, laid, len) + len as u64
}

/// Whether an item of `len` bytes has room, where so many of the oldest items are cleared.
pub fn fits(size: u32, laid: &[u32], cleared: usize, len: u32) -> bool
    requires size { 0 < size }
    requires front { cleared ≤ length laid.now }
    requires range { length laid.now < 2 ^ 32 }
    ensures { result ≡ fits (ring_of size laid.now cleared) len }
{
    need(size, laid, len) <= free(size, laid, cleared)
}

/// Whether the block stands in the list.
pub fn is_held(held: &[u32], block: u32) -> bool
    ensures { result ≡ is_among held.now block }
{
    held.iter().any(|number| *number == block)
}

/// The least number below the limit that does not stand in the list.
#[tactic(auto, using(crate::proofs::RoomSearch::passes_held, crate::proofs::RoomSearch::finds_free))]
pub fn first_free(held: &[u32], limit: u32) -> Option<u32>
    ensures { result ≡ first_free limit held.now }
{
    for number in 0..limit {
        if !is_held(held, number) {
            return Some(number);
        }
    }
    None
}
