//! The region of one device.
ghost use Rattle.std.specs.Prelude.{◌≡◌, [], ◌∷◌, ◌+◌, ◌-◌, ◌*◌, ◌^◌, ◌<◌, ◌≤◌, ◌++◌, length, slice_get, Some, None, true, IfSome, IsSome, is_ok, is_some, option_map, if◌then◌else◌, IfOk, OnOk, OnErr};
ghost use Rattle.region_model.specs.Layout.{flag_bits, head_place, tail_place, data_start, mailbox_bytes, device_mailbox};
ghost use Rattle.tcmu_types.specs.ByteFields.{le, field, put, padded};
ghost use Rattle.tcmu_types.specs.Overwriting.{zeros};
ghost use Rattle.region_model.specs.Regions.{RegionState, IsRegion, size_of, bytes_of, block_at, home, is_home, put_home, opening_region, cleared, grown_to, shrunk_to, with_block, overlaid};
ghost use Rattle.region_model.specs.Areas.{over};
ghost use Rattle.std.specs.Borrow.{sem};
ghost use Rattle.shm_region.specs.Places.{LendsHome, LendsBytesIn};

use iovec_scatter::Block;
use mailbox_bytes::{HEAD, MAILBOX_LEN, Mailbox, TAIL, write};
use std::alloc::Global;
use std::marker::Model;
use tcmu_types::little_endian::{le_u32_at, put_bytes, put_u32};
use tcmu_types::{Flags, NoMemory, PAGE, Settings};

/// The front, which is the mailbox and the command ring, and the data blocks, each at home or lent. Contracts see the bytes of both,
/// and which blocks are lent.
#[derive(Drop)]
pub struct Region {
    front: Vec<u8>,
    blocks: Vec<Option<Block>>,
    pages: u32,
}

impl Model for Region {
    ghost use Rattle.region_model.specs.Regions.{RegionState, IsRegion};

    ghost Value = { RegionState };

    ghost view = { λ a. record { front = a.front.items; blocks = a.blocks.items; pages = a.pages } };

    ghost invariant = { λ a. IsRegion a.front.items a.blocks.items a.pages };
}

/// The flags as the mailbox has them: bit 0 for completions in any order, bit 1 for read lengths, bit 2 for task management.
fn flag_bits(flags: Flags) -> u16
    ensures { result ≡ flag_bits flags }
{
    let ooo = if flags.ooo { 1 } else { 0 };
    let read_len = if flags.read_len { 2 } else { 0 };
    let tmr = if flags.tmr { 4 } else { 0 };
    ooo + read_len + tmr
}

/// The bytes before the data area of a new region.
fn new_front(alloc: Global, flags: Flags, ring: u32) -> Result<Vec<u8>, NoMemory>
    requires { ring ≤ 4194304 }
    ensures { IfOk result (λ v. v.items ≡ padded (data_start ring) (mailbox_bytes (device_mailbox flags ring 0 0))) }
{
    let mut front = vec![in alloc; 0; (PAGE + ring) as usize]?;
    let mailbox = Mailbox {
        version: 2,
        flags: flag_bits(flags),
        cmdr_off: MAILBOX_LEN as u32,
        cmdr_size: ring,
        head: 0,
        tail: 0,
    };
    write(&mailbox, &mut front);
    Ok(front)
}

/// Writes the part of bytes that falls into a part of the region, which begins at byte `place`; the bytes go from byte `at` on.
fn overlay(part: &mut [u8], place: u64, at: u64, bytes: &[u8])
    ensures { part.new ≡ overlaid place at bytes.now part.old }
{
    let start = at.saturating_sub(place);
    let skip = place.saturating_sub(at);
    if start >= part.len() as u64 || skip >= bytes.len() as u64 {
        return;
    }
    let rest = &bytes[skip as usize..];
    let count = rest.len().min(part.len() - start as usize);
    put_bytes(part, start as usize, &rest[..count]);
}

/// The same for a block.
fn overlay_of(block: &mut Block, place: u64, at: u64, bytes: &[u8])
    ensures { block.new ≡ overlaid place at bytes.now block.old }
{
    overlay(block.as_mut_slice(), place, at, bytes);
}

/// Appends a block.
fn append(blocks: &mut Vec<Option<Block>>, block: Block) -> Result<(), NoMemory>
    ensures { blocks.new.items ≡ (if is_ok result then blocks.old.items ++ Some block ∷ [] else blocks.old.items) }
{
    match blocks.push(Some(block)) {
        Ok(()) => Ok(()),
        Err(_) => Err(NoMemory),
    }
}

/// The block in a place that is not lent.
fn home_of(place: &mut Option<Block>) -> &mut Block
    requires { IsSome place.old }
    ensures* writes_back { sem 𝓛 (LendsHome place.entry result) }
    ensures value { place.old ≡ Some result.now }
{
    match place {
        Some(block) => block,
        None => unreachable!(),
    }
}

/// The bytes of such a block.
fn bytes_in(place: &mut Option<Block>) -> &mut [u8]
    requires { IsSome place.old }
    ensures* writes_back { sem 𝓛 (LendsBytesIn place.entry result) }
    ensures value { place.old ≡ Some result.now }
{
    home_of(place).as_mut_slice()
}

impl Region {
    ghost use Rattle.std.specs.Borrow.{sem};
    ghost use Rattle.shm_region.specs.Lends.{LendsFront, LendsBlock, LendsArea};

    /// A new region: the mailbox with the settings' values, an empty ring, zeros up to the data area, and no block.
    pub fn new(alloc: Global, settings: Settings) -> Result<Region, NoMemory>
        ensures { IfOk result (λ r. r ≡ opening_region settings) }
    {
        let front = new_front(alloc, settings.flags, settings.ring)?;
        Ok(Region {
            front,
            blocks: Vec::new(alloc),
            pages: settings.pages,
        })
    }

    /// The bytes before the data area: the mailbox, the command ring, and what lies behind it up to a whole page.
    pub fn front(&self) -> &[u8]
        ensures front { result.now ≡ self.now.front }
        ensures mailbox { 4096 ≤ length self.now.front }
    {
        self.front.as_slice()
    }

    /// The same bytes, to write over. Their number stays, and so do all blocks.
    pub fn front_mut(&mut self) -> &mut [u8]
        ensures* writes_back { sem 𝓛 (LendsFront self.entry result) }
        ensures value { result.now ≡ self.old.front }
    {
        self.front.as_mut_slice()
    }

    /// The byte of the region at which the data area begins. The clause `limits` is the invariant of every region.
    pub fn data_off(&self) -> u64
        ensures value { result ≡ length self.now.front }
        ensures limits { IsRegion self.now.front self.now.blocks self.now.pages }
    {
        self.front.len() as u64
    }

    /// How many bytes the data area has, those of lent blocks too. It ends where the region ends.
    pub fn area_len(&self) -> u64
        ensures value { result ≡ size_of self.now * length self.now.blocks }
        ensures end { length (bytes_of self.now) ≡ length self.now.front + result }
    {
        // What this call ensures is used: the limits of every region.
        let _ = self.data_off();
        (PAGE * self.pages) as u64 * self.blocks.len() as u64
    }

    /// How many bytes a block has.
    pub fn block_len(&self) -> u64
        ensures value { result ≡ size_of self.now }
        ensures least { 4096 ≤ result }
        ensures most { result ≤ 65536 }
    {
        (PAGE * self.pages) as u64
    }

    /// How many places for blocks there are, lent or not.
    pub(crate) fn block_count(&self) -> u64
        ensures { result ≡ length self.now.blocks }
    {
        self.blocks.len() as u64
    }

    /// The head that stands in the mailbox, whoever wrote it: a byte offset in the ring, if it is sound.
    pub fn head(&self) -> u32
        ensures { result ≡ field 4 head_place self.now.front }
    {
        le_u32_at(&self.front, HEAD)
    }

    /// The tail that stands in the mailbox, whoever wrote it: a byte offset in the ring, if it is sound.
    pub fn tail(&self) -> u32
        ensures { result ≡ field 4 tail_place self.now.front }
    {
        le_u32_at(&self.front, TAIL)
    }

    /// Writes the head of the mailbox, a byte offset in the ring that is not judged here, and no other byte.
    pub fn set_head(&mut self, at: u32)
        ensures { self.new ≡ record self.old { front = put self.old.front head_place (le 4 at) } }
    {
        put_u32(&mut self.front, HEAD, at);
    }

    /// Writes the tail of the mailbox, a byte offset in the ring that is not judged here, and no other byte.
    pub fn set_tail(&mut self, at: u32)
        ensures { self.new ≡ record self.old { front = put self.old.front tail_place (le 4 at) } }
    {
        put_u32(&mut self.front, TAIL, at);
    }

    /// Writes bytes over those of the front from byte `at` on.
    pub fn write_front(&mut self, at: u64, bytes: &[u8])
        requires { at + length bytes.now ≤ length self.old.front }
        ensures { self.new ≡ record self.old { front = put self.old.front at bytes.now } }
    {
        put_bytes(&mut self.front, at as usize, bytes);
    }

    /// The bytes of the block in a place, if it is at home.
    pub(crate) fn home(&self, block: u64) -> Option<&[u8]>
        ensures { option_map (λ b. b.now) result ≡ block_at self.now block }
    {
        match self.blocks.get(block as usize) {
            Some(Some(block)) => Some(block.as_slice()),
            _ => None,
        }
    }

    /// The same, with the block's size.
    pub(crate) fn home_block(&self, block: u64) -> Option<&[u8]>
        ensures value { option_map (λ b. b.now) result ≡ block_at self.now block }
        ensures size { IfSome result (λ b. length b.now ≡ size_of self.now) }
    {
        // What this call ensures is used: the limits of every region.
        let _ = self.data_off();
        self.home(block)
    }

    /// The bytes of a block; None exactly where it is lent or not there.
    pub fn area(&self, block: u32) -> Option<&[u8]>
        ensures { option_map (λ b. b.now) result ≡ block_at self.now block }
    {
        self.home(block as u64)
    }

    /// The bytes of a block to write over; None exactly where it is lent or not there.
    pub fn area_mut(&mut self, block: u32) -> Option<&mut [u8]>
        ensures* writes_back { sem 𝓛 (LendsArea self.entry block result) }
        ensures value { option_map (λ b. b.now) result ≡ block_at self.old block }
    {
        if self.is_home(block) {
            Some(self.bytes_at(block))
        } else {
            None
        }
    }

    /// Whether a block is in the area and not lent.
    fn is_home(&self, block: u32) -> bool
        ensures { result ≡ is_home (slice_get self.now.blocks block) }
    {
        matches!(self.blocks.get(block as usize), Some(Some(_)))
    }

    /// The bytes of a block that is at home, to write over.
    fn bytes_at(&mut self, block: u32) -> &mut [u8]
        requires { is_home (slice_get self.old.blocks block) ≡ true }
        ensures* writes_back { sem 𝓛 (LendsBlock self.entry block result) }
        ensures value { block_at self.old block ≡ Some result.now }
    {
        bytes_in(&mut self.blocks[block as usize])
    }

    /// Drops the last blocks, lent or not, until there are at most `blocks`.
    pub fn shrink(&mut self, blocks: u32)
        ensures { self.new ≡ shrunk_to self.old blocks }
    {
        self.blocks.truncate(blocks as usize);
    }

    /// Takes a block out, where it is at home.
    fn take_block(&mut self, block: u64) -> Option<Block>
        requires { block < length self.old.blocks }
        ensures block { slice_get self.old.blocks block ≡ Some result }
        ensures region { self.new ≡ with_block self.old block None }
        ensures size { IfSome result (λ b. length b ≡ size_of self.old) }
    {
        std::mem::replace(&mut self.blocks[block as usize], None)
    }

    /// Puts a block to its place.
    fn put_block(&mut self, block: u64, bytes: Block)
        requires place { block < length self.old.blocks }
        requires size { length bytes ≡ size_of self.old }
        ensures region { self.new ≡ with_block self.old block (Some bytes) }
    {
        self.blocks[block as usize] = Some(bytes);
    }

    /// Adds a block of zeros, which memory may lack for.
    fn add_block(&mut self, alloc: Global) -> Result<(), NoMemory>
        requires { length self.old.blocks + 1 < 2 ^ 32 }
        ensures ok { OnOk result (self.new ≡ record self.old { blocks = self.old.blocks ++ Some (zeros (size_of self.old)) ∷ [] }) }
        ensures err { OnErr result (self.new ≡ self.old) }
    {
        let block = Block::zeros(alloc, (PAGE * self.pages) as usize)?;
        append(&mut self.blocks, block)
    }

    /// Adds blocks of zeros until there are so many; where memory lacks nothing changes.
    pub fn grow(&mut self, alloc: Global, blocks: u32) -> Result<(), NoMemory>
        ensures ok { OnOk result (self.new ≡ grown_to self.old blocks) }
        ensures err { OnErr result (self.new ≡ self.old) }
    {
        let before = self.blocks.len() as u32;
        for _ in before..blocks {
            if self.add_block(alloc).is_err() {
                self.shrink(before);
                return Err(NoMemory);
            }
        }
        Ok(())
    }

    /// Takes a block out, or finds it lent or not there.
    pub(crate) fn take_home(&mut self, block: u64) -> Option<Block>
        ensures found { is_some result ≡ is_home (slice_get self.old.blocks block) }
        ensures block { result ≡ home (slice_get self.old.blocks block) }
        ensures region { self.new ≡ with_block self.old block None }
        ensures size { IfSome result (λ b. length b ≡ size_of self.old) }
    {
        if (block as usize) < self.blocks.len() {
            self.take_block(block)
        } else {
            None
        }
    }

    /// Makes a block zero. A lent one stays as it is: its bytes are in a job.
    pub fn clear(&mut self, block: u32)
        ensures { self.new ≡ with_block self.old block (cleared (size_of self.old) (block_at self.old block)) }
    {
        if let Some(mut bytes) = self.take_home(block as u64) {
            bytes.clear();
            self.put_block(block as u64, bytes);
        }
    }

    /// Writes bytes over the front of a block. A lent one stays as it is.
    pub fn write_block(&mut self, block: u32, bytes: &[u8])
        requires { length bytes.now ≤ size_of self.old }
        ensures { self.new ≡ with_block self.old block (over bytes.now (block_at self.old block)) }
    {
        if let Some(mut found) = self.take_home(block as u64) {
            found.put(0, bytes);
            self.put_block(block as u64, found);
        }
    }

    /// Puts a block to its place where that place is lent, and drops it otherwise.
    pub(crate) fn put_home(&mut self, block: u64, bytes: Block)
        requires size { length bytes ≡ size_of self.old }
        ensures region { self.new ≡ record self.old { blocks = put_home self.old.blocks block bytes } }
    {
        if let Some(None) = self.blocks.get(block as usize) {
            self.put_block(block, bytes);
        }
    }

    /// Writes the part of bytes that falls into the front; they go from byte `at` of the region on.
    pub(crate) fn overlay_front(&mut self, at: u64, bytes: &[u8])
        ensures { self.new ≡ record self.old { front = overlaid 0 at bytes.now self.old.front } }
    {
        overlay(&mut self.front, 0, at, bytes);
    }

    /// Writes the part of bytes that falls into a block at home.
    pub(crate) fn overlay_block(&mut self, block: u64, at: u64, bytes: &[u8])
        requires { block < length self.old.blocks }
        ensures { self.new ≡ with_block self.old block (option_map (overlaid (length self.old.front + size_of self.old * block) at bytes.now) (block_at self.old block)) }
    {
        let place = self.data_off() + (PAGE * self.pages) as u64 * block;
        if let Some(mut found) = self.take_block(block) {
            overlay_of(&mut found, place, at, bytes);
            self.put_block(block, found);
        }
    }
}
