//! Data blocks as values.
ghost use Rattle.std.specs.Prelude.{◌≡◌, ℕ, ◌+◌, ◌-◌, ◌≤◌, ◌<◌, min, [], ◌∷◌, ◌++◌, List, length, take, IfOk, OnOk, IsSome, option_to_list, ◌↔◌};
ghost use Rattle.tcmu_types.specs.ByteFields.{put};
ghost use Rattle.tcmu_types.specs.Overwriting.{zeros};
ghost use Rattle.region_model.specs.Iovecs.{scattered, gathered, room_of};

use std::alloc::Global;
use std::marker::Model;
use tcmu_types::NoMemory;
use tcmu_types::little_endian::put_bytes;

/// Makes bytes zero.
#[tactic(auto, unfolding(tcmu_types::specs::Overwriting::zeros))]
fn clear_bytes(bytes: &mut [u8], count: usize)
    requires { count ≡ length bytes.old }
    ensures { bytes.new ≡ zeros count }
{
    bytes.fill(0);
}

/// One data block: the bytes of some pages of 4096, which move between the data area and a job. It is no `Copy` type and has no `clone`.
#[derive(Drop)]
pub struct Block {
    bytes: Vec<u8>,
}

impl Model for Block {
    ghost use Rattle.std.specs.Prelude.{List, ℕ};

    ghost Value = { List ℕ };

    ghost view = { λ a. a.bytes.items };
}

impl Block {
    ghost use Rattle.std.specs.Borrow.{sem};
    ghost use Rattle.iovec_scatter.specs.Lends.{LendsBytes};

    /// A block of `len` bytes, all zero.
    #[tactic(auto, unfolding(tcmu_types::specs::Overwriting::zeros))]
    pub fn zeros(alloc: Global, len: usize) -> Result<Block, NoMemory>
        ensures { IfOk result (λ b. b ≡ zeros len) }
    {
        Ok(Block {
            bytes: vec![in alloc; 0; len]?,
        })
    }

    /// The bytes of the block.
    pub fn as_slice(&self) -> &[u8]
        ensures { result.now ≡ self.now }
    {
        self.bytes.as_slice()
    }

    /// The bytes of the block, to write over. Their number stays.
    pub fn as_mut_slice(&mut self) -> &mut [u8]
        ensures* writes_back { sem 𝓛 (LendsBytes self.entry result) }
        ensures value { result.now ≡ self.old }
    {
        self.bytes.as_mut_slice()
    }

    /// Makes all bytes zero.
    pub fn clear(&mut self)
        ensures { self.new ≡ zeros (length self.old) }
    {
        let length = self.bytes.len();
        clear_bytes(&mut self.bytes, length);
    }

    /// Writes bytes over those from byte `at` of the block on.
    pub fn put(&mut self, at: usize, bytes: &[u8])
        requires { at + length bytes.now ≤ length self.old }
        ensures { self.new ≡ put self.old at bytes.now }
    {
        put_bytes(&mut self.bytes, at, bytes);
    }
}

/// Blocks that are lent, in the order of their iovecs: the parts of a job.
#[derive(Drop)]
pub struct Parts {
    blocks: Vec<Block>,
}

impl Model for Parts {
    ghost use Rattle.std.specs.Prelude.{◌-◌, vec_len, List, ℕ};
    ghost use Rattle.std.specs.Vec.{vec_capacity};
    ghost use Rattle.tcmu_types.specs.Data.{Spared};

    ghost Value = { Spared (List ℕ) };

    ghost view = { λ a. record { items = a.blocks.items; spare = vec_capacity a.blocks - vec_len a.blocks } };
}

impl Parts {
    /// No block yet.
    pub fn new(alloc: Global) -> Self
        ensures { result.items ≡ [] }
    {
        Parts {
            blocks: Vec::new(alloc),
        }
    }

    /// The blocks, in the order in which they were appended.
    pub fn as_slice(&self) -> &[Block]
        ensures { result.now ≡ self.now.items }
    {
        self.blocks.as_slice()
    }

    /// How many blocks there are.
    pub fn len(&self) -> usize
        ensures { result ≡ length self.now.items }
    {
        self.blocks.len()
    }

    /// Makes room for `more` blocks.
    pub fn reserve(&mut self, more: u64) -> Result<(), NoMemory>
        ensures items { self.new.items ≡ self.old.items }
        ensures room { OnOk result (more ≤ self.new.spare) }
        ensures kept { self.old.spare ≤ self.new.spare }
    {
        self.blocks.reserve(more as usize)?;
        Ok(())
    }

    /// Appends a block to a list that has room for it.
    pub fn push(&mut self, block: Block)
        requires { 1 ≤ self.old.spare }
        ensures items { self.new.items ≡ self.old.items ++ block ∷ [] }
        ensures spare { self.old.spare ≤ self.new.spare + 1 }
    {
        let _ = self.blocks.push(block);
    }

    /// Takes the last block out. Its place stays, as room for another.
    pub fn pop(&mut self) -> Option<Block>
        ensures items { self.old.items ≡ self.new.items ++ option_to_list result }
        ensures found { IsSome result ↔ (0 < length self.old.items) }
        ensures spare { self.new.spare ≡ self.old.spare + length (option_to_list result) }
    {
        self.blocks.pop()
    }
}

/// Writes bytes along the blocks in order, up to the end of the last block, and answers how many were written.
pub fn scatter(parts: &mut Parts, bytes: &[u8]) -> u64
    ensures items { parts.new.items ≡ scattered parts.old.items bytes.now }
    ensures spare { parts.new.spare ≡ parts.old.spare }
    ensures room { room_of parts.new.items ≡ room_of parts.old.items }
    ensures count { result ≡ min (length bytes.now) (room_of parts.old.items) }
{
    write_blocks(parts, bytes)
}

/// The same, block by block.
fn write_blocks(parts: &mut Parts, bytes: &[u8]) -> u64
    ensures items { parts.new.items ≡ scattered parts.old.items bytes.now }
    ensures spare { parts.new.spare ≡ parts.old.spare }
    ensures count { result ≡ min (length bytes.now) (room_of parts.old.items) }
{
    let mut done = 0;
    for index in 0..parts.blocks.len() {
        let block = &mut parts.blocks[index];
        let count = block.bytes.len().min(bytes.len() - done);
        block.put(0, &bytes[done..done + count]);
        done += count;
    }
    done as u64
}

/// Fills `into` with the first bytes along the blocks, which have at least so many.
pub fn gather(parts: &Parts, into: &mut [u8])
    requires { length into.old ≤ room_of parts.now.items }
    ensures { into.new ≡ take (length into.old) (gathered parts.now.items) }
{
    let mut done = 0;
    for block in parts.blocks.as_slice() {
        let bytes = block.as_slice();
        let count = bytes.len().min(into.len() - done);
        put_bytes(into, done, &bytes[..count]);
        done += count;
    }
}
