//! Bytes along the data blocks of a list, by their numbers. A lent block reads as zeros, and is not changed.
ghost use Rattle.std.specs.Prelude.{◌≡◌, ◌+◌, ◌*◌, ◌≤◌, ◌++◌, length, take, min};
ghost use Rattle.tcmu_types.specs.Overwriting.{zeros};
ghost use Rattle.region_model.specs.Areas.{block_bytes, bytes_along, written_along};
ghost use Rattle.region_model.specs.Regions.{size_of, block_at};

use crate::Region;
use tcmu_types::{BlockList, Bytes};

impl Region {
    /// Writes bytes along the blocks of a list, in order, up to the end of the last one.
    pub fn write_blocks(&mut self, blocks: &BlockList, bytes: &[u8])
        ensures { self.new ≡ record self.old { blocks = written_along (size_of self.old) self.old.blocks blocks.now.items bytes.now } }
    {
        let size = self.block_len() as usize;
        let mut done = 0;
        for block in blocks.as_slice() {
            let count = (bytes.len() - done).min(size);
            self.write_block(*block, &bytes[done..done + count]);
            done += count;
        }
    }

    /// Makes the blocks of a list zero: zeros are written along all of them.
    pub fn clear_blocks(&mut self, blocks: &BlockList)
        ensures { self.new ≡ record self.old { blocks = written_along (size_of self.old) self.old.blocks blocks.now.items (zeros (size_of self.old * length blocks.now.items)) } }
    {
        for block in blocks.as_slice() {
            // What this call ensures is used: the limits of every region.
            let _ = self.data_off();
            self.clear(*block);
        }
    }

    /// Appends the first bytes of a block, at most `left`, and answers how many.
    fn append_block(&self, block: u32, left: usize, into: &mut Bytes) -> usize
        requires { left ≤ into.old.spare }
        ensures count { result ≡ min (size_of self.now) left }
        ensures items { into.new.items ≡ into.old.items ++ take left (block_bytes (size_of self.now) (block_at self.now block)) }
        ensures room { into.old.spare ≤ into.new.spare + result }
    {
        let count = (self.block_len() as usize).min(left);
        match self.home_block(block as u64) {
            Some(bytes) => into.extend(&bytes[..count]),
            None => into.fill(0, count),
        }
        count
    }

    /// Appends the first `count` bytes along the blocks of a list to `into`, which has room for them.
    pub fn read_blocks(&self, blocks: &BlockList, count: usize, into: &mut Bytes)
        requires { count ≤ into.old.spare }
        ensures items { into.new.items ≡ into.old.items ++ take count (bytes_along (size_of self.now) self.now.blocks blocks.now.items) }
        ensures room { into.old.spare ≤ into.new.spare + count }
    {
        // What this call ensures is used: the limits of every region.
        let _ = self.data_off();
        let mut left = count;
        for block in blocks.as_slice() {
            left -= self.append_block(*block, left, into);
        }
    }
}
