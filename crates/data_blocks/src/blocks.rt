//! The set of held blocks.
ghost use Rattle.std.specs.Prelude.{◌≡◌, ◌+◌, ◌≤◌, ◌<◌, ◌||◌, ◌&&◌, ◌==◌, not, ℕ, true, max, nat_lt, [], ◌∷◌, ◌++◌, length, if◌then◌else◌, Ok, Err, IfOk};
ghost use Rattle.tcmu_types.specs.Numbers.{above_all, is_among};
ghost use Rattle.tcmu_model.specs.BlockLists.{free_from, least_free};
ghost use Rattle.data_blocks.specs.Held.{HeldBlocks, IsHeldBlocks, AreHeld, Took, Gave, free};

use crate::bitmap::{clear, end_of, set};
use crate::laws::first_free;
use std::alloc::Global;
use std::marker::Model;
use tcmu_types::{BlockList, NoMemory};
use thiserror::Error;

/// Why blocks are refused. Numbers are of data blocks.
#[derive(Clone, Copy, Debug, PartialEq, Eq, Error)]
pub enum BlocksFault {
    /// More are needed than are free.
    #[error("need {need} blocks, free are {free}")]
    Lacks { need: u32, free: u32 },
}

/// Which data blocks are held, as a set of numbers below a limit; how many can be taken without asking again; and how many blocks
/// the data area has grown to. No call but `new` takes memory.
#[derive(Debug, Drop)]
pub struct Blocks {
    words: Vec<u64>,
    limit: u32,
    held: u32,
    spare: u32,
    grown: u32,
}

impl Model for Blocks {
    ghost use Rattle.data_blocks.specs.Bitmap.{set_below};
    ghost use Rattle.data_blocks.specs.Held.{HeldBlocks};

    ghost Value = { HeldBlocks };

    ghost use Rattle.data_blocks.specs.Kept.{IsKept};

    ghost view = { λ a. record { limit = a.limit; held = set_below a.words.items a.limit; spare = a.spare; grown = a.grown } };

    ghost invariant = { λ a. IsKept a.words.items a.limit a.held a.spare a.grown };
}

impl Blocks {
    /// No block is held, and the data area has none. The limit is from 1 to 4096 blocks.
    pub fn new(alloc: Global, limit: u32) -> Result<Blocks, NoMemory>
        requires low { 1 ≤ limit }
        requires high { limit ≤ 4096 }
        ensures { IfOk result (λ b. b ≡ record { limit = limit; held = []; spare = 0; grown = 0 }) }
    {
        let words = vec![in alloc; 0; limit.div_ceil(64) as usize]?;
        Ok(Blocks {
            words,
            limit,
            held: 0,
            spare: 0,
            grown: 0,
        })
    }

    /// Sees to it that `need` blocks can be taken, a promise that `take` then keeps. `Lacks` where fewer are free; then nothing changes.
    pub fn reserve(&mut self, need: u32) -> Result<(), BlocksFault>
        ensures value { result ≡ (if nat_lt (free self.old) need then Err (BlocksFault.Lacks need (free self.old)) else Ok tt) }
        ensures new { self.new ≡ (if nat_lt (free self.old) need then self.old else record self.old { spare = max self.old.spare need }) }
    {
        let free = self.free();
        if free < need {
            return Err(BlocksFault::Lacks { need, free });
        }
        self.spare = self.spare.max(need);
        Ok(())
    }

    /// Takes the least free block.
    fn take_one(&mut self) -> u32
        requires { 1 ≤ self.old.spare }
        ensures least { free_from self.old.held 0 self.old.limit ≡ result ∷ free_from self.new.held 0 self.old.limit }
        ensures new { Took self.old (result ∷ []) self.new }
    {
        let number = match first_free(&self.words, self.limit) {
            Some(number) => number,
            None => unreachable!(),
        };
        set(&mut self.words, number);
        self.held += 1;
        self.spare -= 1;
        self.grown = self.grown.max(number + 1);
        number
    }

    /// Takes the `count` least free blocks, which `reserve` has promised and `into` has room for, and appends their numbers, rising.
    pub fn take(&mut self, count: u32, into: &mut BlockList)
        requires spare { count ≤ self.old.spare }
        requires room { count ≤ into.old.spare }
        ensures blocks { into.new.items ≡ into.old.items ++ least_free self.old.limit self.old.held count }
        ensures room { into.old.spare ≤ into.new.spare + count }
        ensures many { length (least_free self.old.limit self.old.held count) ≡ count }
        ensures new { Took self.old (least_free self.old.limit self.old.held count) self.new }
    {
        for _ in 0..count {
            let number = self.take_one();
            into.push(number);
        }
    }

    /// Frees a block.
    fn give_one(&mut self, number: u32)
        requires { is_among self.old.held number ≡ true }
        ensures { Gave self.old (number ∷ []) self.new }
    {
        clear(&mut self.words, number);
        self.held -= 1;
    }

    /// Frees the blocks of a list, each of which is held, and none stands in it twice.
    pub fn give(&mut self, list: &BlockList)
        requires { AreHeld self.old.held list.now.items }
        ensures { Gave self.old list.now.items self.new }
    {
        for number in list.as_slice() {
            self.give_one(*number);
        }
    }

    /// How many blocks the data area has: at least all up to the highest held one.
    pub fn grown(&self) -> u32
        ensures { result ≡ self.now.grown }
    {
        self.grown
    }

    /// Lets the data area end behind the highest held block, and says how many blocks it has now.
    pub fn shrink(&mut self) -> u32
        ensures value { result ≡ above_all self.old.held }
        ensures new { self.new ≡ record self.old { grown = above_all self.old.held } }
    {
        let end = end_of(&self.words, self.grown);
        self.grown = end;
        end
    }

    /// How many blocks are not held. Those that `reserve` promised are among them.
    pub fn free(&self) -> u32
        ensures { result ≡ free self.now }
    {
        self.limit - self.held
    }

    /// How many blocks are held, by all commands together.
    pub fn held(&self) -> u32
        ensures value { result ≡ length self.now.held }
        ensures sound { IsHeldBlocks self.now }
    {
        self.held
    }
}
