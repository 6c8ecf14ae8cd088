//! A region with its target, on which tests write what a user side has no right to write.
ghost use Rattle.std.specs.Prelude.{◌≤◌, ◌+◌, length};
ghost use Rattle.tcmu_types.specs.Numbers.{IsRising};

use shm_region::Region;
use std::alloc::Global;
use std::marker::Model;
use std::test::Fail;
use target_side::{RingItem, Target, TargetFault, TargetNumbers};
use tcmu_types::{
    Bytes, Cdb, Command, Enter, Flags, Name, NoMemory, Serials, Settings, Submit, Tmr,
};

/// What a clean answered, in numbers.
fn seen(answer: Result<u64, TargetFault>) -> (u64, Option<TargetFault>) {
    match answer {
        Ok(count) => (count, None),
        Err(fault) => (0, Some(fault)),
    }
}

/// A ring of a page, four blocks of a page, commands due after 30 ticks, and waiting for room for five where `qfull` is 5.
fn settings(qfull: u32) -> Settings {
    Settings {
        ring: 4096,
        blocks: 4,
        flags: Flags {
            ooo: true,
            read_len: true,
            tmr: true,
        },
        timeout: 30,
        qfull: qfull.min(5),
        pages: 1,
    }
}

/// READ(10) of one logical block.
fn read(alloc: Global, tag: u32) -> Result<Command, Fail> {
    let init = Name::new("a").ok_or("a name")?;
    let cdb = Cdb::new(&[0x28, 0, 0, 0, 0, 0, 0, 0, 1, 0])?;
    let command = Command::new(init, tag, cdb, Bytes::new(alloc), 512).ok_or("a command")?;
    Ok(command)
}

/// A region with its target, and what is done to them.
#[derive(Drop)]
pub(crate) struct Bench {
    alloc: Global,
    region: Region,
    target: Target,
}

impl Model for Bench {
    ghost use Rattle.region_model.specs.Regions.{RegionState};
    ghost use Rattle.region_model.specs.Sides.{TargetState};
    ghost use Rattle.target_side.specs.Kept.{Fits};

    ghost Value = { RegionState × TargetState };

    ghost view = { λ a. (a.region, a.target) };

    ghost invariant = { λ a. Fits a.region a.target };
}

impl Bench {
    pub(crate) fn new(alloc: Global, qfull: u32) -> Result<Bench, NoMemory> {
        let settings = settings(qfull);
        Ok(Bench {
            alloc,
            region: Region::new(alloc, settings)?,
            target: Target::new(alloc, settings)?,
        })
    }

    /// Two reads, in entries of 128 bytes, under the ids 1 and 2.
    pub(crate) fn two_reads(alloc: Global) -> Result<Bench, Fail> {
        let mut bench = Bench::new(alloc, 0)?;
        let _ = bench.submit(1)?;
        let _ = bench.submit(2)?;
        Ok(bench)
    }

    /// Under a queue-full time, as many reads as are asked for: four have a block, those behind them wait for room.
    pub(crate) fn many_reads(alloc: Global, count: u32) -> Result<Bench, Fail> {
        let mut bench = Bench::new(alloc, 5)?;
        for tag in 0..count {
            let _ = bench.submit(tag)?;
        }
        Ok(bench)
    }

    /// Four reads that are laid and one that waits, where the first of them has been answered and cleaned.
    pub(crate) fn one_waits(alloc: Global) -> Result<Bench, Fail> {
        let mut bench = Bench::many_reads(alloc, 5)?;
        bench.tail(128);
        let _ = bench.clean();
        Ok(bench)
    }

    /// A read, a note that names it, and a read behind that.
    pub(crate) fn reads_with_note(alloc: Global) -> Result<Bench, Fail> {
        let mut bench = Bench::new(alloc, 0)?;
        let _ = bench.submit(1)?;
        let _ = bench.tmr(1, &[1])?;
        let _ = bench.submit(2)?;
        Ok(bench)
    }

    /// A ring that is empty, and whose head stands 128 bytes before its end: 31 reads were laid and cleaned.
    pub(crate) fn near_the_end(alloc: Global) -> Result<Bench, Fail> {
        let mut bench = Bench::new(alloc, 0)?;
        for at in 0..31 {
            let _ = bench.submit(1)?;
            bench.tail(128 * (at + 1));
            let _ = bench.clean();
        }
        Ok(bench)
    }

    pub(crate) fn submit(&mut self, tag: u32) -> Result<Submit, Fail> {
        let command = read(self.alloc, tag)?;
        let few = if self.target.numbers().accepted < 1000 {
            Some(())
        } else {
            None
        };
        few.ok_or("few commands")?;
        Ok(self.target.submit(self.alloc, &mut self.region, &command)?)
    }

    pub(crate) fn enter(&mut self) -> Result<Enter, NoMemory> {
        self.target.enter(self.alloc, &mut self.region)
    }

    pub(crate) fn tmr(&mut self, kind: u8, serials: &[u64]) -> Result<Tmr, Fail>
        requires { IsRising serials.now }
    {
        let serials = Serials::from_slice(self.alloc, serials)?;
        Ok(
            self.target
                .tmr(self.alloc, &mut self.region, kind, &serials)?,
        )
    }

    #[tactic(auto, unfolding(region_model::specs::TargetSteps::target_ticked))]
    pub(crate) fn tick(&mut self, n: u32) -> u64 {
        self.target.tick(n)
    }

    pub(crate) fn clean(&mut self) -> (u64, Option<TargetFault>) {
        seen(self.target.clean(&mut self.region))
    }

    #[tactic(auto, unfolding(region_model::specs::TargetSteps::target_blocked))]
    pub(crate) fn reset(&mut self, level: u8) -> u64 {
        let _ = self.target.block();
        self.target.reset(&mut self.region, level)
    }

    /// Writes bytes of the region.
    pub(crate) fn put(&mut self, at: u64, bytes: &[u8])
        requires { at + length bytes.now ≤ 4096 }
    {
        self.region.write_front(at, bytes);
    }

    /// Writes the tail.
    pub(crate) fn tail(&mut self, tail: u32) {
        self.put(64, &tail.to_le_bytes());
    }

    /// Writes the head.
    pub(crate) fn head(&mut self, head: u32) {
        self.put(12, &head.to_le_bytes());
    }

    /// Writes a word of 32 bits.
    pub(crate) fn set_word(&mut self, at: u64, word: u32)
        requires { at ≤ 4000 }
    {
        self.put(at, &word.to_le_bytes());
    }

    /// Writes the id in the entry at a ring offset.
    pub(crate) fn set_id(&mut self, at: u64, id: u8)
        requires { at ≤ 1000 }
    {
        self.put(128 + at + 4, &[id, 0]);
    }

    /// Writes a response into the entry at a ring offset.
    pub(crate) fn respond(&mut self, at: u64, uflags: u8, status: u8, read_len: u32)
        requires { at ≤ 1000 }
    {
        self.put(128 + at + 7, &[uflags, status]);
        self.set_word(128 + at + 12, read_len);
    }

    /// Writes a byte along the front of a block.
    pub(crate) fn fill(&mut self, block: u32, byte: u8) {
        // What this call ensures is used: a block has a byte.
        let _limits = self.region.data_off();
        self.region.write_block(block, &[byte]);
    }

    pub(crate) fn item(&self, index: u32) -> Option<RingItem> {
        self.target.item(index)
    }

    /// The id of the least serial above one, and the serial of an id.
    pub(crate) fn found(&self, serial: u64, id: u16) -> (Option<u16>, Option<u64>) {
        (self.target.after(serial), self.target.serial_of(id))
    }

    /// The first block of the command of an id.
    pub(crate) fn first_block(&self, id: u16) -> Option<u32> {
        let pending = self.target.pending(id)?;
        pending.blocks.as_slice().get(0).copied()
    }

    pub(crate) fn numbers(&self) -> TargetNumbers {
        self.target.numbers()
    }

    /// The head, the tail, and how many bytes the data area has.
    pub(crate) fn places(&self) -> (u32, u32, u64) {
        (
            self.region.head(),
            self.region.tail(),
            self.region.area_len(),
        )
    }

    /// The serial and the status of a completion, and how many bytes it has.
    pub(crate) fn logged(&self, index: usize) -> Option<(u64, u8, usize)> {
        let done = self.target.log().get(index)?;
        Some((done.serial, done.status.0, done.payload.len()))
    }

    /// The sense key and the additional sense code of a completion.
    pub(crate) fn sense(&self, index: usize) -> Option<(u8, u8)> {
        let sense = self.target.log().get(index)?.sense?;
        Some((sense.key, sense.asc))
    }

    /// Whether a completion has no byte but zeros.
    pub(crate) fn has_zeros(&self, index: usize) -> bool {
        match self.target.log().get(index) {
            Some(done) => done.payload.as_slice().iter().all(|byte| *byte == 0),
            None => false,
        }
    }

    /// The first byte of a completion's payload.
    pub(crate) fn first_byte(&self, index: usize) -> Option<u8> {
        let done = self.target.log().get(index)?;
        done.payload.as_slice().get(0).copied()
    }
}

/// The fault of an id that no command has.
pub(crate) fn broken(id: u16) -> (u64, Option<TargetFault>) {
    (0, Some(TargetFault::Broken { id }))
}

/// The fault of a tail that is no item's end.
pub(crate) fn bad_tail(tail: u32) -> (u64, Option<TargetFault>) {
    (0, Some(TargetFault::BadTail { tail }))
}

/// So many completions.
pub(crate) fn cleaned(count: u64) -> (u64, Option<TargetFault>) {
    (count, None)
}

/// The serial, the status and the length that a response of these flags is logged with.
pub(crate) fn answered_with(
    alloc: Global,
    uflags: u8,
    status: u8,
    read_len: u32,
) -> Result<Option<(u64, u8, usize)>, Fail> {
    let mut bench = Bench::two_reads(alloc)?;
    bench.respond(0, uflags, status, read_len);
    bench.tail(128);
    let _ = bench.clean();
    Ok(bench.logged(0))
}
