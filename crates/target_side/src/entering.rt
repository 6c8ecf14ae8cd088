//! Enters: the first of the commands that wait is laid once there is room for it.
ghost use Rattle.std.specs.Prelude.{◌≡◌, IfOk, OnErr};
ghost use Rattle.region_model.specs.TargetSteps.{target_enter_answer};
ghost use Rattle.target_side.specs.Kept.{Fits, Kept};
ghost use Rattle.target_side.specs.Submits.{Entered};

use crate::books::Books;
use shm_region::Region;
use std::alloc::Global;
use tcmu_types::{Enter, NoMemory};

impl Books {
    /// Lays the first command that waits, where there is room for it. Its completion has its place in the log already.
    pub(crate) fn enter(&mut self, alloc: Global, region: &mut Region) -> Result<Enter, NoMemory>
        requires kept { Kept self.old }
        requires region { Fits region.old self.old }
        ensures answer { IfOk result (λ a. a ≡ target_enter_answer self.old) }
        ensures entered { IfOk result (λ a. Entered region.old self.old a region.new self.new) }
        ensures target { OnErr result (self.new ≡ self.old) }
        ensures unchanged { OnErr result (region.new ≡ region.old) }
    {
        let due = self.deadline();
        let Some(first) = self.delayed.first() else {
            return Ok(Enter::Empty);
        };
        let len = self.entries.length_of(&first.command);
        let need = self.entries.places.need(len);
        let free = self.entries.places.free();
        if need > free {
            return Ok(Enter::FullRing { need, free });
        }
        let blocks = self.entries.blocks_for(&first.command);
        let left = self.entries.commands.free_blocks();
        if blocks > left {
            return Ok(Enter::FullBlocks {
                need: blocks,
                free: left,
            });
        }
        let serial = first.serial;
        self.entries
            .lay(alloc, region, serial, due, &first.command)?;
        let _entered = self.delayed.pop();
        self.laid += 1;
        Ok(Enter::Entered(serial))
    }
}
