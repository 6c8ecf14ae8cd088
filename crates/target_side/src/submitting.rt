//! Submits: a command is laid, waits for room, or is refused.
ghost use Rattle.std.specs.Prelude.{◌≡◌, ◌+◌, ◌*◌, ◌<◌, ◌≤◌, ◌^◌, ◌==◌, not, true, IfOk, OnErr};
ghost use Rattle.region_model.specs.Layout.{data_start};
ghost use Rattle.region_model.specs.TargetSteps.{blocks_free, blocks_wanted, fits_in, length_in, submit_or_delay, submit_or_full, target_submit_answer};
ghost use Rattle.target_side.specs.Kept.{Fits, Kept};
ghost use Rattle.target_side.specs.Submits.{Delays, Queues, Submitted};

use crate::books::Books;
use delayed_commands::DelayedCommand;
use shm_region::Region;
use std::alloc::Global;
use tcmu_types::{Command, NoMemory, Submit};

impl Books {
    /// Lays a command for which there is room, under the next serial.
    fn queue(
        &mut self,
        alloc: Global,
        region: &mut Region,
        command: &Command,
    ) -> Result<u64, NoMemory>
        requires kept { Kept self.old }
        requires count { self.old.accepted < 2 ^ 63 }
        requires region { Fits region.old self.old }
        requires small { 2 * length_in self.old command.now ≤ self.old.settings.ring }
        requires ring { fits_in self.old (length_in self.old command.now) ≡ true }
        requires blocks { blocks_wanted self.old command.now ≤ blocks_free self.old }
        ensures queued { IfOk result (λ serial. Queues region.old self.old command.now serial region.new self.new) }
        ensures target { OnErr result (self.new ≡ self.old) }
        ensures unchanged { OnErr result (region.new ≡ region.old) }
    {
        let serial = self.accepted + 1;
        let due = self.deadline();
        let completions = self.completions_to_log();
        self.log.reserve(completions)?;
        self.entries.lay(alloc, region, serial, due, command)?;
        self.accepted = serial;
        self.laid += 1;
        Ok(serial)
    }

    /// Lets a command wait for room, under the next serial.
    fn delay(&mut self, alloc: Global, command: &Command) -> Result<u64, NoMemory>
        requires kept { Kept self.old }
        requires count { self.old.accepted < 2 ^ 63 }
        ensures delayed { IfOk result (λ serial. Delays self.old command.now serial self.new) }
        ensures target { OnErr result (self.new ≡ self.old) }
    {
        let serial = self.accepted + 1;
        let completions = self.completions_to_log();
        self.log.reserve(completions)?;
        self.delayed.reserve()?;
        let command = command.try_clone(alloc)?;
        self.accepted = serial;
        self.delayed.push(DelayedCommand {
            serial,
            command,
            leaves: self.now + self.qfull as u64,
        });
        Ok(serial)
    }

    /// Lays a command where there is room, and else refuses it.
    fn queue_or_refuse(
        &mut self,
        alloc: Global,
        region: &mut Region,
        command: &Command,
    ) -> Result<Submit, NoMemory>
        requires kept { Kept self.old }
        requires count { self.old.accepted < 2 ^ 63 }
        requires region { Fits region.old self.old }
        requires small { 2 * length_in self.old command.now ≤ self.old.settings.ring }
        ensures answer { IfOk result (λ a. a ≡ submit_or_full self.old command.now) }
        ensures submitted { IfOk result (λ a. Submitted region.old self.old command.now a region.new self.new) }
        ensures target { OnErr result (self.new ≡ self.old) }
        ensures unchanged { OnErr result (region.new ≡ region.old) }
    {
        let len = self.entries.length_of(command);
        let need = self.entries.places.need(len);
        let free = self.entries.places.free();
        if need > free {
            return Ok(Submit::FullRing { need, free });
        }
        let blocks = self.entries.blocks_for(command);
        let left = self.entries.commands.free_blocks();
        if blocks > left {
            return Ok(Submit::FullBlocks {
                need: blocks,
                free: left,
            });
        }
        let serial = self.queue(alloc, region, command)?;
        Ok(Submit::Queued(serial))
    }

    /// Lays a command where there is room and none waits, and else lets it wait.
    fn queue_or_delay(
        &mut self,
        alloc: Global,
        region: &mut Region,
        command: &Command,
    ) -> Result<Submit, NoMemory>
        requires kept { Kept self.old }
        requires count { self.old.accepted < 2 ^ 63 }
        requires region { Fits region.old self.old }
        requires small { 2 * length_in self.old command.now ≤ self.old.settings.ring }
        ensures answer { IfOk result (λ a. a ≡ submit_or_delay self.old command.now) }
        ensures submitted { IfOk result (λ a. Submitted region.old self.old command.now a region.new self.new) }
        ensures target { OnErr result (self.new ≡ self.old) }
        ensures unchanged { OnErr result (region.new ≡ region.old) }
    {
        if self.entries.has_room(command) && self.delayed.is_empty() {
            let serial = self.queue(alloc, region, command)?;
            return Ok(Submit::Queued(serial));
        }
        let serial = self.delay(alloc, command)?;
        Ok(Submit::Delayed(serial))
    }

    /// Takes a command: into the ring, or to those that wait for room. After want of memory nothing has changed.
    #[tactic(auto, unfolding(region_model::specs::TargetSteps::target_submit_answer))]
    pub(crate) fn submit(
        &mut self,
        alloc: Global,
        region: &mut Region,
        command: &Command,
    ) -> Result<Submit, NoMemory>
        requires kept { Kept self.old }
        requires count { self.old.accepted < 2 ^ 63 }
        requires region { Fits region.old self.old }
        ensures answer { IfOk result (λ a. a ≡ target_submit_answer self.old command.now) }
        ensures submitted { IfOk result (λ a. Submitted region.old self.old command.now a region.new self.new) }
        ensures target { OnErr result (self.new ≡ self.old) }
        ensures unchanged { OnErr result (region.new ≡ region.old) }
    {
        if self.blocked {
            return Ok(Submit::Busy);
        }
        let have = self.entries.length_of(command);
        let size = self.entries.places.size();
        if 2 * have > size {
            return Ok(Submit::TooBig {
                have,
                limit: size / 2,
            });
        }
        let have = self.entries.blocks_for(command);
        let limit = self.entries.commands.limit();
        if have > limit {
            return Ok(Submit::TooBig { have, limit });
        }
        if self.qfull == 0 {
            self.queue_or_refuse(alloc, region, command)
        } else {
            self.queue_or_delay(alloc, region, command)
        }
    }
}
