//! What lays items in the ring: submit, enter, and notes on task management.
ghost use Rattle.std.specs.Prelude.{◌≡◌, ◌+◌, ◌<◌, ◌≤◌, ◌^◌, ◌==◌, not, None, length, IfOk, OnOk, OnErr};
ghost use Rattle.tcmu_types.specs.Rules.{IsCommand};
ghost use Rattle.tcmu_types.specs.Numbers.{IsRising};
ghost use Rattle.tcmu_model.specs.RingState.{need, free};
ghost use Rattle.tcmu_model.specs.Events.{submit_answer, after_submit, queued_or_full, queued_or_delayed, with_command, with_delayed, one_accepted, deadline_at, enter_answer, after_enter, after_entering, unknown_serial, tmr_answer, after_tmr, entry_length_in, free_blocks, held_blocks, blocks_in, with_note, tmr_length_of};
ghost use Rattle.tcmu_model.specs.Sound.{IsSound};
ghost use Rattle.tcmu_path.specs.Room.{to_place, to_log};
ghost use Rattle.tcmu_path.specs.Waits.{NextFits};

use super::State;
use crate::dispatching::append;
use crate::ring::{Content, RingItem};
use crate::row::{Row, room_for};
use crate::rows::unknown;
use delayed_commands::DelayedCommand;
use std::snapshot::Snapshot;
use tcmu_model::{blocks_of, entry_length, tmr_length};
use tcmu_types::{Command, Enter, NoMemory, Serials, Submit, Tmr};

impl State {
    /// The data blocks of a command.
    pub(super) fn blocks_of(&self, command: &Command) -> u32
        ensures { result ≡ blocks_in self.entry.now command.now }
    {
        blocks_of(command, self.settings.pages)
    }

    /// The length of a command's entry (bytes).
    pub(super) fn entry_length(&self, command: &Command) -> u32
        ensures value { result ≡ entry_length_in self.entry.now command.now }
        ensures most { result ≤ 4160 }
    {
        entry_length(command, self.settings.pages)
    }

    /// The most data blocks that may be held.
    fn most_blocks(&self) -> u32
        ensures value { result ≡ self.entry.now.settings.blocks }
        ensures fits { result < 2 ^ 32 }
    {
        self.settings.blocks
    }

    /// The data blocks that are held.
    pub(super) fn held(&self) -> u32
        ensures { result ≡ held_blocks self.entry.now }
    {
        self.held
    }

    /// The data blocks that are free.
    pub(super) fn free_blocks(&self) -> u32
        ensures { result ≡ free_blocks self.entry.now }
    {
        self.most_blocks().saturating_sub(self.held)
    }

    /// The data blocks that are held once so many more are.
    fn held_with(&self, blocks: u32) -> u32
        requires { blocks ≤ free_blocks self.now }
        ensures { result ≡ held_blocks self.entry.now + blocks }
    {
        let _most = self.most_blocks();
        self.held + blocks
    }

    /// How many commands are unfinished.
    fn count(&self) -> usize
        ensures value { result ≡ length self.entry.now.unfinished }
        ensures few { result < 2 ^ 63 }
    {
        self.rows.len()
    }

    /// No fewer than the answers that may still be placed, and one more.
    #[tactic(auto, using(crate::proofs::Rooms::most_places))]
    fn answers_to_place(&self) -> u64
        ensures { to_place self.entry.now.unfinished + 1 ≤ result }
    {
        self.count() as u64 + 1
    }

    /// No fewer than the completions that are still to be logged, and one more.
    #[tactic(auto, using(crate::proofs::Rooms::most_completions))]
    fn completions_to_log(&self) -> u64
        ensures { to_log self.entry.now.unfinished + length self.entry.now.delayed + 1 ≤ result }
    {
        self.count() as u64 + self.delayed.len() as u64 + 1
    }

    /// When a command that is laid now expires.
    fn deadline(&self) -> Option<u64>
        requires { self.now.now ≤ 2 ^ 63 }
        ensures { result ≡ deadline_at self.entry.now }
    {
        if self.settings.timeout == 0 {
            None
        } else {
            Some(self.now + self.settings.timeout as u64)
        }
    }

    /// When a command that is delayed now leaves.
    fn leaving_time(&self) -> u64
        requires { self.now.now ≤ 2 ^ 63 }
        ensures { result ≡ self.entry.now.now + self.entry.now.settings.qfull }
    {
        self.now + self.settings.qfull as u64
    }

    /// Whether commands wait where there is no room.
    fn waits_for_room(&self) -> bool
        ensures { result ≡ not (self.entry.now.settings.qfull == 0) }
    {
        self.settings.qfull != 0
    }

    /// Lays a command for which there is room, under the next serial.
    #[tactic(auto, unfolding(tcmu_model::specs::Events::with_command))]
    fn accept(&mut self, command: &Command, len: u32) -> Result<(), NoMemory>
        requires sound { IsSound self.old }
        requires count { self.old.accepted < 2 ^ 63 }
        requires now { self.old.now ≤ 2 ^ 63 }
        requires len { len ≡ entry_length_in self.old command.now }
        requires ring { need self.old.ring len ≤ free self.old.ring }
        requires blocks { blocks_in self.old command.now ≤ free_blocks self.old }
        ensures ok { OnOk result (self.new ≡ with_command (one_accepted self.old) (self.old.accepted + 1) command.now) }
        ensures err { OnErr result (self.new ≡ self.old) }
        ensures accepted { OnOk result (self.new.accepted ≡ self.old.accepted + 1) }
    {
        let serial = self.accepted + 1;
        let blocks = self.blocks_of(command);
        let held = self.held_with(blocks);
        let places = self.answers_to_place();
        let completions = self.completions_to_log();
        self.placed.reserve(places)?;
        self.log.reserve(completions)?;
        self.rows.reserve()?;
        let room = room_for(self.alloc, command)?;
        let row = Row::new(
            serial,
            command.try_clone(self.alloc)?,
            self.deadline(),
            room,
        );
        self.ring.lay(RingItem {
            len,
            content: Content::Command {
                serial,
                command: Snapshot::of(command),
            },
        })?;
        self.held = held;
        self.accepted = serial;
        append(&mut self.rows, row);
        Ok(())
    }

    /// Lets a command wait, under the next serial.
    #[tactic(auto, unfolding(tcmu_model::specs::Events::with_delayed))]
    fn delay(&mut self, command: &Command) -> Result<(), NoMemory>
        requires count { self.old.accepted < 2 ^ 63 }
        requires now { self.old.now ≤ 2 ^ 63 }
        ensures ok { OnOk result (self.new ≡ with_delayed (one_accepted self.old) (self.old.accepted + 1) command.now) }
        ensures err { OnErr result (self.new ≡ self.old) }
        ensures accepted { OnOk result (self.new.accepted ≡ self.old.accepted + 1) }
    {
        let completions = self.completions_to_log();
        let leaves = self.leaving_time();
        self.log.reserve(completions)?;
        self.delayed.reserve()?;
        let command = command.try_clone(self.alloc)?;
        self.accepted += 1;
        self.delayed.push(DelayedCommand {
            serial: self.accepted,
            command,
            leaves,
        });
        Ok(())
    }

    /// Accepts a command where there is room, and else refuses it.
    #[tactic(auto, unfolding(tcmu_model::specs::Events::queued_or_full, tcmu_model::specs::Events::after_submit))]
    fn queue_or_refuse(&mut self, command: &Command) -> Result<Submit, NoMemory>
        requires sound { IsSound self.old }
        requires count { self.old.accepted < 2 ^ 63 }
        requires now { self.old.now ≤ 2 ^ 63 }
        ensures answer { IfOk result (λ a. a ≡ queued_or_full self.old command.now) }
        ensures after { IfOk result (λ a. self.new ≡ after_submit self.old command.now a) }
        ensures err { OnErr result (self.new ≡ self.old) }
        ensures least { self.old.accepted ≤ self.new.accepted }
        ensures most { self.new.accepted ≤ self.old.accepted + 1 }
    {
        let len = self.entry_length(command);
        let need = self.ring.need(len);
        let free = self.ring.free();
        if need > free {
            return Ok(Submit::FullRing { need, free });
        }
        let blocks = self.blocks_of(command);
        let left = self.free_blocks();
        if blocks > left {
            return Ok(Submit::FullBlocks {
                need: blocks,
                free: left,
            });
        }
        let serial = self.accepted + 1;
        self.accept(command, len)?;
        Ok(Submit::Queued(serial))
    }

    /// Accepts a command where there is room and none waits, and else lets it wait.
    #[tactic(auto, unfolding(tcmu_model::specs::Events::queued_or_delayed, tcmu_model::specs::Events::after_submit))]
    fn queue_or_delay(&mut self, command: &Command) -> Result<Submit, NoMemory>
        requires sound { IsSound self.old }
        requires count { self.old.accepted < 2 ^ 63 }
        requires now { self.old.now ≤ 2 ^ 63 }
        ensures answer { IfOk result (λ a. a ≡ queued_or_delayed self.old command.now) }
        ensures after { IfOk result (λ a. self.new ≡ after_submit self.old command.now a) }
        ensures err { OnErr result (self.new ≡ self.old) }
        ensures least { self.old.accepted ≤ self.new.accepted }
        ensures most { self.new.accepted ≤ self.old.accepted + 1 }
    {
        let serial = self.accepted + 1;
        let len = self.entry_length(command);
        if self.ring.fits(len)
            && self.blocks_of(command) <= self.free_blocks()
            && self.delayed.is_empty()
        {
            self.accept(command, len)?;
            return Ok(Submit::Queued(serial));
        }
        self.delay(command)?;
        Ok(Submit::Delayed(serial))
    }

    /// Takes a command: into the ring, or to those that wait for room.
    #[tactic(auto, unfolding(tcmu_model::specs::Events::submit_answer, tcmu_model::specs::Events::after_submit))]
    pub fn submit(&mut self, command: &Command) -> Result<Submit, NoMemory>
        requires sound { IsSound self.old }
        requires count { self.old.accepted < 2 ^ 63 }
        requires now { self.old.now ≤ 2 ^ 63 }
        ensures answer { IfOk result (λ a. a ≡ submit_answer self.old command.now) }
        ensures after { IfOk result (λ a. self.new ≡ after_submit self.old command.now a) }
        ensures err { OnErr result (self.new ≡ self.old) }
        ensures least { self.old.accepted ≤ self.new.accepted }
        ensures most { self.new.accepted ≤ self.old.accepted + 1 }
        ensures command { IsCommand command.now }
    {
        let _rules = command.cdb();
        if self.blocked {
            return Ok(Submit::Busy);
        }
        let len = self.entry_length(command);
        let size = self.ring.size();
        if 2 * len > size {
            return Ok(Submit::TooBig {
                have: len,
                limit: size / 2,
            });
        }
        let blocks = self.blocks_of(command);
        let most = self.most_blocks();
        if blocks > most {
            return Ok(Submit::TooBig {
                have: blocks,
                limit: most,
            });
        }
        if self.waits_for_room() {
            self.queue_or_delay(command)
        } else {
            self.queue_or_refuse(command)
        }
    }

    /// The first delayed command enters the ring, where there is room for it.
    #[tactic(auto, unfolding(tcmu_model::specs::Events::with_command))]
    fn enter_first(&mut self, len: u32, blocks: u32) -> Result<(), NoMemory>
        requires sound { IsSound self.old }
        requires now { self.old.now ≤ 2 ^ 63 }
        requires small { len ≤ 4160 }
        requires next { NextFits self.old len blocks }
        ensures ok { OnOk result (self.new ≡ after_entering self.old self.old.delayed) }
        ensures err { OnErr result (self.new ≡ self.old) }
        ensures accepted { self.new.accepted ≡ self.old.accepted }
    {
        let held = self.held_with(blocks);
        let places = self.answers_to_place();
        let deadline = self.deadline();
        let Some(first) = self.delayed.first() else {
            return Ok(());
        };
        let room = room_for(self.alloc, &first.command)?;
        self.placed.reserve(places)?;
        self.rows.reserve()?;
        self.ring.lay(RingItem {
            len,
            content: Content::Command {
                serial: first.serial,
                command: Snapshot::of(&first.command),
            },
        })?;
        if let Some(waited) = self.delayed.pop() {
            self.held = held;
            append(
                &mut self.rows,
                Row::new(waited.serial, waited.command, deadline, room),
            );
        }
        Ok(())
    }

    /// Lets the first of those that wait into the ring.
    #[tactic(auto, unfolding(tcmu_model::specs::Events::enter_answer, tcmu_model::specs::Events::after_enter))]
    pub fn enter(&mut self) -> Result<Enter, NoMemory>
        requires sound { IsSound self.old }
        requires now { self.old.now ≤ 2 ^ 63 }
        ensures answer { IfOk result (λ a. a ≡ enter_answer self.old) }
        ensures after { IfOk result (λ a. self.new ≡ after_enter self.old a) }
        ensures err { OnErr result (self.new ≡ self.old) }
        ensures accepted { self.new.accepted ≡ self.old.accepted }
    {
        let Some(first) = self.delayed.first() else {
            return Ok(Enter::Empty);
        };
        let serial = first.serial;
        let len = self.entry_length(&first.command);
        let blocks = self.blocks_of(&first.command);
        let need = self.ring.need(len);
        let free = self.ring.free();
        if need > free {
            return Ok(Enter::FullRing { need, free });
        }
        let left = self.free_blocks();
        if blocks > left {
            return Ok(Enter::FullBlocks {
                need: blocks,
                free: left,
            });
        }
        self.enter_first(len, blocks)?;
        Ok(Enter::Entered(serial))
    }

    /// The first serial that no unfinished command has.
    fn unknown(&self, serials: &Serials) -> Option<u64>
        requires sound { IsSound self.now }
        requires rising { IsRising serials.now.items }
        ensures value { result ≡ unknown_serial self.entry.now.unfinished serials.now.items }
        ensures few { result ≡ None → length serials.now.items ≤ 65536 }
    {
        unknown(self.unfinished(), serials.as_slice())
    }

    /// Whether the device has task management notes.
    fn has_notes(&self) -> bool
        ensures { result ≡ self.entry.now.settings.flags.tmr }
    {
        self.settings.flags.tmr
    }

    /// Lays a note for which there is room.
    #[tactic(auto, unfolding(tcmu_model::specs::Events::with_note))]
    fn note(&mut self, kind: u8, serials: &Serials, len: u32) -> Result<(), NoMemory>
        requires small { len ≤ 4194304 }
        requires len { len ≡ tmr_length_of serials.now.items }
        requires ring { need self.old.ring len ≤ free self.old.ring }
        ensures ok { OnOk result (self.new ≡ with_note self.old kind serials.now.items) }
        ensures err { OnErr result (self.new ≡ self.old) }
        ensures accepted { self.new.accepted ≡ self.old.accepted }
    {
        let serials = Serials::from_slice(self.alloc, serials.as_slice())?;
        self.ring.lay(RingItem {
            len,
            content: Content::Note { kind, serials },
        })?;
        Ok(())
    }

    /// Lays a note of task management on these commands.
    #[tactic(auto, unfolding(tcmu_model::specs::Events::tmr_answer, tcmu_model::specs::Events::after_tmr))]
    pub fn tmr(&mut self, kind: u8, serials: &Serials) -> Result<Tmr, NoMemory>
        requires sound { IsSound self.old }
        requires rising { IsRising serials.now.items }
        ensures answer { IfOk result (λ a. a ≡ tmr_answer self.old serials.now.items) }
        ensures after { IfOk result (λ a. self.new ≡ after_tmr self.old kind serials.now.items a) }
        ensures err { OnErr result (self.new ≡ self.old) }
        ensures accepted { self.new.accepted ≡ self.old.accepted }
    {
        if !self.has_notes() {
            return Ok(Tmr::Off);
        }
        if self.blocked {
            return Ok(Tmr::Busy);
        }
        if let Some(serial) = self.unknown(serials) {
            return Ok(Tmr::Unknown(serial));
        }
        let len = tmr_length(serials.len() as u32);
        let need = self.ring.need(len);
        let free = self.ring.free();
        if need > free {
            return Ok(Tmr::FullRing { need, free });
        }
        self.note(kind, serials, len)?;
        Ok(Tmr::Noted)
    }
}
