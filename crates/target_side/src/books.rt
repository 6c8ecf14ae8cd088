//! The target's books: what it keeps, with the bounds of its numbers alone.
ghost use Rattle.std.specs.Prelude.{◌≡◌, ◌+◌, ◌≤◌, true, false, length, IfOk};
ghost use Rattle.region_model.specs.TargetSteps.{deadline_in, opening_target, target_block_answer, target_blocked};
ghost use Rattle.target_side.specs.Books.{to_log};

use crate::commands::Commands;
use crate::entries::Entries;
use crate::places::Places;
use delayed_commands::DelayedCommands;
use std::alloc::Global;
use std::marker::Model;
use tcmu_types::{Done, Flags, Listed, NoMemory, Settings};

/// What the target of one region keeps. The ring's size, the limit of the blocks and the pages of a block are with the entries.
#[derive(Drop)]
pub(crate) struct Books {
    pub(crate) alloc: Global,
    pub(crate) flags: Flags,
    pub(crate) timeout: u32,
    pub(crate) qfull: u32,
    pub(crate) now: u64,
    pub(crate) blocked: bool,
    pub(crate) accepted: u64,
    pub(crate) entries: Entries,
    pub(crate) delayed: DelayedCommands,
    pub(crate) laid: u64,
    pub(crate) cleared: u64,
    pub(crate) broken: Option<u16>,
    pub(crate) log: Listed<Done>,
}

impl Model for Books {
    ghost use Rattle.region_model.specs.Sides.{TargetState};
    ghost use Rattle.target_side.specs.Books.{books_of, IsBooks};

    ghost Value = { TargetState };

    ghost view = { λ a. books_of a.flags a.timeout a.qfull a.now a.blocked a.accepted a.entries a.delayed.items a.laid a.cleared a.broken a.log.items };

    ghost invariant = { λ a. IsBooks (books_of a.flags a.timeout a.qfull a.now a.blocked a.accepted a.entries a.delayed.items a.laid a.cleared a.broken a.log.items) a.log.spare };
}

impl Books {
    /// The target of a new region of these settings.
    #[tactic(auto, unfolding(region_model::specs::TargetSteps::opening_target))]
    pub(crate) fn new(alloc: Global, settings: Settings) -> Result<Books, NoMemory>
        ensures { IfOk result (λ t. t ≡ opening_target settings) }
    {
        let commands = Commands::new(alloc, settings.blocks)?;
        Ok(Books {
            alloc,
            flags: settings.flags,
            timeout: settings.timeout,
            qfull: settings.qfull,
            now: 0,
            blocked: false,
            accepted: 0,
            entries: Entries {
                pages: settings.pages,
                commands,
                places: Places::new(alloc, settings.ring),
            },
            delayed: DelayedCommands::new(alloc),
            laid: 0,
            cleared: 0,
            broken: None,
            log: Listed::new(alloc),
        })
    }

    /// When a command that is laid now is due.
    pub(crate) fn deadline(&self) -> Option<u64>
        ensures { result ≡ deadline_in self.entry.now }
    {
        if self.timeout == 0 {
            None
        } else {
            Some(self.now + self.timeout as u64)
        }
    }

    /// No fewer than the completions that are still to come, and one more.
    pub(crate) fn completions_to_log(&self) -> u64
        ensures { to_log self.entry.now.rows + length self.entry.now.delayed + 1 ≤ result }
    {
        self.entries.commands.len() as u64 + self.delayed.len() as u64 + 1
    }

    /// Lets it accept no command; the answer says whether it was not blocked before.
    #[tactic(auto, unfolding(region_model::specs::TargetSteps::target_block_answer, region_model::specs::TargetSteps::target_blocked))]
    pub(crate) fn block(&mut self) -> bool
        ensures answer { result ≡ target_block_answer self.old true }
        ensures target { self.new ≡ target_blocked self.old true }
    {
        let changed = !self.blocked;
        self.blocked = true;
        changed
    }

    /// Lets it accept commands again; the answer says whether it was blocked before.
    #[tactic(auto, unfolding(region_model::specs::TargetSteps::target_block_answer, region_model::specs::TargetSteps::target_blocked))]
    pub(crate) fn unblock(&mut self) -> bool
        ensures answer { result ≡ target_block_answer self.old false }
        ensures target { self.new ≡ target_blocked self.old false }
    {
        let changed = self.blocked;
        self.blocked = false;
        changed
    }
}
