//! Resets.
ghost use Rattle.std.specs.Prelude.{◌≡◌, ◌+◌, ◌≤◌, ◌++◌, [], not, length, take, drop, map};
ghost use Rattle.std.specs.List.{filter};
ghost use Rattle.region_model.specs.TargetCleans.{emptied_of, region_reset, reset_log, target_reset, target_reset_answer};
ghost use Rattle.target_side.specs.Books.{to_log};
ghost use Rattle.target_side.specs.Kept.{Fits};

use crate::books::Books;
use crate::commands::Commands;
use crate::completing::reset_log;
use shm_region::Region;
use std::alloc::Global;
use tcmu_types::{Done, Listed};

/// Logs the first command as a reset of a level ends it, and lets it go; an expired one is in the log already.
fn close_first(commands: &mut Commands, log: &mut Listed<Done>, alloc: Global, level: u8)
    requires { to_log commands.old.rows ≤ log.old.spare }
    ensures rows { commands.new ≡ record commands.old { rows = drop 1 commands.old.rows } }
    ensures log { log.new.items ≡ log.old.items ++ map (λ e. reset_log level e.pending) (filter (λ e. not e.pending.expired) (take 1 commands.old.rows)) }
    ensures room { to_log commands.new.rows + log.old.spare ≤ log.new.spare + to_log commands.old.rows }
{
    let Some(id) = commands.least() else {
        return;
    };
    if let Some(pending) = commands.finish(id) {
        if !pending.expired {
            log.push(reset_log(alloc, level, &pending));
        }
    }
}

/// Logs each command that has not expired, and lets all go.
fn close_all(commands: &mut Commands, log: &mut Listed<Done>, alloc: Global, level: u8)
    requires { to_log commands.old.rows ≤ log.old.spare }
    ensures rows { commands.new ≡ record commands.old { rows = [] } }
    ensures log { log.new.items ≡ log.old.items ++ map (λ e. reset_log level e.pending) (filter (λ e. not e.pending.expired) commands.old.rows) }
    ensures room { log.old.spare ≤ log.new.spare + to_log commands.old.rows }
{
    for _ in 0..commands.len() {
        close_first(commands, log, alloc, level);
    }
}

/// Empties the area and the ring of a region.
#[tactic(auto, unfolding(region_model::specs::TargetCleans::region_reset))]
fn empty_region(region: &mut Region)
    ensures { region.new ≡ region_reset region.old }
{
    region.shrink(0);
    region.set_head(0);
    region.set_tail(0);
}

impl Books {
    /// How many completions there are.
    fn logged(&self) -> usize
        ensures { result ≡ length self.entry.now.log }
    {
        self.log.len()
    }

    /// Logs all that is left, and forgets it.
    fn empty(&mut self, level: u8)
        ensures { self.new ≡ emptied_of self.old level }
    {
        close_all(&mut self.entries.commands, &mut self.log, self.alloc, level);
        self.delayed.close(&mut self.log, self.alloc, level);
        self.entries.places.reset();
        self.laid = 0;
        self.cleared = 0;
        self.broken = None;
    }

    /// Cleans up to the first fault, which is not answered, and ends all that is left. The answer counts the completions.
    #[tactic(auto, unfolding(region_model::specs::TargetCleans::target_reset, region_model::specs::TargetCleans::target_reset_answer))]
    pub(crate) fn reset(&mut self, region: &mut Region, level: u8) -> u64
        requires { Fits region.old self.old }
        ensures answer { result ≡ target_reset_answer region.old self.old level }
        ensures target { self.new ≡ target_reset region.old self.old level }
        ensures region { region.new ≡ region_reset region.old }
    {
        let before = self.logged();
        let _ = self.clean(region);
        self.empty(level);
        empty_region(region);
        (self.logged() - before) as u64
    }
}
