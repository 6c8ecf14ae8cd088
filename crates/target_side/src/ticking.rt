//! Ticks.
ghost use Rattle.std.specs.Prelude.{◌≡◌, ◌+◌, ◌≤◌, ◌^◌, ◌++◌, not, length, map};
ghost use Rattle.std.specs.List.{filter};
ghost use Rattle.tcmu_model.specs.Events.{later};
ghost use Rattle.region_model.specs.TargetSteps.{checked, expired_at, is_due_at, target_tick_answer, target_ticked};
ghost use Rattle.target_side.specs.Books.{to_log};
ghost use Rattle.target_side.specs.Ticking.{ExpiresNext};

use crate::books::Books;
use crate::commands::Commands;
use crate::completing::expiry;
use std::alloc::Global;
use tcmu_types::{Done, Listed};

/// The moment n ticks on.
fn later(now: u64, n: u32) -> u64
    requires { now ≤ 2 ^ 63 }
    ensures value { result ≡ later now n }
    ensures most { result ≤ 2 ^ 63 }
{
    (now + n as u64).min(1 << 63)
}

/// Logs the first command that is due, and marks it expired; or finds none.
fn expire_next(commands: &mut Commands, log: &mut Listed<Done>, alloc: Global, now: u64) -> bool
    requires { to_log commands.old.rows ≤ log.old.spare }
    ensures next { ExpiresNext now commands.old log.old.items result commands.new log.new.items }
    ensures room { to_log commands.new.rows + log.old.spare ≤ log.new.spare + to_log commands.old.rows }
{
    let Some(id) = commands.next_due(now) else {
        return false;
    };
    match commands.get(id) {
        Some(pending) => log.push(expiry(alloc, pending)),
        None => unreachable!(),
    }
    commands.expire(id);
    true
}

/// Logs the commands that are due, and marks them expired. They keep their blocks.
fn expire_due(commands: &mut Commands, log: &mut Listed<Done>, alloc: Global, now: u64)
    requires { to_log commands.old.rows ≤ log.old.spare }
    ensures rows { commands.new ≡ record commands.old { rows = map (expired_at now) commands.old.rows } }
    ensures log { log.new.items ≡ log.old.items ++ map (λ e. checked 0x0b 0x08 0x01 e.pending) (filter (is_due_at now) commands.old.rows) }
    ensures room { to_log commands.new.rows + log.old.spare ≤ log.new.spare + to_log commands.old.rows }
{
    for _ in commands.expired()..commands.len() {
        if !expire_next(commands, log, alloc, now) {
            return;
        }
    }
}

impl Books {
    /// Lets `n` ticks pass, and logs the commands that expire and those that waited too long for room. The answer counts them.
    #[tactic(auto, unfolding(region_model::specs::TargetSteps::target_tick_answer, region_model::specs::TargetSteps::target_ticked))]
    pub(crate) fn tick(&mut self, n: u32) -> u64
        ensures answer { result ≡ target_tick_answer self.old n }
        ensures target { self.new ≡ target_ticked self.old n }
    {
        let before = self.log.len();
        self.now = later(self.now, n);
        expire_due(
            &mut self.entries.commands,
            &mut self.log,
            self.alloc,
            self.now,
        );
        self.delayed.let_go_due(&mut self.log, self.alloc, self.now);
        (self.log.len() - before) as u64
    }
}
