//! What clean, tick, reset and restart do to the rows and the log.
ghost use Rattle.std.specs.Prelude.{◌≡◌, ◌+◌, ◌-◌, ◌≤◌, [], ◌++◌, length, take, drop, map};
ghost use Rattle.std.specs.List.{filter, count_by};
ghost use Rattle.tcmu_model.specs.Events.{finish, finish_all, expire, is_due, expiry, is_open, reset_completion, lose, is_losing};
ghost use Rattle.tcmu_model.specs.RingState.{cleared_commands, published_commands};
ghost use Rattle.tcmu_path.specs.Away.{AreAway};
ghost use Rattle.tcmu_path.specs.Changing.{books_of};
ghost use Rattle.tcmu_path.specs.Room.{to_place, to_log, blocks_of_commands, KeepsRoom};

use crate::ring::Ring;
use crate::row::Row;
use crate::rows::Rows;
use delayed_commands::reset_completion;
use std::alloc::Global;
use std::collections::VecDeque;
use tcmu_model::blocks_of;
use tcmu_types::{Done, Listed, Serials, Settings};

/// Finishes the placed command of a serial, where it is there, and logs its completion.
fn finish(rows: &mut Rows, log: &mut Listed<Done>, held: &mut u32, serial: u64, settings: &Settings)
    requires room { to_log rows.old.items ≤ log.old.spare }
    requires held { held.old ≡ blocks_of_commands settings.now.pages rows.old.items }
    ensures books { books_of rows.new log.new ≡ finish settings.now.flags.read_len (books_of rows.old log.old) serial }
    ensures room { to_log rows.new.items + log.old.spare ≤ log.new.spare + to_log rows.old.items }
    ensures held { held.new ≡ blocks_of_commands settings.now.pages rows.new.items }
    ensures less { held.new ≤ held.old }
    ensures to_place { to_place rows.new.items ≤ to_place rows.old.items }
    ensures grows { length log.old.items ≤ length log.new.items }
{
    if let Some(row) = rows.take_placed(serial) {
        *held -= blocks_of(row.command(), settings.pages);
        if let Some(done) = row.into_completion(settings.flags.read_len) {
            log.push(done);
        }
    }
}

/// Finishes the placed commands of these serials, one after another.
fn finish_all(
    rows: &mut Rows,
    log: &mut Listed<Done>,
    held: &mut u32,
    serials: &[u64],
    settings: &Settings,
)
    requires room { to_log rows.old.items ≤ log.old.spare }
    requires held { held.old ≡ blocks_of_commands settings.now.pages rows.old.items }
    ensures books { books_of rows.new log.new ≡ finish_all settings.now.flags.read_len (books_of rows.old log.old) serials.now }
    ensures room { to_log rows.new.items + log.old.spare ≤ log.new.spare + to_log rows.old.items }
    ensures held { held.new ≡ blocks_of_commands settings.now.pages rows.new.items }
    ensures less { held.new ≤ held.old }
    ensures to_place { to_place rows.new.items ≤ to_place rows.old.items }
    ensures grows { length log.old.items ≤ length log.new.items }
{
    for serial in serials {
        finish(rows, log, held, *serial, settings);
    }
}

/// Logs the commands that are due.
fn log_due(rows: &VecDeque<Row>, log: &mut Listed<Done>, alloc: Global, now: u64)
    requires { count_by (is_due now) rows.now.items ≤ log.old.spare }
    ensures log { log.new.items ≡ log.old.items ++ map expiry (filter (is_due now) rows.now.items) }
    ensures room { log.old.spare ≤ log.new.spare + count_by (is_due now) rows.now.items }
{
    for at in 0..rows.len() {
        let row = &rows[at];
        if row.is_due(now) {
            log.push(row.expiry(alloc));
        }
    }
}

/// Logs the commands that are due, and marks them expired.
pub fn expire_all(rows: &mut Rows, log: &mut Listed<Done>, alloc: Global, now: u64)
    requires { to_log rows.old.items ≤ log.old.spare }
    ensures rows { rows.new.items ≡ map (expire now) rows.old.items }
    ensures log { log.new.items ≡ log.old.items ++ map expiry (filter (is_due now) rows.old.items) }
    ensures room { to_log rows.new.items + log.old.spare ≤ log.new.spare + to_log rows.old.items }
    ensures kept { KeepsRoom rows.old.items rows.new.items }
{
    log_due(rows.all(), log, alloc, now);
    rows.mark_due(now);
}

/// Logs each command that is open as a reset ends it.
fn log_open(rows: &VecDeque<Row>, log: &mut Listed<Done>, alloc: Global, level: u8)
    requires { to_log rows.now.items ≤ log.old.spare }
    ensures log { log.new.items ≡ log.old.items ++ map (λ u. reset_completion level u.serial u.command) (filter is_open rows.now.items) }
    ensures room { log.old.spare ≤ log.new.spare + to_log rows.now.items }
{
    for at in 0..rows.len() {
        let row = &rows[at];
        if !row.is_expired() {
            log.push(reset_completion(alloc, level, row.serial(), row.command()));
        }
    }
}

/// Logs each unfinished command that is open as a reset of a level ends it, and forgets the unfinished commands.
pub fn close_all(rows: &mut Rows, log: &mut Listed<Done>, alloc: Global, level: u8)
    requires { to_log rows.old.items ≤ log.old.spare }
    ensures rows { rows.new.items ≡ [] }
    ensures log { log.new.items ≡ log.old.items ++ map (λ u. reset_completion level u.serial u.command) (filter is_open rows.old.items) }
    ensures room { log.old.spare ≤ log.new.spare + to_log rows.old.items }
{
    log_open(rows.all(), log, alloc, level);
    rows.clear();
}

/// How many commands a restart takes.
fn losing(rows: &VecDeque<Row>, answered: &[u64]) -> u64
    ensures { result ≡ count_by (is_losing answered.now) rows.now.items }
{
    rows.iter().filter(|row| row.is_losing(answered)).count() as u64
}

/// The answers that are published and not cleared.
fn published<'a>(placed: &'a Serials, ring: &Ring) -> &'a [u64]
    requires { published_commands ring.now ≤ length placed.now.items }
    ensures value { result.now ≡ take (published_commands ring.now - cleared_commands ring.now) (drop (cleared_commands ring.now) placed.now.items) }
    ensures cleared { cleared_commands ring.now ≤ published_commands ring.now }
{
    let from = ring.cleared_commands();
    let to = ring.published_commands();
    &placed.as_slice()[from..to]
}

/// Finishes the commands whose answers are published. Those whose answers are cleared are finished, so it does not go over them.
pub fn finish_published(
    rows: &mut Rows,
    log: &mut Listed<Done>,
    held: &mut u32,
    placed: &Serials,
    ring: &Ring,
    settings: &Settings,
)
    requires room { to_log rows.old.items ≤ log.old.spare }
    requires held { held.old ≡ blocks_of_commands settings.now.pages rows.old.items }
    requires published { published_commands ring.now ≤ length placed.now.items }
    requires away { AreAway (take (cleared_commands ring.now) placed.now.items) rows.old.items }
    ensures books { books_of rows.new log.new ≡ finish_all settings.now.flags.read_len (books_of rows.old log.old) (take (published_commands ring.now) placed.now.items) }
    ensures room { to_log rows.new.items + log.old.spare ≤ log.new.spare + to_log rows.old.items }
    ensures held { held.new ≡ blocks_of_commands settings.now.pages rows.new.items }
    ensures to_place { to_place rows.new.items ≤ to_place rows.old.items }
    ensures grows { length log.old.items ≤ length log.new.items }
{
    let serials = published(placed, ring);
    finish_all(rows, log, held, serials, settings);
}

/// Loses the commands that a restart takes, and counts them. Of the answers that are cleared no command is left.
pub fn lose_unpublished(rows: &mut Rows, placed: &Serials, ring: &Ring) -> u64
    requires published { published_commands ring.now ≤ length placed.now.items }
    requires away { AreAway (take (cleared_commands ring.now) placed.now.items) rows.old.items }
    ensures rows { rows.new.items ≡ map (lose (take (published_commands ring.now) placed.now.items)) rows.old.items }
    ensures count { result ≡ count_by (is_losing (take (published_commands ring.now) placed.now.items)) rows.old.items }
    ensures kept { KeepsRoom rows.old.items rows.new.items }
{
    let serials = published(placed, ring);
    let count = losing(rows.all(), serials);
    rows.mark_lost(serials);
    count
}
