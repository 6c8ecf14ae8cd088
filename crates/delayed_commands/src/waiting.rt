//! The delayed commands of a device: accepted, and without an item until there is room.
ghost use Rattle.std.specs.Prelude.{◌≡◌, ◌+◌, ◌<◌, ◌≤◌, ◌^◌, not, [], ◌∷◌, ◌++◌, length, map, take, drop, IfOk, OnOk, IfSome, MatchOption, ◌==◌};
ghost use Rattle.std.specs.List.{filter};
ghost use Rattle.tcmu_model.specs.Device.{Delayed};
ghost use Rattle.tcmu_model.specs.Events.{has_left, departure, reset_completion};
ghost use Rattle.delayed_commands.specs.Waits.{IsNext};

use crate::closings::{closing, reset_completion};
use std::alloc::Global;
use std::collections::VecDeque;
use std::marker::Model;
use tcmu_types::{Command, Done, Listed, NoMemory, ScsiStatus};

/// A command that waits for room up to a moment (ticks).
#[derive(Drop)]
pub struct DelayedCommand {
    /// From 1; the command keeps it when it enters the ring.
    pub serial: u64,
    /// As it was submitted, with the bytes that it sends.
    pub command: Command,
    /// In ticks of the device's clock: the submit's moment plus `qfull`; a tick to it or beyond ends the wait.
    pub leaves: u64,
}

impl Model for DelayedCommand {
    ghost use Rattle.tcmu_model.specs.Device.{Delayed};

    ghost Value = { Delayed };

    ghost view = { λ a. record { serial = a.serial; command = a.command; leaves = a.leaves } };
}

impl DelayedCommand {
    /// Whether its time is up.
    fn has_left(&self, now: u64) -> bool
        ensures { result ≡ has_left now self.now }
    {
        self.leaves <= now
    }

    /// The completion of a command that found no room in time: TASK SET FULL (SAM-5, 5.3.1).
    fn departure(&self, alloc: Global) -> Done
        ensures { result ≡ departure self.now }
    {
        closing(
            alloc,
            ScsiStatus::TASK_SET_FULL,
            None,
            self.serial,
            &self.command,
        )
    }
}

/// The delayed commands, in the order in which they were accepted.
#[derive(Drop)]
pub struct DelayedCommands {
    commands: VecDeque<DelayedCommand>,
}

impl Model for DelayedCommands {
    ghost use Rattle.std.specs.Prelude.{◌-◌};
    ghost use Rattle.std.specs.VecDeque.{deque_len, deque_capacity};
    ghost use Rattle.tcmu_types.specs.Data.{Spared};
    ghost use Rattle.tcmu_model.specs.Device.{Delayed};

    ghost Value = { Spared Delayed };

    ghost view = { λ a. record { items = a.commands.items; spare = deque_capacity a.commands - deque_len a.commands } };
}

impl DelayedCommands {
    /// No command.
    pub fn new(alloc: Global) -> DelayedCommands
        ensures { result.items ≡ [] }
    {
        DelayedCommands {
            commands: VecDeque::new(alloc),
        }
    }

    /// How many commands wait.
    pub fn len(&self) -> usize
        ensures value { result ≡ length self.now.items }
        ensures few { result < 2 ^ 63 }
    {
        self.commands.len()
    }

    /// Whether none waits.
    pub fn is_empty(&self) -> bool
        ensures { result ≡ (length self.now.items == 0) }
    {
        self.commands.is_empty()
    }

    /// Makes room for one more.
    pub fn reserve(&mut self) -> Result<(), NoMemory>
        ensures items { self.new.items ≡ self.old.items }
        ensures room { OnOk result (1 ≤ self.new.spare) }
    {
        self.commands.reserve(1)?;
        Ok(())
    }

    /// Appends a command in the room that is there.
    pub fn push(&mut self, command: DelayedCommand)
        requires { 1 ≤ self.old.spare }
        ensures { self.new.items ≡ self.old.items ++ command ∷ [] }
    {
        self.commands.push_back_reserved(command);
    }

    /// The first of them.
    pub fn first(&self) -> Option<&DelayedCommand>
        ensures { MatchOption result (self.now.items ≡ []) (λ w. IsNext self.now.items w.now) }
    {
        self.commands.front()
    }

    /// Takes the first of them out.
    pub fn pop(&mut self) -> Option<DelayedCommand>
        ensures { MatchOption result ((self.old.items ≡ []) × (self.new.items ≡ [])) (λ w. self.old.items ≡ w ∷ self.new.items) }
    {
        self.commands.pop_front()
    }

    /// Logs the commands whose time is up, and lets them go.
    pub fn let_go_due(&mut self, log: &mut Listed<Done>, alloc: Global, now: u64)
        requires { length self.old.items ≤ log.old.spare }
        ensures items { self.new.items ≡ filter (λ w. not (has_left now w)) self.old.items }
        ensures log { log.new.items ≡ log.old.items ++ map departure (filter (has_left now) self.old.items) }
        ensures room { length self.new.items + log.old.spare ≤ log.new.spare + length self.old.items }
    {
        for _ in 0..self.len() {
            self.let_go_or_turn(log, alloc, now);
        }
    }

    /// Logs the first command and lets it go where its time is up, and else turns it behind the others.
    fn let_go_or_turn(&mut self, log: &mut Listed<Done>, alloc: Global, now: u64)
        requires room { 1 ≤ log.old.spare }
        requires some { 0 < length self.old.items }
        ensures items { self.new.items ≡ drop 1 self.old.items ++ filter (λ w. not (has_left now w)) (take 1 self.old.items) }
        ensures log { log.new.items ≡ log.old.items ++ map departure (filter (has_left now) (take 1 self.old.items)) }
        ensures room { length self.new.items + log.old.spare ≤ log.new.spare + length self.old.items }
    {
        if let Some(command) = self.commands.pop_front() {
            if command.has_left(now) {
                log.push(command.departure(alloc));
            } else {
                self.commands.push_back_reserved(command);
            }
        }
    }

    /// Logs all of them as a reset of a level ends them, and lets them go.
    pub fn close(&mut self, log: &mut Listed<Done>, alloc: Global, level: u8)
        requires { length self.old.items ≤ log.old.spare }
        ensures items { self.new.items ≡ [] }
        ensures log { log.new.items ≡ log.old.items ++ map (λ w. reset_completion level w.serial w.command) self.old.items }
    {
        for _ in 0..self.len() {
            self.close_one(log, alloc, level);
        }
    }

    /// Logs the first command, and lets it go.
    fn close_one(&mut self, log: &mut Listed<Done>, alloc: Global, level: u8)
        requires room { 1 ≤ log.old.spare }
        requires some { 0 < length self.old.items }
        ensures items { self.new.items ≡ drop 1 self.old.items }
        ensures log { log.new.items ≡ log.old.items ++ map (λ w. reset_completion level w.serial w.command) (take 1 self.old.items) }
        ensures room { log.old.spare ≤ log.new.spare + 1 }
    {
        if let Some(command) = self.commands.pop_front() {
            log.push(reset_completion(alloc, level, command.serial, &command.command));
        }
    }
}
