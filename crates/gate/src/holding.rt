//! A gate that holds one job until another is answered.
ghost use Rattle.std.specs.Prelude.{◌≡◌, ◌≤◌, ◌||◌, nat_le, false, max, IsTrue, if◌then◌else◌};

use crate::passing::Gate;
use std::marker::Model;
use std::sync::{Mutex, Wait};
use std::thread::yield_now;

#[cfg(test)]
mod tests;

/// What lies under the mutex of a gate.
#[derive(Drop)]
struct Watch {
    /// How many turns a pass may take.
    limit: u64,
    /// Whether the job that is waited for was answered.
    answered: bool,
    /// The most turns that one pass took.
    most_turns: u64,
    /// Whether a pass reached its limit.
    timed_out: bool,
    ghost at_limit: { IsTrue timed_out → limit ≤ most_turns },
}

impl Watch {
    fn new(limit: u64) -> Watch
        ensures limit { result.limit ≡ limit }
        ensures begun { (result.answered ≡ false) × (result.most_turns ≡ 0) × (result.timed_out ≡ false) }
    {
        Watch {
            limit,
            answered: false,
            most_turns: 0,
            timed_out: false,
        }
    }

    /// The `turns`-th turn of a pass, and whether it is the last one: the answer came, or the limit is reached.
    fn take_turn(&mut self, turns: u64) -> bool
        ensures last { result ≡ (self.old.answered || nat_le self.old.limit turns) }
        ensures same { (self.new.limit ≡ self.old.limit) × (self.new.answered ≡ self.old.answered) }
        ensures most { self.new.most_turns ≡ (if self.old.answered then self.old.most_turns else max self.old.most_turns turns) }
        ensures timed_out { self.new.timed_out ≡ (if self.old.answered then self.old.timed_out else self.old.timed_out || nat_le self.old.limit turns) }
    {
        if self.answered {
            return true;
        }
        self.most_turns = self.most_turns.max(turns);
        if turns < self.limit {
            return false;
        }
        self.timed_out = true;
        true
    }
}

/// A gate that holds the job of one serial until that of another is answered, or for so many turns. A turn is one lock and unlock of its
/// mutex. It does not look at the device. Contracts see the two serials and the number of turns.
#[derive(Drop)]
pub struct HoldGate {
    held: u64,
    until: u64,
    limit: u64,
    watch: Mutex<Watch>,
}

impl Model for HoldGate {
    ghost use Rattle.gate.specs.Holding.{HoldData};

    ghost Value = { HoldData };

    ghost view = { λ g. record { held = g.held; until = g.until; limit = g.limit } };
}

impl HoldGate {
    /// Holds the job of serial `held` until that of serial `until` is answered, for at most `limit` turns.
    pub fn new(held: u64, until: u64, limit: u64) -> HoldGate
        ensures { result ≡ record { held = held; until = until; limit = limit } }
    {
        HoldGate {
            held,
            until,
            limit,
            watch: Mutex::new(Watch::new(limit)),
        }
    }

    /// Whether a pass took all its turns, and went on without the answer.
    pub fn timed_out<R: Wait>(&self, rt: &R) -> bool {
        self.watch.lock(rt).timed_out
    }
}

impl Gate for HoldGate {
    fn pass<R: Wait>(&self, rt: &R, _device: u32, serial: u64) {
        if serial != self.held {
            return;
        }
        for turn in 0..self.limit {
            if self.watch.lock(rt).take_turn(turn + 1) {
                return;
            }
            yield_now();
        }
    }

    fn answered<R: Wait>(&self, rt: &R, _device: u32, serial: u64) {
        if serial == self.until {
            self.watch.lock(rt).answered = true;
        }
    }
}
