//! The commands in a state: the least serial among them, and how many they are.
ghost use Rattle.std.specs.Prelude.{◌≡◌, ◌+◌, ◌<◌, ◌≤◌, ◌^◌, ◌==◌, length, drop, None, if◌then◌else◌};
ghost use Rattle.tcmu_path.specs.Tallies.{least_in, lesser, without};

use crate::row::Row;
use std::collections::VecDeque;
use tcmu_model::CommandState;

/// The serial of the first command in a state, from a place on.
fn next_in(rows: &VecDeque<Row>, from: usize, state: CommandState) -> Option<u64>
    requires { from ≤ length rows.now.items }
    ensures { result ≡ least_in state (drop from rows.now.items) }
{
    for at in from..rows.len() {
        let row = &rows[at];
        if row.state().is(state) {
            return Some(row.serial());
        }
    }
    None
}

/// The least serial of the commands in a state, and how many they are: kept, so that no step of a drain looks for them.
#[derive(Clone, Copy, Debug)]
pub struct Tally {
    /// None where no command is in the state.
    pub least: Option<u64>,
    /// At most as many as there are unfinished commands.
    pub count: usize,
}

impl Tally {
    /// Of no commands.
    pub fn new() -> Tally
        ensures least { result.least ≡ None }
        ensures count { result.count ≡ 0 }
    {
        Tally {
            least: None,
            count: 0,
        }
    }

    /// The command of a serial comes into the state.
    pub fn enter(&mut self, serial: u64)
        requires { self.old.count < 2 ^ 63 }
        ensures least { self.new.least ≡ lesser self.old.least serial }
        ensures count { self.new.count ≡ self.old.count + 1 }
    {
        self.count += 1;
        self.least = match self.least {
            Some(least) if least < serial => Some(least),
            _ => Some(serial),
        };
    }

    /// The command of a serial, which stands at a place, leaves the state. Where it was the first of them, the next one is looked for
    /// behind it, unless there is none.
    pub fn leave(&mut self, rows: &VecDeque<Row>, at: usize, serial: u64, state: CommandState)
        requires some { 1 ≤ self.old.count }
        requires within { at < length rows.now.items }
        ensures least { self.new.least ≡ without self.old.least serial (if self.new.count == 0 then None else least_in state (drop (at + 1) rows.now.items)) }
        ensures count { self.new.count + 1 ≡ self.old.count }
    {
        self.count -= 1;
        self.least = match self.least {
            Some(least) if least == serial => self.behind(rows, at, state),
            other => other,
        };
    }

    /// The serial of the next of them behind a place.
    fn behind(&self, rows: &VecDeque<Row>, at: usize, state: CommandState) -> Option<u64>
        requires { at < length rows.now.items }
        ensures { result ≡ (if self.now.count == 0 then None else least_in state (drop (at + 1) rows.now.items)) }
    {
        if self.count == 0 {
            return None;
        }
        let _count = rows.len();
        next_in(rows, at + 1, state)
    }
}
