//! The unfinished commands of a plain device, in rising serial. One is found by bisection, and the first is taken out without moving
//! the others; of the states that the drain asks for, the least serial is kept.
ghost use Rattle.std.specs.Prelude.{◌≡◌, ℕ, ◌<◌, ◌≤◌, ◌^◌, [], ◌∷◌, ◌++◌, length, map, true, false, None, Some, OnOk, MatchOption, slice_index_or};
ghost use Rattle.std.specs.List.{list_any, count_by};
ghost use Rattle.tcmu_model.specs.declared.state.CommandState.TheVariants.{Waiting, Out, Handled, Parked, Placed};
ghost use Rattle.tcmu_types.specs.Lists.{IsFirst, first_of, with_first, without_first, Every};
ghost use Rattle.tcmu_model.specs.Device.{Unfinished, is_at, has_state, has_serial};
ghost use Rattle.tcmu_model.specs.Events.{unknown_serial, is_in_hand, lose, expire, with_reply, turned};
ghost use Rattle.tcmu_path.specs.Room.{KeepsRoom};
ghost use Rattle.tcmu_path.specs.Tallies.{serials_of, least_in};

use crate::row::Row;
use crate::tally::Tally;
use std::alloc::Global;
use std::collections::VecDeque;
use std::marker::Model;
use tcmu_model::CommandState;
use tcmu_types::{NoMemory, Reply};

/// Marks the commands that are due.
fn expire_each(rows: &mut VecDeque<Row>, now: u64)
    ensures { rows.new.items ≡ map (expire now) rows.old.items }
{
    for at in 0..rows.len() {
        let row = &mut rows[at];
        row.expire(now);
    }
}

/// Loses the commands that a restart takes.
fn lose_each(rows: &mut VecDeque<Row>, answered: &[u64])
    ensures { rows.new.items ≡ map (lose answered.now) rows.old.items }
{
    for at in 0..rows.len() {
        let row = &mut rows[at];
        row.lose(answered);
    }
}

/// The unfinished commands, in rising serial.
#[derive(Drop)]
pub struct Rows {
    rows: VecDeque<Row>,
    out: Tally,
    handled: Tally,
}

impl Model for Rows {
    ghost use Rattle.std.specs.Prelude.{◌-◌};
    ghost use Rattle.std.specs.VecDeque.{deque_len, deque_capacity};
    ghost use Rattle.tcmu_types.specs.Data.{Spared};
    ghost use Rattle.tcmu_model.specs.Device.{Unfinished};
    ghost use Rattle.tcmu_path.specs.Tallies.{AreRows};

    ghost Value = { Spared Unfinished };

    ghost view = { λ a. record { items = a.rows.items; spare = deque_capacity a.rows - deque_len a.rows } };

    ghost invariant = { λ a. AreRows a.rows.items a.out a.handled };
}

impl Rows {
    /// No rows.
    pub fn new(alloc: Global) -> Rows
        ensures { result.items ≡ [] }
    {
        Rows {
            rows: VecDeque::new(alloc),
            out: Tally::new(),
            handled: Tally::new(),
        }
    }

    /// How many rows there are.
    pub fn len(&self) -> usize
        ensures value { result ≡ length self.now.items }
        ensures few { result < 2 ^ 63 }
    {
        self.rows.len()
    }

    /// All of them.
    pub fn all(&self) -> &VecDeque<Row>
        ensures { result.now.items ≡ self.now.items }
    {
        &self.rows
    }

    /// The least serial of those that are out.
    pub fn least_out(&self) -> Option<u64>
        ensures { result ≡ least_in Out self.now.items }
    {
        self.out.least
    }

    /// The least serial of those that are handled.
    pub fn least_handled(&self) -> Option<u64>
        ensures { result ≡ least_in Handled self.now.items }
    {
        self.handled.least
    }

    /// The index of the first command of a serial or of one above it.
    fn first_from(&self, serial: u64) -> usize
        ensures below { (k : ℕ) (d : Unfinished) → k < result → (slice_index_or self.now.items k d).serial < serial }
        ensures above { (k : ℕ) (d : Unfinished) → result ≤ k → k < length self.now.items → serial ≤ (slice_index_or self.now.items k d).serial }
        ensures within { result ≤ length self.now.items }
    {
        self.rows.partition_point(|row| row.serial() < serial)
    }

    /// The index of the command of a serial in a state.
    fn index_of(&self, serial: u64, state: CommandState) -> Option<usize>
        ensures { MatchOption result (list_any (is_at serial state) self.now.items ≡ false) (IsFirst (is_at serial state) self.now.items) }
    {
        let at = self.first_from(serial);
        if at == self.rows.len() {
            return None;
        }
        let row = &self.rows[at];
        if row.is_at(serial, state) {
            Some(at)
        } else {
            None
        }
    }

    /// Whether the command of a serial is in a state.
    pub fn has(&self, serial: u64, state: CommandState) -> bool
        ensures { result ≡ list_any (is_at serial state) self.now.items }
    {
        self.index_of(serial, state).is_some()
    }

    /// The command of a serial in a state.
    pub fn find(&self, serial: u64, state: CommandState) -> Option<&Row>
        ensures { MatchOption result (first_of (is_at serial state) self.now.items ≡ None) (λ r. first_of (is_at serial state) self.now.items ≡ Some r.now) }
    {
        match self.index_of(serial, state) {
            Some(at) => Some(&self.rows[at]),
            None => None,
        }
    }

    /// Whether an unfinished command has this serial.
    pub fn is_known(&self, serial: u64) -> bool
        ensures { result ≡ list_any (has_serial serial) self.now.items }
    {
        let at = self.first_from(serial);
        if at == self.rows.len() {
            return false;
        }
        let row = &self.rows[at];
        row.serial() == serial
    }

    /// How many commands are in a state.
    pub fn count_in(&self, state: CommandState) -> u32
        requires { length self.now.items ≤ 2 ^ 30 }
        ensures { result ≡ count_by (has_state state) self.now.items }
    {
        self.rows.iter().filter(|row| row.state().is(state)).count() as u32
    }

    /// How many commands are expired.
    pub fn count_expired(&self) -> u32
        requires { length self.now.items ≤ 2 ^ 30 }
        ensures { result ≡ count_by (λ u. u.expired) self.now.items }
    {
        self.rows.iter().filter(|row| row.is_expired()).count() as u32
    }

    /// How many commands are out, handled or parked: what keeps a reset from being made.
    pub fn handlers_out(&self) -> usize
        ensures { result ≡ count_by is_in_hand self.now.items }
    {
        self.rows.iter().filter(|row| row.is_in_hand()).count()
    }

    /// Makes room for one more.
    pub fn reserve(&mut self) -> Result<(), NoMemory>
        ensures items { self.new.items ≡ self.old.items }
        ensures room { OnOk result (1 ≤ self.new.spare) }
    {
        self.rows.reserve(1)?;
        Ok(())
    }

    /// Appends a command that waits, in the room that is there.
    pub fn push(&mut self, row: Row)
        requires room { 1 ≤ self.old.spare }
        requires waits { row.state ≡ Waiting }
        requires above { Every (λ s. s < row.serial) (serials_of self.old.items) }
        ensures { self.new.items ≡ self.old.items ++ row ∷ [] }
    {
        self.rows.push_back_reserved(row);
    }

    /// Sends the waiting command of a serial out, where it is there.
    pub fn send(&mut self, serial: u64)
        ensures turned { self.new.items ≡ turned serial Waiting Out self.old.items }
        ensures kept { KeepsRoom self.old.items self.new.items }
    {
        let _few = self.len();
        if let Some(at) = self.index_of(serial, CommandState::Waiting) {
            self.out.enter(serial);
            let row = &mut self.rows[at];
            row.set_state(CommandState::Out);
        }
    }

    /// Keeps the reply to the command of a serial that is out, where it is there.
    pub fn keep(&mut self, serial: u64, reply: &Reply)
        requires { (u : Unfinished) → first_of (is_at serial Out) self.old.items ≡ Some u → length reply.now.payload ≤ u.command.in_len }
        ensures items { self.new.items ≡ with_first (is_at serial Out) (with_reply reply.now) self.old.items }
        ensures kept { KeepsRoom self.old.items self.new.items }
    {
        let _few = self.len();
        if let Some(at) = self.index_of(serial, CommandState::Out) {
            self.out.leave(&self.rows, at, serial, CommandState::Out);
            self.handled.enter(serial);
            let row = &mut self.rows[at];
            row.keep(reply);
        }
    }

    /// Parks the handled command of a serial, where it is there.
    pub fn park(&mut self, serial: u64) -> bool
        ensures found { result ≡ list_any (is_at serial Handled) self.old.items }
        ensures turned { self.new.items ≡ turned serial Handled Parked self.old.items }
        ensures none { result ≡ false → self.new.items ≡ self.old.items }
        ensures parked { result ≡ true → list_any (is_at serial Parked) self.new.items ≡ true }
        ensures kept { KeepsRoom self.old.items self.new.items }
    {
        match self.index_of(serial, CommandState::Handled) {
            Some(at) => {
                self.handled
                    .leave(&self.rows, at, serial, CommandState::Handled);
                let row = &mut self.rows[at];
                row.set_state(CommandState::Parked);
                true
            }
            None => false,
        }
    }

    /// The parked command of a serial becomes one whose answer is placed, where it is there.
    pub fn place(&mut self, serial: u64) -> bool
        ensures found { result ≡ list_any (is_at serial Parked) self.old.items }
        ensures turned { self.new.items ≡ turned serial Parked Placed self.old.items }
        ensures none { result ≡ false → self.new.items ≡ self.old.items }
        ensures kept { KeepsRoom self.old.items self.new.items }
    {
        match self.index_of(serial, CommandState::Parked) {
            Some(at) => {
                let row = &mut self.rows[at];
                row.set_state(CommandState::Placed);
                true
            }
            None => false,
        }
    }

    /// Takes out the placed command of a serial, where it is there.
    pub fn take_placed(&mut self, serial: u64) -> Option<Row>
        ensures row { result ≡ first_of (is_at serial Placed) self.old.items }
        ensures rest { self.new.items ≡ without_first (is_at serial Placed) self.old.items }
    {
        match self.index_of(serial, CommandState::Placed) {
            Some(at) => self.rows.remove(at),
            None => None,
        }
    }

    /// Marks the commands that are due.
    pub fn mark_due(&mut self, now: u64)
        ensures items { self.new.items ≡ map (expire now) self.old.items }
        ensures kept { KeepsRoom self.old.items self.new.items }
    {
        expire_each(&mut self.rows, now);
    }

    /// Loses the commands that a restart takes: those in hand are among them.
    pub fn mark_lost(&mut self, answered: &[u64])
        ensures items { self.new.items ≡ map (lose answered.now) self.old.items }
        ensures kept { KeepsRoom self.old.items self.new.items }
    {
        lose_each(&mut self.rows, answered);
        self.out = Tally::new();
        self.handled = Tally::new();
    }

    /// Forgets all of them.
    pub fn clear(&mut self)
        ensures { self.new.items ≡ [] }
    {
        self.rows.clear();
        self.out = Tally::new();
        self.handled = Tally::new();
    }
}

/// The first serial of a list that no unfinished command has.
pub fn unknown(rows: &Rows, serials: &[u64]) -> Option<u64>
    ensures { result ≡ unknown_serial rows.now.items serials.now }
{
    for serial in serials {
        if !rows.is_known(*serial) {
            return Some(*serial);
        }
    }
    None
}
