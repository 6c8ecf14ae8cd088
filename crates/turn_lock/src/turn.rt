//! The turn, and the passes of those who take it.
ghost use Rattle.std.specs.Prelude.{◌≡◌, ◌+◌, ◌-◌, ◌<◌, ◌≤◌, ◌++◌, [], ◌∷◌, max, length, IsTrue, IfOk, IfErr, OnErr};
ghost use Rattle.turn_lock.specs.Lists.{EachOnce};
ghost use Rattle.tcmu_types.specs.Lists.{Every};
ghost use Rattle.turn_lock.specs.Receipts.{receipt_of, times, IsAbove, NoneTwice, FitsAt};
ghost use mathlib.Core.List.{IsPrefix};
ghost use Rattle.turn_lock.specs.Steps.{IsIdle, IsQueued, KeepsReceipts, HasTurn, Takes, IsUncounted, IsNote, Receives};

use crate::rule::{
    CountUp, Draw, Look, LookOrTake, Note, Opening, Order, Parts, PassOn, Slot, View,
};
use crate::stepped::Stepped;
use atomic_table::{Refused, Seat, Shared, Table};
use std::alloc::{AllocFailed, Global};
use std::marker::Model;
use std::snapshot::Snapshot;
use std::sync::Wait;
use std::thread::yield_now;
use tcmu_types::NoMemory;

/// The word with the next ticket to be drawn.
const TICKET: usize = 0;

/// The word with the ticket that has the turn.
const SERVING: usize = 1;

/// The word with the length of the history.
const COUNT: usize = 2;

/// The slot with the value.
const VALUE: usize = 0;

type Held<K> = Slot<K, <K as Stepped>::Ask, <K as Stepped>::Told>;

type Known<K> = View<K, <K as Stepped>::Entry, <K as Stepped>::Ask, <K as Stepped>::Told>;

type Desk<K> = Shared<Held<K>, Known<K>, Opening<K>, Order<K>>;

type Chair<K> = Seat<Held<K>, Known<K>>;

/// One value that many threads ask, and the order in which they do. Contracts see which turn it is, the number of all its
/// parts, and the script and the history that the value had at the start.
#[derive(Drop)]
pub struct Turn<K: Stepped> {
    table: Table<Held<K>, Known<K>, Opening<K>, Order<K>, Global>,
}

impl<K: Stepped> Model for Turn<K> {
    ghost use Rattle.std.specs.Prelude.{◌≡◌};
    ghost use Rattle.turn_lock.specs.Passes.{TurnData};

    ghost Value = { TurnData K.Script K.Entry };

    ghost view = { λ t. record {
      turn = t.table.shared.table_id;
      parts = t.table.shared.key.parts;
      script = K.script t.table.shared.key.value.value;
      begun = K.history t.table.shared.key.value.value;
    } };

    ghost invariant = { λ t. (t.table.shared.table_id.words ≡ 3) × (t.table.shared.table_id.slots ≡ 1) };
}

/// The right to ask the value of one turn, in one thread at a time. Contracts see which turn it is of, its number of parts,
/// the length of the longest history that it saw, and its receipts.
#[derive(Drop)]
pub struct Pass<K: Stepped> {
    seat: Chair<K>,
}

impl<K: Stepped> Model for Pass<K> {
    ghost use Rattle.turn_lock.specs.Passes.{PassData};
    ghost use Rattle.turn_lock.specs.Steps.{IsIdle};

    ghost Value = { PassData K.Ask K.Told };

    ghost view = { λ p. record {
      turn = p.seat.table_id;
      parts = p.seat.me.0.parts;
      seen = p.seat.me.0.seen;
      receipts = p.seat.me.0.receipts;
    } };

    ghost invariant = { λ p. IsIdle p.seat.me };
}

impl<K: Stepped> Turn<K> {
    /// Puts the value behind a turn. The pass can be split into as many as `parts`, at least one, and has no receipt. Where there is no
    /// memory the error has the value.
    pub fn start_or_give_back(
        alloc: Global,
        value: K,
        parts: u32,
    ) -> Result<(Turn<K>, Pass<K>), AllocFailed<K>>
        requires { 1 ≤ parts }
        ensures turn { IfOk result (λ r. r.0 ≡ record {
          turn = r.0.turn;
          parts = parts;
          script = K.script value;
          begun = K.history value;
        }) }
        ensures pass { IfOk result (λ r. r.1 ≡ record {
          turn = r.0.turn;
          parts = parts;
          seen = length (K.history value);
          receipts = [];
        }) }
        ensures given_back { IfErr result (λ e. e.value ≡ value) }
    {
        let words = [0, 0, value.length()];
        let opening = Opening {
            value: Snapshot::of(&value),
            parts: u64::from(parts),
        };
        let Ok(mut slots) = Vec::with_capacity(alloc, 1) else {
            return Err(AllocFailed { value });
        };
        slots.push_reserved(Slot {
            value: Some(value),
            note: None,
        });
        match Table::new(alloc, &words, slots, &opening) {
            Ok((table, seat)) => Ok((Turn { table }, Pass { seat })),
            Err(Refused { mut slots }) => {
                let Slot { value, note: _ } = slots.pop().unwrap();
                Err(AllocFailed {
                    value: value.unwrap(),
                })
            }
        }
    }

    /// As `start_or_give_back`; where there is no memory the value is dropped.
    pub fn start(alloc: Global, value: K, parts: u32) -> Result<(Turn<K>, Pass<K>), NoMemory>
        requires { 1 ≤ parts }
        ensures turn { IfOk result (λ r. r.0 ≡ record {
          turn = r.0.turn;
          parts = parts;
          script = K.script value;
          begun = K.history value;
        }) }
        ensures pass { IfOk result (λ r. r.1 ≡ record {
          turn = r.0.turn;
          parts = parts;
          seen = length (K.history value);
          receipts = [];
        }) }
    {
        Ok(Turn::start_or_give_back(alloc, value, parts)?)
    }

    /// A new pass with one part of this one, which belongs to this turn and has two or more, and with no receipt.
    pub fn split(&self, pass: &mut Pass<K>) -> Pass<K>
        requires own { pass.old.turn ≡ self.now.turn }
        requires parts { 2 ≤ pass.old.parts }
        ensures rest { pass.new ≡ record pass.old { parts = pass.old.parts - 1 } }
        ensures split { result ≡ record pass.old { parts = 1; receipts = [] } }
    {
        let seat = self.table.shared.split_seat::<Parts>(&mut pass.seat);
        Pass { seat }
    }

    /// Adds the parts and the receipts of another pass of this turn to this one.
    pub fn join(&self, pass: &mut Pass<K>, other: Pass<K>)
        requires own { pass.old.turn ≡ self.now.turn }
        requires other { other.turn ≡ self.now.turn }
        ensures both { pass.new ≡ record pass.old {
          parts = pass.old.parts + other.parts;
          seen = max pass.old.seen other.seen;
          receipts = pass.old.receipts ++ other.receipts;
        } }
        ensures none_twice { NoneTwice K.makes_entry pass.new.receipts }
    {
        let Pass { seat } = other;
        let desk = &self.table.shared;
        desk.join_seat::<Parts>(&mut pass.seat, seat);
        desk.load::<Look>(&mut pass.seat, SERVING);
    }

    /// Waits for the turn, asks the value, and answers what it was told and the length of the history after it, in entries. What was told
    /// gives the pass one receipt; want of memory gives none. Each entry stands in one receipt (`close`), so a call makes at most one, and
    /// none for want of memory. That it asks the value just once has no clause: of asks that make no entry only its last one is told.
    pub fn ask<R: Wait>(
        &self,
        rt: &R,
        pass: &mut Pass<K>,
        ask: &K::Ask,
    ) -> (Result<K::Told, NoMemory>, u64)
        requires { pass.old.turn ≡ self.now.turn }
        ensures same { (pass.new.turn ≡ pass.old.turn) × (pass.new.parts ≡ pass.old.parts) }
        ensures seen { (pass.new.seen ≡ result.1) × (pass.old.seen ≤ result.1) }
        ensures told { IfOk result.0 (λ told.
            pass.new.receipts ≡ pass.old.receipts ++ receipt_of result.1 ask.now told ∷ []) }
        ensures refused { OnErr result.0 (pass.new.receipts ≡ pass.old.receipts) }
        ensures rises { IfOk result.0 (λ told.
            IsTrue (K.makes_entry told) → IsAbove result.1 pass.old.seen pass.old.receipts) }
        ensures none_twice { NoneTwice K.makes_entry pass.new.receipts }
    {
        let desk = &self.table.shared;
        let seat = &mut pass.seat;
        let ticket = draw(desk, seat);
        wait(desk, rt, seat, ticket);
        serve(desk, seat, ask)
    }

    /// Ends the turn and gives the value back, for a pass that has all parts, so that no other pass is out. All its receipts fit the
    /// history, and each entry that was made since the start stands in one of them.
    pub fn close(self, pass: Pass<K>) -> K
        requires own { pass.turn ≡ self.turn }
        requires all { pass.parts ≡ self.parts }
        ensures script { K.script result ≡ self.script }
        ensures begun { IsPrefix self.begun (K.history result) }
        ensures longer { pass.seen ≤ length (K.history result) }
        ensures fitting { Every (FitsAt K.makes_entry K.fits self.script (K.history result)) pass.receipts }
        ensures each_once { EachOnce (length self.begun + 1) (length (K.history result) + 1)
            (λ k. times K.makes_entry k pass.receipts) }
    {
        let Pass { seat } = pass;
        let Turn { table } = self;
        let mut closed = table.close_with(seat);
        let Slot { value, note: _ } = closed.take(VALUE);
        closed.free();
        value.unwrap()
    }
}

/// Takes the last place in the queue, and answers its ticket as the word has it.
fn draw<K: Stepped>(desk: &Desk<K>, seat: &mut Chair<K>) -> u64
    requires own { (seat.old.table_id ≡ desk.now.table_id) × (desk.now.table_id.words ≡ 3) }
    requires idle { IsIdle seat.old.me }
    ensures same { (seat.new.table_id ≡ seat.old.table_id) × (seat.new.id ≡ seat.old.id) }
    ensures queued { IsQueued result seat.new.me }
    ensures kept { KeepsReceipts seat.old.me seat.new.me × (seat.new.me.0.seen ≡ seat.old.me.0.seen) }
{
    desk.fetch_add::<Draw>(seat, TICKET, 1)
}

/// Looks which ticket is served until it is the seat's own, and takes the turn by that look.
fn wait<K: Stepped, R: Wait>(desk: &Desk<K>, rt: &R, seat: &mut Chair<K>, mine: u64)
    requires own { (seat.old.table_id ≡ desk.now.table_id) × (desk.now.table_id.words ≡ 3) }
    requires queued { IsQueued mine seat.old.me }
    ensures same { (seat.new.table_id ≡ seat.old.table_id) × (seat.new.id ≡ seat.old.id) }
    ensures takes { Takes K.script K.history seat.old.me seat.new.me }
{
    for _ in rt.forever() {
        if desk.load::<LookOrTake>(seat, SERVING) == mine {
            return;
        }
        yield_now();
    }
    unreachable!()
}

/// Asks the value of a seat that has the turn, counts what that appended, and passes the turn on.
fn serve<K: Stepped>(
    desk: &Desk<K>,
    seat: &mut Chair<K>,
    ask: &K::Ask,
) -> (Result<K::Told, NoMemory>, u64)
    requires own { (seat.old.table_id ≡ desk.now.table_id) × (desk.now.table_id.words ≡ 3) }
    requires turn { HasTurn K.script K.history seat.old.me }
    ensures same { (seat.new.table_id ≡ seat.old.table_id) × (seat.new.id ≡ seat.old.id) }
    ensures idle { IsIdle seat.new.me }
    ensures receives { Receives seat.old.me seat.new.me ask.now result.0 result.1 }
    ensures rises { IfOk result.0 (λ told.
        IsTrue (K.makes_entry told) → IsAbove result.1 seat.old.me.0.seen seat.old.me.0.receipts) }
    ensures none_twice { NoneTwice K.makes_entry seat.new.me.0.receipts }
{
    let (told, appended, length) = ask_value(desk, seat, ask);
    desk.fetch_add::<CountUp>(seat, COUNT, appended);
    desk.fetch_add::<PassOn>(seat, SERVING, 1);
    (told, length)
}

/// Moves the value out of the slot, asks it, and moves it back with a note of what it was told. Answers that, how many
/// entries were appended, and the length of the history then.
fn ask_value<K: Stepped>(
    desk: &Desk<K>,
    seat: &mut Chair<K>,
    ask: &K::Ask,
) -> (Result<K::Told, NoMemory>, u64, u64)
    requires own { (seat.old.table_id ≡ desk.now.table_id) × (desk.now.table_id.words ≡ 3) }
    requires turn { HasTurn K.script K.history seat.old.me }
    ensures same { (seat.new.table_id ≡ seat.old.table_id) × (seat.new.id ≡ seat.old.id) }
    ensures kept { seat.new.me.0 ≡ seat.old.me.0 }
    ensures asked { IsUncounted K.script K.history K.makes_entry K.fits seat.new.me ask.now result.0 result.2 }
    ensures grown { seat.new.me.0.seen + result.1 ≡ result.2 }
    ensures rises { IfOk result.0 (λ told. IsTrue (K.makes_entry told) → seat.old.me.0.seen < result.2) }
{
    let empty = Slot {
        value: None,
        note: None,
    };
    let Slot { value, note: _ } = desk.exchange(seat, VALUE, empty);
    let mut value = value.unwrap();
    let before = value.length();
    let told = value.ask(ask);
    let after = value.length();
    let note = note_of(ask, &told);
    let full = Slot {
        value: Some(value),
        note,
    };
    drop(desk.exchange(seat, VALUE, full));
    (told, after - before, after)
}

fn note_of<A, T, F>(ask: &A, told: &Result<T, F>) -> Option<Note<A, T>>
    ensures { IsNote ask.now told.now result }
{
    match told {
        Ok(told) => Some(Note {
            ask: Snapshot::of(ask),
            told: Snapshot::of(told),
        }),
        Err(_) => None,
    }
}
