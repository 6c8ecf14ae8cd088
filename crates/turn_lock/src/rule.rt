//! The table of a turn: what lies in its slot, what a pass knows, the rule, and its steps by name. All but the slot's value
//! exists in proofs alone.
use crate::stepped::Stepped;
use atomic_table::{Join, Play, Split, TableRule};
use std::collections::LinkedList;
use std::marker::PhantomData;
use std::snapshot::Snapshot;

/// One ask that was told something. Contracts see the receipts of a pass, and no code makes one.
pub struct Receipt<A, T> {
    /// The length of the history after the ask, in entries.
    pub number: u64,
    /// What was asked.
    pub ask: A,
    /// What was told.
    pub told: T,
}

/// What was asked last, and what was told. It has no bytes.
#[derive(Drop)]
pub struct Note<A, T> {
    /// A copy for proofs of what the value was asked.
    pub ask: Snapshot<A>,
    /// A copy for proofs of the value's answer.
    pub told: Snapshot<T>,
}

/// What the slot has: the value, and a note of the last ask that was told something, from which the pass gets its receipt.
#[derive(Drop)]
pub struct Slot<K, A, T> {
    /// None while the pass that has the turn has moved the value out.
    pub value: Option<K>,
    /// None before the first ask, and where the last one was told nothing.
    pub note: Option<Note<A, T>>,
}

/// What a pass knows.
pub struct View<K, E, A, T> {
    /// The value as it was when the turn was made. A spent view has none.
    pub opening: Option<K>,
    /// A spent view has none.
    pub parts: u64,
    /// The length of the longest history that it saw.
    pub seen: u64,
    /// Its place in the queue, while it waits for the turn or holds it. Tickets are not cut to 64 bits here.
    pub ticket: Option<u64>,
    /// Whether it holds the turn.
    pub holds: bool,
    /// The history of the value, while it holds the turn.
    pub kept: LinkedList<E>,
    /// One for each ask that was told something, those of passes joined to it too.
    pub receipts: LinkedList<Receipt<A, T>>,
}

/// What is fixed when a turn is made: the value as it was then, and the number of all parts.
#[derive(Drop)]
pub struct Opening<K> {
    /// A copy for proofs of the value that was put behind the turn.
    pub value: Snapshot<K>,
    /// From 1, and below 2^32; the passes' parts sum to it.
    pub parts: u64,
}

/// The rule.
pub struct Order<K> {
    marker: PhantomData<K>,
}

impl<K: Stepped> TableRule<Slot<K, K::Ask, K::Told>, View<K, K::Entry, K::Ask, K::Told>, Opening<K>>
    for Order<K> {
    ghost use Rattle.std.specs.Prelude.{length};
    ghost use Rattle.turn_lock.specs.Turns.{IsOrderly, first_view};

    ghost holds = { λ key. IsOrderly K.script K.history K.makes_entry K.fits key.value.value key.parts };

    ghost first = { λ key. first_view key.value.value key.parts (length (K.history key.value.value)) };
}

/// To split a seat, and to join one.
pub struct Parts;

impl<K, E, A, T> Split<View<K, E, A, T>> for Parts {
    ghost use Rattle.turn_lock.specs.Turns.{one_less, one_part};

    ghost left = { one_less };

    ghost right = { one_part };
}

impl<K, E, A, T> Join<View<K, E, A, T>> for Parts {
    ghost use Rattle.turn_lock.specs.Turns.{joined_view, spent_view};

    ghost both = { joined_view };

    ghost spent = { spent_view };
}

/// To draw a ticket.
pub struct Draw;

impl<K, E, A, T> Play<Slot<K, A, T>, View<K, E, A, T>> for Draw {
    ghost use Rattle.turn_lock.specs.Steps.{Draws};

    ghost then = { Draws };
}

/// To look which ticket is served, without one.
pub struct Look;

impl<K: Stepped> Play<Slot<K, K::Ask, K::Told>, View<K, K::Entry, K::Ask, K::Told>> for Look {
    ghost use Rattle.turn_lock.specs.Steps.{Looks};

    ghost then = { Looks K.makes_entry };
}

/// To look which ticket is served, and to take the turn where it is one's own.
pub struct LookOrTake;

impl<K: Stepped> Play<Slot<K, K::Ask, K::Told>, View<K, K::Entry, K::Ask, K::Told>> for LookOrTake {
    ghost use Rattle.turn_lock.specs.Steps.{LooksOrTakes};

    ghost then = { LooksOrTakes K.script K.history };
}

/// To count up the entries that the ask appended.
pub struct CountUp;

impl<K: Stepped> Play<Slot<K, K::Ask, K::Told>, View<K, K::Entry, K::Ask, K::Told>> for CountUp {
    ghost use Rattle.turn_lock.specs.Steps.{CountsUp};

    ghost then = { CountsUp K.history };
}

/// To pass the turn on.
pub struct PassOn;

impl<K: Stepped> Play<Slot<K, K::Ask, K::Told>, View<K, K::Entry, K::Ask, K::Told>> for PassOn {
    ghost use Rattle.turn_lock.specs.Steps.{PassesOn};

    ghost then = { PassesOn K.makes_entry };
}
