//! The order of the jobs: by their ids alone where answers keep it, and else known to contracts alone.
ghost use Rattle.std.specs.Prelude.{◌≡◌, ◌≤◌, ◌<◌, ◌^◌, [], ◌∷◌, ◌++◌, Some, None, true, false, length, is_ok, MatchOption, if◌then◌else◌};
ghost use Rattle.std.specs.List.{list_any};
ghost use Rattle.tcmu_types.specs.Lists.{without_first, with_first};
ghost use Rattle.std.specs.VecDeque.{deque_len, deque_capacity};
ghost use Rattle.user_lib.specs.ById.{first_key, keys_under};
ghost use Rattle.user_lib.specs.Given.{first_id, is_open, keys_of, leads_parked, with_key};

use crate::past::{Given, Past};
use crate::rows::Rows;
use std::alloc::Global;
use std::collections::VecDeque;
use std::marker::Model;
use tcmu_types::NoMemory;

/// The jobs that were given. Where answers keep their order, `line` has their ids. The rows tell of each id how many jobs have no reply, and
/// the keys of the others. What is done costs the same however many there are.
#[derive(Drop)]
pub(crate) struct Order {
    past: Past,
    any_order: bool,
    line: VecDeque<u16>,
    rows: Rows,
    ready: Option<u16>,
}

impl Model for Order {
    ghost use Rattle.std.specs.Prelude.{◌-◌};
    ghost use Rattle.std.specs.VecDeque.{deque_len, deque_capacity};
    ghost use Rattle.user_lib.specs.ById.{HasRoom, IsOrder};
    ghost use Rattle.user_lib.specs.Given.{OrderState};

    ghost Value = { OrderState };

    ghost view = { λ a. record { given = a.past; any_order = a.any_order; ready = a.ready } };

    ghost invariant = { λ a. IsOrder a.any_order a.line.items a.rows a.past × HasRoom (deque_capacity a.line - deque_len a.line) a.rows a.ready };
}

/// Puts an id into the line, in the room that is there, where answers keep the order of the jobs.
fn line_up(line: &mut VecDeque<u16>, any_order: bool, id: u16)
    requires { deque_len line.old < deque_capacity line.old }
    ensures { line.new.items ≡ (if any_order then line.old.items else line.old.items ++ id ∷ []) }
{
    if !any_order {
        line.push_back_reserved(id);
    }
}

impl Order {
    /// No job.
    pub(crate) fn new(alloc: Global, any_order: bool) -> Order
        ensures { result ≡ record { given = []; any_order = any_order; ready = None } }
    {
        Order {
            past: Past::new(),
            any_order,
            line: VecDeque::new(alloc),
            rows: Rows::new(alloc),
            ready: None,
        }
    }

    /// As it is without jobs, for answers in any order or in that of the jobs.
    pub(crate) fn begin(&mut self, any_order: bool)
        ensures new { self.new ≡ record { given = []; any_order = any_order; ready = None } }
        ensures none { self.old.any_order ≡ true → keys_of self.old.given ≡ [] }
    {
        self.past.cleared();
        self.any_order = any_order;
        self.line.clear();
        self.rows.clear();
        self.ready = None;
    }

    /// Whether answers are in any order.
    pub(crate) fn is_any(&self) -> bool
        ensures { result ≡ self.now.any_order }
    {
        self.any_order
    }

    /// How many jobs are in line.
    pub(crate) fn in_line(&self) -> usize
        ensures all { self.now.any_order ≡ false → result ≡ length self.now.given }
        ensures parked { length (keys_of self.now.given) ≤ result }
        ensures few { result < 2 ^ 63 }
    {
        self.line.len()
    }

    /// Makes room for a job of an id.
    pub(crate) fn reserve(&mut self, alloc: Global, id: u16) -> Result<(), NoMemory>
        ensures given { self.new.given ≡ self.old.given }
        ensures order { self.new.any_order ≡ self.old.any_order }
        ensures room { self.new.ready ≡ (if is_ok result then Some id else None) }
    {
        self.ready = None;
        self.line.reserve(1)?;
        self.rows.reserve(alloc, id)?;
        self.ready = Some(id);
        Ok(())
    }

    /// Appends a job without a reply, in the room that is there.
    pub(crate) fn push(&mut self, id: u16)
        requires { self.old.ready ≡ Some id }
        ensures { self.new ≡ record { given = self.old.given ++ record { id = id; key = None } ∷ []; any_order = self.old.any_order; ready = None } }
    {
        line_up(&mut self.line, self.any_order, id);
        self.rows.push(id);
        self.past.pushed(id);
        self.ready = None;
    }

    /// Whether a job of an id has no reply.
    pub(crate) fn is_open(&self, id: u16) -> bool
        ensures { result ≡ list_any (is_open id) self.now.given }
    {
        self.rows.count(id) > 0
    }

    /// Takes the first job of an id out that has no reply.
    pub(crate) fn remove(&mut self, id: u16)
        requires order { self.old.any_order ≡ true }
        requires is_open { list_any (is_open id) self.old.given ≡ true }
        ensures { self.new ≡ record { given = without_first (is_open id) self.old.given; any_order = self.old.any_order; ready = None } }
    {
        self.rows.remove(id);
        self.past.removed(id);
        self.ready = None;
    }

    /// Keeps the first job of an id that has no reply under a key from now on.
    pub(crate) fn park(&mut self, id: u16, key: usize)
        requires order { self.old.any_order ≡ false }
        requires is_open { list_any (is_open id) self.old.given ≡ true }
        ensures { self.new ≡ record { given = with_first (is_open id) (with_key key) self.old.given; any_order = self.old.any_order; ready = None } }
    {
        self.rows.park(id, key);
        self.past.parked(id, key);
        self.ready = None;
    }

    /// Takes the first job out.
    pub(crate) fn pop(&mut self) -> Option<Given>
        requires { self.old.any_order ≡ false }
        ensures given { MatchOption result ((self.old.given ≡ []) × (self.new.given ≡ [])) (λ g. self.old.given ≡ g ∷ self.new.given) }
        ensures order { self.new.any_order ≡ self.old.any_order }
        ensures room { self.new.ready ≡ None }
    {
        self.ready = None;
        let id = self.line.pop_front()?;
        let key = self.rows.pop(id);
        self.past.popped();
        Some(Given { id, key })
    }

    /// Whether the first job is under a key.
    pub(crate) fn leads_parked(&self) -> bool
        ensures value { result ≡ leads_parked self.now.given }
        ensures order { result ≡ true → self.now.any_order ≡ false }
    {
        match self.line.front() {
            Some(id) => self.rows.first_key(*id).is_some(),
            None => false,
        }
    }

    /// The id of the first job.
    pub(crate) fn first_id(&self) -> Option<u16>
        requires { self.now.any_order ≡ false }
        ensures { result ≡ first_id self.now.given }
    {
        self.line.front().copied()
    }

    /// The key of the first job of an id that is under one.
    pub(crate) fn key_of(&self, id: u16) -> Option<usize>
        ensures { result ≡ first_key (keys_under id self.now.given) }
    {
        self.rows.first_key(id)
    }
}
