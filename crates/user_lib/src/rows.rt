//! What is known of the jobs of each id.
ghost use Rattle.std.specs.Prelude.{◌≡◌, ◌≤◌, ◌<◌, ◌+◌, ◌-◌, [], ◌∷◌, ◌++◌, length, OnOk, MatchOption};
ghost use Rattle.user_lib.specs.ById.{ChangesRow, IsReady, PopsRow, ShowsSame, first_key, row_at};

use std::alloc::Global;
use std::collections::VecDeque;
use std::marker::Model;
use tcmu_types::NoMemory;

/// How many jobs of an id have no reply, and the keys of those that have one, in their order. There is room for the keys of all.
#[derive(Drop)]
struct Row {
    count: usize,
    keys: VecDeque<usize>,
}

impl Model for Row {
    ghost use Rattle.std.specs.Prelude.{◌≤◌, ◌+◌, ◌-◌};
    ghost use Rattle.std.specs.VecDeque.{deque_len, deque_capacity};
    ghost use Rattle.user_lib.specs.ById.{RowState};

    ghost Value = { RowState };

    ghost view = { λ a. record { count = a.count; keys = a.keys.items; spare = deque_capacity a.keys - (a.count + deque_len a.keys) } };

    ghost invariant = { λ a. a.count + deque_len a.keys ≤ deque_capacity a.keys };
}

impl Row {
    /// Of no job.
    fn new(alloc: Global) -> Row
        ensures count { result.count ≡ 0 }
        ensures keys { result.keys ≡ [] }
    {
        Row {
            count: 0,
            keys: VecDeque::new(alloc),
        }
    }

    /// Makes room for one job more.
    fn reserve(&mut self) -> Result<(), NoMemory>
        ensures count { self.new.count ≡ self.old.count }
        ensures keys { self.new.keys ≡ self.old.keys }
        ensures room { OnOk result (1 ≤ self.new.spare) }
    {
        self.keys.reserve(self.count + 1)?;
        Ok(())
    }

    /// A job more has no reply, in the room that is there.
    fn push(&mut self)
        requires { 1 ≤ self.old.spare }
        ensures count { self.new.count ≡ self.old.count + 1 }
        ensures keys { self.new.keys ≡ self.old.keys }
    {
        self.count += 1;
    }

    /// A job that has no reply is out.
    fn remove(&mut self)
        requires { 1 ≤ self.old.count }
        ensures count { self.new.count + 1 ≡ self.old.count }
        ensures keys { self.new.keys ≡ self.old.keys }
    {
        self.count -= 1;
    }

    /// A job that has no reply has one from now on, under a key.
    fn park(&mut self, key: usize)
        requires { 1 ≤ self.old.count }
        ensures count { self.new.count + 1 ≡ self.old.count }
        ensures keys { self.new.keys ≡ self.old.keys ++ key ∷ [] }
    {
        self.count -= 1;
        self.keys.push_back_reserved(key);
    }

    /// Takes the first key, where there is one; else a job that has no reply is out.
    fn pop(&mut self) -> Option<usize>
        requires { 1 ≤ self.old.count + length self.old.keys }
        ensures count { MatchOption result (self.new.count + 1 ≡ self.old.count) (λ _. self.new.count ≡ self.old.count) }
        ensures keys { MatchOption result ((self.old.keys ≡ []) × (self.new.keys ≡ [])) (λ key. self.old.keys ≡ key ∷ self.new.keys) }
    {
        match self.keys.pop_front() {
            Some(key) => Some(key),
            None => {
                self.count -= 1;
                None
            }
        }
    }

    /// How many have no reply.
    fn count(&self) -> usize
        ensures { result ≡ self.now.count }
    {
        self.count
    }

    /// The first key.
    fn first_key(&self) -> Option<usize>
        ensures { result ≡ first_key self.now.keys }
    {
        self.keys.front().copied()
    }
}

/// The rows of the ids up to the greatest one that was given. An id without a row has no job.
#[derive(Drop)]
pub(crate) struct Rows {
    rows: Vec<Row>,
}

impl Model for Rows {
    ghost use Rattle.std.specs.Prelude.{List};
    ghost use Rattle.user_lib.specs.ById.{RowState};

    ghost Value = { List RowState };

    ghost view = { λ a. a.rows.items };
}

/// Appends empty rows up to that of an id.
fn grow(rows: &mut Vec<Row>, alloc: Global, id: u16) -> Result<(), NoMemory>
    ensures same { ShowsSame rows.old.items rows.new.items }
    ensures there { OnOk result (id < length rows.new.items) }
{
    while rows.len() <= id as usize {
        rows.reserve(1)?;
        rows.push_reserved(Row::new(alloc));
    }
    Ok(())
}

impl Rows {
    /// No row.
    pub(crate) fn new(alloc: Global) -> Rows
        ensures { result ≡ [] }
    {
        Rows {
            rows: Vec::new(alloc),
        }
    }

    /// How many jobs of an id have no reply.
    pub(crate) fn count(&self, id: u16) -> usize
        ensures { result ≡ (row_at self.now id).count }
    {
        match self.rows.get(id as usize) {
            Some(row) => row.count(),
            None => 0,
        }
    }

    /// The first key of an id.
    pub(crate) fn first_key(&self, id: u16) -> Option<usize>
        ensures { result ≡ first_key (row_at self.now id).keys }
    {
        match self.rows.get(id as usize) {
            Some(row) => row.first_key(),
            None => None,
        }
    }

    /// Makes room for one job more of an id.
    pub(crate) fn reserve(&mut self, alloc: Global, id: u16) -> Result<(), NoMemory>
        ensures same { ShowsSame self.old self.new }
        ensures room { OnOk result (IsReady self.new id) }
    {
        grow(&mut self.rows, alloc, id)?;
        self.rows[id as usize].reserve()
    }

    /// A job more of an id has no reply, in the room that is there.
    pub(crate) fn push(&mut self, id: u16)
        requires { IsReady self.old id }
        ensures { ChangesRow self.old self.new id ((row_at self.old id).count + 1) (row_at self.old id).keys }
    {
        self.rows[id as usize].push();
    }

    /// A job of an id that has no reply is out.
    pub(crate) fn remove(&mut self, id: u16)
        requires { 1 ≤ (row_at self.old id).count }
        ensures { ChangesRow self.old self.new id ((row_at self.old id).count - 1) (row_at self.old id).keys }
    {
        self.rows[id as usize].remove();
    }

    /// A job of an id that has no reply has one from now on, under a key.
    pub(crate) fn park(&mut self, id: u16, key: usize)
        requires { 1 ≤ (row_at self.old id).count }
        ensures { ChangesRow self.old self.new id ((row_at self.old id).count - 1) ((row_at self.old id).keys ++ key ∷ []) }
    {
        self.rows[id as usize].park(key);
    }

    /// The first job of an id is out; its key where it has its reply, which is so where any of them has.
    pub(crate) fn pop(&mut self, id: u16) -> Option<usize>
        requires { 1 ≤ (row_at self.old id).count + length (row_at self.old id).keys }
        ensures { PopsRow self.old self.new id result }
    {
        self.rows[id as usize].pop()
    }

    /// No id has a job.
    pub(crate) fn clear(&mut self)
        ensures { self.new ≡ [] }
    {
        self.rows.clear();
    }
}
