//! The table of commands.
ghost use Rattle.std.specs.Prelude.{◌≡◌, ◌+◌, ◌-◌, ◌≤◌, ◌<◌, [], ◌∷◌, ◌++◌, length, Some, None, OnOk, OnErr, option_copied, slice_get, slice_set, nat_le, max, true, false, suc, take, drop, vec_capacity, if◌then◌else◌, IfSome, IfNone};
ghost use Rattle.std.specs.List.{list_any};
ghost use Rattle.std.specs.List.Sorted.{IsNonDecreasingBy, IsPartitionPoint};
ghost use Rattle.std.specs.Option.{option_map};
ghost use Rattle.tcmu_types.specs.Lists.{first_of, with_first};
ghost use Rattle.target_table.specs.Rows.{TableData, IsTable, AllPrecede, has_passed, is_behind, is_waiting, id_in_row, command_of, with_expired, without};
ghost use Rattle.region_model.specs.Represents.{has_id};
ghost use Rattle.region_model.specs.TargetSteps.{is_due_at};
ghost use Rattle.region_model.specs.Sides.{PendingRow};
ghost use Rattle.target_table.specs.Kept.{at_id};

use crate::Pending;
use std::alloc::Global;
use std::marker::Model;
use tcmu_types::NoMemory;

/// The most places that ids of 16 bits name, when 0 is none.
const MOST_PLACES: usize = 65_535;

/// A serial and its command's id.
#[derive(Clone, Copy, Debug)]
struct Ranked {
    serial: u64,
    id: u16,
}

/// A map from ids, 1 to 65,535, to commands, with its commands in the order of their serials, the expired ones first. An id is a
/// place plus 1; it is given anew once its command has been taken out.
#[derive(Debug, Drop)]
pub struct Table {
    places: Vec<Option<Pending>>,
    free: Vec<u16>,
    order: Vec<Ranked>,
    expired: usize,
}

impl Model for Table {
    ghost use Rattle.std.specs.Prelude.{◌≤◌, length};
    ghost use Rattle.std.specs.Vec.{vec_capacity};
    ghost use Rattle.target_table.specs.Rows.{TableData};

    ghost Value = { TableData };

    ghost use Rattle.target_table.specs.Kept.{IsKept, rows_of};

    ghost view = { λ a. record { rows = rows_of a.places.items a.order.items; expired = a.expired; spare = length a.free.items } };

    ghost invariant = { λ a. record {
      kept : IsKept a.places.items a.free.items a.order.items a.expired;
      order_room : length a.places.items ≤ vec_capacity a.order;
      free_room : length a.places.items ≤ vec_capacity a.free;
    } };
}

impl Table {
    /// No command, and no place.
    pub fn new(alloc: Global) -> Table
        ensures { result ≡ record { rows = []; expired = 0; spare = 0 } }
    {
        Table {
            places: Vec::new(alloc),
            free: Vec::new(alloc),
            order: Vec::new(alloc),
            expired: 0,
        }
    }

    /// Sees to it that a command can be added, unless 65,535 are inside. A place is added only where none is free.
    pub fn reserve(&mut self) -> Result<(), NoMemory>
        ensures rows { self.new.rows ≡ self.old.rows }
        ensures expired { self.new.expired ≡ self.old.expired }
        ensures kept { self.old.spare ≤ self.new.spare }
        ensures sparing { self.new.spare ≤ max 1 self.old.spare }
        ensures room { OnOk result (length self.old.rows < 65535 → 1 ≤ self.new.spare) }
        ensures unchanged { OnErr result (self.new ≡ self.old) }
    {
        if self.free.is_empty() && self.places.len() < MOST_PLACES {
            let places = self.places.len() + 1;
            make_room(&mut self.places, 1)?;
            make_room(&mut self.order, 1)?;
            make_room(&mut self.free, places)?;
            append(&mut self.places, None);
            append(&mut self.free, places as u16);
        }
        Ok(())
    }

    /// Adds a command behind all others in a place that was reserved, as one that is not expired, and gives its id. Its serial is above
    /// theirs. Its deadline is not before theirs, or neither it nor any of them has one.
    pub fn add(&mut self, pending: Pending) -> u16
        requires reserved { 1 ≤ self.old.spare }
        requires last { AllPrecede self.old.rows pending }
        ensures new { self.new ≡ record {
          rows = self.old.rows ++ record { id = result; pending = record pending { expired = false } } ∷ [];
          expired = self.old.expired;
          spare = self.old.spare - 1;
        } }
        ensures low { 1 ≤ result }
        ensures high { result ≤ 65535 }
        ensures fresh { list_any (has_id result) self.old.rows ≡ false }
    {
        let mut pending = pending;
        pending.expired = false;
        let serial = pending.serial;
        let id = take_last(&mut self.free);
        self.places[id as usize - 1] = Some(pending);
        append(&mut self.order, Ranked { serial, id });
        id
    }

    /// The command of an id.
    pub fn get(&self, id: u16) -> Option<&Pending>
        ensures { option_copied result ≡ command_of self.now.rows id }
    {
        let places = &self.places;
        if id == 0 {
            return None;
        }
        if places.len() < id as usize {
            return None;
        }
        places[id as usize - 1].as_ref()
    }

    /// Takes the command of an id out; the id is free then.
    pub fn take(&mut self, id: u16) -> Option<Pending>
        ensures value { result ≡ command_of self.old.rows id }
        ensures new { self.new ≡ without self.old id }
    {
        let pending = vacate(&mut self.places, id)?;
        let rank = rank_behind(&self.order, pending.serial) - 1;
        remove_at(&mut self.order, rank);
        self.expired = one_less(self.expired, pending.expired);
        append(&mut self.free, id);
        Some(pending)
    }

    /// The id of the first command that is not expired and is due now.
    pub fn next_due(&self, now: u64) -> Option<u16>
        ensures { result ≡ id_in_row (first_of (is_due_at now) self.now.rows) }
    {
        let id = id_at(&self.order, self.expired)?;
        let pending = match self.get(id) {
            Some(pending) => pending,
            None => unreachable!(),
        };
        if has_passed(now, pending.deadline) {
            Some(id)
        } else {
            None
        }
    }

    /// Marks the first command that is not expired, which has this id, as expired.
    pub fn expire(&mut self, id: u16)
        requires { id_in_row (first_of is_waiting self.old.rows) ≡ Some id }
        ensures { self.new ≡ record {
          rows = with_first (has_id id) with_expired self.old.rows;
          expired = self.old.expired + 1;
          spare = self.old.spare;
        } }
    {
        let pending = match vacate(&mut self.places, id) {
            Some(pending) => pending,
            None => unreachable!(),
        };
        self.places[id as usize - 1] = Some(pending.into_expired());
        self.expired += 1;
    }

    /// The id of the least serial.
    pub fn least(&self) -> Option<u16>
        ensures value { result ≡ id_in_row (first_of (λ row. true) self.now.rows) }
        ensures sound { IsTable self.now }
    {
        id_at(&self.order, 0)
    }

    /// The id of the least serial above the given one.
    pub fn after(&self, serial: u64) -> Option<u16>
        ensures { result ≡ id_in_row (first_of (is_behind serial) self.now.rows) }
    {
        id_at(&self.order, rank_behind(&self.order, serial))
    }

    /// How many commands are inside.
    pub fn len(&self) -> u32
        ensures { result ≡ length self.now.rows }
    {
        self.order.len() as u32
    }

    /// How many of the commands are expired.
    pub fn expired(&self) -> u32
        ensures { result ≡ self.now.expired }
    {
        self.expired as u32
    }
}

/// Empties the place of an id, and gives what was there.
fn vacate(places: &mut Vec<Option<Pending>>, id: u16) -> Option<Pending>
    ensures found { result ≡ at_id places.old.items id }
    ensures emptied { IfSome result (λ _. places.new.items ≡ slice_set places.old.items (id - 1) None) }
    ensures unchanged { IfNone result (places.new.items ≡ places.old.items) }
{
    if id == 0 {
        return None;
    }
    if places.len() < id as usize {
        return None;
    }
    std::mem::replace(&mut places[id as usize - 1], None)
}

/// Takes memory for more items.
fn make_room<T>(list: &mut Vec<T>, more: usize) -> Result<(), NoMemory>
    ensures items { list.new.items ≡ list.old.items }
    ensures room { OnOk result (length list.old.items + more ≤ vec_capacity list.new) }
    ensures capacity { vec_capacity list.old ≤ vec_capacity list.new }
{
    list.reserve(more)?;
    Ok(())
}

/// Appends an item in the room that is there.
fn append<T: Drop>(list: &mut Vec<T>, item: T)
    requires { length list.old.items < vec_capacity list.old }
    ensures items { list.new.items ≡ list.old.items ++ item ∷ [] }
    ensures capacity { vec_capacity list.old ≤ vec_capacity list.new }
{
    list.push(item).unwrap();
}

/// Takes the last id off.
fn take_last(ids: &mut Vec<u16>) -> u16
    requires { 1 ≤ length ids.old.items }
    ensures items { ids.old.items ≡ ids.new.items ++ result ∷ [] }
    ensures capacity { vec_capacity ids.old ≤ vec_capacity ids.new }
{
    match ids.pop() {
        Some(id) => id,
        None => unreachable!(),
    }
}

/// A count without one, if that one counts.
fn one_less(count: usize, counts: bool) -> usize
    requires { counts ≡ true → 1 ≤ count }
    ensures { result ≡ (if counts then count - 1 else count) }
{
    if counts { count - 1 } else { count }
}

/// Removes what has this rank.
fn remove_at(order: &mut Vec<Ranked>, rank: usize)
    requires { rank < length order.old.items }
    ensures items { order.new.items ≡ take rank order.old.items ++ drop (suc rank) order.old.items }
    ensures capacity { vec_capacity order.old ≤ vec_capacity order.new }
{
    order.remove(rank);
}

/// How many serials are at most the given one.
fn rank_behind(order: &[Ranked], serial: u64) -> usize
    requires { IsNonDecreasingBy (λ o. o.serial) order.now }
    ensures within { result ≤ length order.now }
    ensures point { IsPartitionPoint (λ o. nat_le o.serial serial ≡ true) (λ o. nat_le o.serial serial ≡ false) order.now result }
{
    order.partition_point(|ranked| ranked.serial <= serial)
}

/// The id of this rank.
fn id_at(order: &[Ranked], rank: usize) -> Option<u16>
    ensures { result ≡ option_map (λ o. o.id) (slice_get order.now rank) }
{
    order.get(rank).map(|ranked| ranked.id)
}

/// Whether a deadline, if there is one, is at most now.
fn has_passed(now: u64, deadline: Option<u64>) -> bool
    ensures { result ≡ has_passed now deadline }
{
    deadline.is_some_and(|deadline| deadline <= now)
}
