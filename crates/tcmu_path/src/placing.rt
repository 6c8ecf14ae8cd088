//! How replied commands are parked, and placed in the ring.
ghost use Rattle.std.specs.Prelude.{◌≡◌, ℕ, ◌≤◌, List, [], ◌∷◌, ◌++◌, length, take, true, false, if◌then◌else◌};
ghost use Rattle.std.specs.List.{list_any};
ghost use Rattle.tcmu_model.specs.RingState.{serial_in, serials_in};
ghost use Rattle.tcmu_model.specs.declared.state.CommandState.TheVariants.{Parked, Placed};
ghost use Rattle.tcmu_model.specs.Device.{is_at};
ghost use Rattle.tcmu_model.specs.Events.{turned, with_placed, run_placed};
ghost use Rattle.tcmu_types.specs.Numbers.{is_among, Differ};
ghost use Rattle.tcmu_types.specs.Lists.{Every};
ghost use Rattle.tcmu_path.specs.Changing.{placing_of};
ghost use Rattle.tcmu_path.specs.Room.{to_place, KeepsRoom};

use crate::ring::{Ring, RingItem};
use crate::rows::Rows;
use tcmu_types::Serials;

/// Places one parked command, and tells whether it was there.
fn place_one(rows: &mut Rows, placed: &mut Serials, serial: u64) -> bool
    requires { to_place rows.old.items ≤ placed.old.spare }
    ensures found { result ≡ list_any (is_at serial Parked) rows.old.items }
    ensures rows { rows.new.items ≡ (if result then turned serial Parked Placed rows.old.items else rows.old.items) }
    ensures placed { placed.new.items ≡ (if result then placed.old.items ++ serial ∷ [] else placed.old.items) }
    ensures room { to_place rows.new.items ≤ placed.new.spare }
    ensures kept { KeepsRoom rows.old.items rows.new.items }
{
    if rows.place(serial) {
        placed.push(serial);
        true
    } else {
        false
    }
}

/// Places the parked command of a serial.
pub fn place(rows: &mut Rows, placed: &mut Serials, serial: u64)
    requires room { to_place rows.old.items ≤ placed.old.spare }
    requires parked { list_any (is_at serial Parked) rows.old.items ≡ true }
    ensures placing { placing_of placed.new rows.new ≡ with_placed (placing_of placed.old rows.old) serial }
    ensures room { to_place rows.new.items ≤ placed.new.spare }
    ensures kept { KeepsRoom rows.old.items rows.new.items }
{
    let _ = place_one(rows, placed, serial);
}

/// Places the parked command of an item whose answer is not placed; the answer is whether the item may be passed.
fn pass_item(rows: &mut Rows, placed: &mut Serials, item: &RingItem) -> bool
    requires room { to_place rows.old.items ≤ placed.old.spare }
    requires apart { Every (λ s. is_among placed.old.items s ≡ false) (serial_in item.now) }
    ensures goes { result ≡ true → (rest : List ℕ) → run_placed (placing_of placed.old rows.old) (serial_in item.now ++ rest) ≡ run_placed (placing_of placed.new rows.new) rest }
    ensures stops { result ≡ false → (rest : List ℕ) → run_placed (placing_of placed.old rows.old) (serial_in item.now ++ rest) ≡ placing_of placed.new rows.new }
    ensures passed { result ≡ true → placed.new.items ≡ placed.old.items ++ serial_in item.now }
    ensures same { result ≡ false → placed.new.items ≡ placed.old.items }
    ensures room { to_place rows.new.items ≤ placed.new.spare }
    ensures kept { KeepsRoom rows.old.items rows.new.items }
{
    match item.serial() {
        Some(serial) => place_one(rows, placed, serial),
        None => true,
    }
}

/// Places the parked commands along these items, the first that are not placed, up to one that is not parked; the answer is how
/// many items that passed.
fn place_run(rows: &mut Rows, placed: &mut Serials, items: &[RingItem]) -> usize
    requires room { to_place rows.old.items ≤ placed.old.spare }
    requires differ { Differ (placed.old.items ++ serials_in items.now) }
    ensures placing { placing_of placed.new rows.new ≡ run_placed (placing_of placed.old rows.old) (serials_in items.now) }
    ensures passed { placed.new.items ≡ placed.old.items ++ serials_in (take result items.now) }
    ensures within { result ≤ length items.now }
    ensures room { to_place rows.new.items ≤ placed.new.spare }
    ensures kept { KeepsRoom rows.old.items rows.new.items }
{
    for (at, item) in items.iter().enumerate() {
        if !pass_item(rows, placed, item) {
            return at;
        }
    }
    items.len()
}

/// In order places all that are parked from the first whose answer is not placed. `passed` items stand before that one, and the
/// answer is how many do then.
pub fn place_in_order(rows: &mut Rows, placed: &mut Serials, ring: &Ring, passed: usize) -> usize
    requires room { to_place rows.old.items ≤ placed.old.spare }
    requires within { passed ≤ length ring.now.laid }
    requires ordered { placed.old.items ≡ serials_in (take passed ring.now.laid) }
    requires differ { Differ (serials_in ring.now.laid) }
    ensures placing { placing_of placed.new rows.new ≡ run_placed (placing_of placed.old rows.old) (serials_in ring.now.laid) }
    ensures ordered { placed.new.items ≡ serials_in (take result ring.now.laid) }
    ensures within { result ≤ length ring.now.laid }
    ensures room { to_place rows.new.items ≤ placed.new.spare }
    ensures kept { KeepsRoom rows.old.items rows.new.items }
{
    let items = ring.items_from(passed);
    passed + place_run(rows, placed, items)
}
