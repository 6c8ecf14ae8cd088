//! What is appended to the rows, and what dispatch does to them.
ghost use Rattle.std.specs.Prelude.{◌≡◌, ℕ, ◌+◌, ◌<◌, ◌≤◌, [], ◌∷◌, ◌++◌, IfOk, OnOk, OnErr};
ghost use Rattle.std.specs.List.{filter};
ghost use Rattle.tcmu_types.specs.Views.{dispatch_data};
ghost use Rattle.tcmu_model.specs.declared.state.CommandState.TheVariants.{Waiting};
ghost use Rattle.tcmu_model.specs.Lengths.{blocks_of};
ghost use Rattle.tcmu_model.specs.Events.{is_running, item_answer, after_item};
ghost use Rattle.tcmu_types.specs.Lists.{Every};
ghost use Rattle.tcmu_path.specs.Tallies.{serials_of};
ghost use Rattle.tcmu_path.specs.Room.{to_place, to_log, blocks_of_commands, KeepsRoom};

use crate::ring::{Content, RingItem};
use crate::row::Row;
use crate::rows::Rows;
use std::alloc::Global;
use tcmu_model::CommandState;
use tcmu_types::{Dispatch, NoMemory, Serials};

/// Appends a row where there is room for it.
#[tactic(auto, using(crate::proofs::Rooms::pushes))]
pub fn append(rows: &mut Rows, row: Row)
    requires room { 1 ≤ rows.old.spare }
    requires waits { row.state ≡ Waiting }
    requires above { Every (λ s. s < row.serial) (serials_of rows.old.items) }
    ensures rows { rows.new.items ≡ rows.old.items ++ row ∷ [] }
    ensures blocks { (pages : ℕ) → blocks_of_commands pages rows.new.items ≡ blocks_of_commands pages rows.old.items + blocks_of pages row.command }
    ensures to_log { to_log rows.new.items ≤ to_log rows.old.items + 1 }
    ensures to_place { to_place rows.new.items ≤ to_place rows.old.items + 1 }
{
    rows.push(row);
}

/// Whether an unfinished command of this serial is out or handled.
fn is_running(rows: &Rows, serial: u64) -> bool
    ensures { result ≡ is_running rows.now.items serial }
{
    rows.has(serial, CommandState::Out) || rows.has(serial, CommandState::Handled)
}

/// Those of the serials whose commands are out or handled.
fn running(alloc: Global, rows: &Rows, serials: &[u64]) -> Result<Serials, NoMemory>
    ensures { IfOk result (λ r. r.items ≡ filter (is_running rows.now.items) serials.now) }
{
    let mut listed = Serials::new(alloc);
    listed.reserve(serials.len() as u64)?;
    for serial in serials {
        if is_running(rows, *serial) {
            listed.push(*serial);
        }
    }
    Ok(listed)
}

/// Hands an item of the ring out.
pub fn dispatch_item(alloc: Global, rows: &mut Rows, item: &RingItem) -> Result<Dispatch, NoMemory>
    ensures answer { IfOk result (λ a. dispatch_data a ≡ item_answer rows.old.items item.now) }
    ensures rows { OnOk result (rows.new.items ≡ after_item rows.old.items item.now) }
    ensures err { OnErr result (rows.new.items ≡ rows.old.items) }
    ensures kept { KeepsRoom rows.old.items rows.new.items }
{
    match &item.content {
        Content::Pad => Ok(Dispatch::Nothing),
        Content::Command { serial, .. } => {
            rows.send(*serial);
            Ok(Dispatch::Job(*serial))
        }
        Content::Note { kind, serials } => {
            let listed = running(alloc, rows, serials.as_slice())?;
            Ok(Dispatch::Note {
                kind: *kind,
                serials: listed,
            })
        }
    }
}
