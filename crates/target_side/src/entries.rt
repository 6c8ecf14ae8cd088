//! What is laid in the ring: the items that are not cleared, and the commands that are not finished.
ghost use Rattle.std.specs.Prelude.{◌≡◌, ◌*◌, ◌<◌, ◌≤◌, [], true, length, IfOk, OnOk, OnErr};
ghost use Rattle.tcmu_types.specs.Rules.{IsSettings};
ghost use Rattle.cmd_ring.specs.Places.{IsItemLength};
ghost use Rattle.tcmu_model.specs.Lengths.{tmr_length};
ghost use Rattle.region_model.specs.TargetSteps.{blocks_free, blocks_held, blocks_wanted, fits_in, has_room, ids_of, length_in, unknown_in};
ghost use Rattle.target_table.specs.Rows.{AllPrecede};
ghost use Rattle.target_side.specs.Kept.{Fits};
ghost use Rattle.target_side.specs.Laid.{CanWrite, HasOwnBlocks, IfHasBlocks, LaidAs, NotedAs, as_target, pending_for, region_written};

use crate::commands::Commands;
use crate::entrant::Entrant;
use crate::places::Places;
use crate::writing::{put_data, put_padding, put_request, put_tmr};
use cmd_ring::Place;
use iovec_scatter::iovs_of;
use shm_region::Region;
use std::alloc::Global;
use std::marker::Model;
use tcmu_model::{blocks_of, entry_length, tmr_length};
use tcmu_types::{Command, Ids, Iovs, ItemKind, NoMemory, Serials};

/// The items that are not cleared, the commands that are not finished, and how many pages of 4096 bytes a data block has.
#[derive(Drop)]
pub(crate) struct Entries {
    pub(crate) pages: u32,
    pub(crate) commands: Commands,
    pub(crate) places: Places,
}

/// A list with room for so many iovecs.
fn room_for_iovs(alloc: Global, count: u32) -> Result<Iovs, NoMemory>
    ensures { IfOk result (λ iovs. (iovs.items ≡ []) × (count ≤ iovs.spare)) }
{
    let mut iovs = Iovs::new(alloc);
    iovs.reserve(count as u64)?;
    Ok(iovs)
}

impl Entries {
    /// How long the entry of a command is, in bytes.
    pub(crate) fn length_of(&self, command: &Command) -> u32
        requires pages_low { 1 ≤ self.now.pages }
        requires pages_high { self.now.pages ≤ 16 }
        ensures value { result ≡ length_in (as_target self.now) command.now }
        ensures least { 112 ≤ result }
        ensures most { result ≤ 4160 }
    {
        entry_length(command, self.pages)
    }

    /// How many data blocks a command needs.
    pub(crate) fn blocks_for(&self, command: &Command) -> u32
        requires pages_low { 1 ≤ self.now.pages }
        requires pages_high { self.now.pages ≤ 16 }
        ensures value { result ≡ blocks_wanted (as_target self.now) command.now }
        ensures most { result ≤ 256 }
    {
        blocks_of(command, self.pages)
    }

    /// Whether a command has room now.
    pub(crate) fn has_room(&self, command: &Command) -> bool
        requires pages_low { 1 ≤ self.now.pages }
        requires pages_high { self.now.pages ≤ 16 }
        ensures { result ≡ has_room (as_target self.now) command.now }
    {
        let len = self.length_of(command);
        self.places.need(len) <= self.places.free()
            && self.blocks_for(command) <= self.commands.free_blocks()
    }

    /// Writes what a command that was laid here has in the region: its data, its entry, and the head behind that.
    fn write_command(
        &self,
        region: &mut Region,
        place: Place,
        id: u16,
        iovs: Iovs,
        command: &Command,
    )
        requires region { Fits region.old (as_target self.now) }
        requires settings { IsSettings (as_target self.now).settings }
        requires place { CanWrite (as_target self.now) place (length_in (as_target self.now) command.now) }
        requires row { HasOwnBlocks (as_target self.now) id command.now }
        requires none { iovs.items ≡ [] }
        requires room { blocks_wanted (as_target self.now) command.now ≤ iovs.spare }
        ensures { IfHasBlocks (as_target self.now) id (λ blocks. region.new ≡ region_written region.old (as_target self.now) place id command.now blocks) }
    {
        let mut iovs = iovs;
        let slots = self.blocks_for(command);
        match self.commands.get(id) {
            Some(pending) => {
                put_data(region, &pending.blocks, command);
                let start = region.data_off();
                iovs_of(
                    start,
                    self.pages,
                    &pending.blocks,
                    command.payload_length(),
                    &mut iovs,
                );
            }
            None => unreachable!(),
        }
        put_padding(region, place);
        put_request(region, place.at, id, slots, &iovs, command.cdb());
        region.set_head(self.places.head());
    }

    /// Lays a command for which there is room under a serial, due from a deadline on, and gives its id. All memory that it needs until it
    /// is finished is taken before a byte of the region is written, but for the place of its completion in the log.
    pub(crate) fn lay(
        &mut self,
        alloc: Global,
        region: &mut Region,
        serial: u64,
        deadline: Option<u64>,
        command: &Command,
    ) -> Result<u16, NoMemory>
        requires region { Fits region.old (as_target self.old) }
        requires settings { IsSettings (as_target self.old).settings }
        requires few { length self.old.commands.rows < 65535 }
        requires small { 2 * length_in (as_target self.old) command.now ≤ self.old.places.ring.size }
        requires ring { fits_in (as_target self.old) (length_in (as_target self.old) command.now) ≡ true }
        requires blocks { blocks_wanted (as_target self.old) command.now ≤ blocks_free (as_target self.old) }
        requires held { length (blocks_held self.old.commands.rows) ≤ self.old.commands.limit }
        requires last { AllPrecede self.old.commands.rows (pending_for (as_target self.old) serial deadline command.now) }
        ensures laid { IfOk result (λ id. LaidAs region.old (as_target self.old) serial deadline command.now id region.new (as_target self.new)) }
        ensures target { OnErr result (as_target self.new ≡ as_target self.old) }
        ensures unchanged { OnErr result (region.new ≡ region.old) }
    {
        let count = self.blocks_for(command);
        let len = self.length_of(command);
        let iovs = room_for_iovs(alloc, count)?;
        self.places.reserve()?;
        let entrant = Entrant::new(alloc, command, serial, deadline, count)?;
        let id = self.commands.add(alloc, region, entrant)?;
        let place = self.places.lay(ItemKind::Cmd, len);
        self.write_command(region, place, id, iovs, command);
        Ok(id)
    }

    /// The first serial that no command has.
    pub(crate) fn unknown(&self, serials: &Serials) -> Option<u64>
        ensures { result ≡ unknown_in self.entry.now.commands.rows serials.now.items }
    {
        for serial in serials.as_slice() {
            if self.commands.with_serial(*serial).is_none() {
                return Some(*serial);
            }
        }
        None
    }

    /// The ids of serials, in their order.
    fn ids_of(&self, alloc: Global, serials: &Serials) -> Result<Ids, NoMemory>
        ensures { IfOk result (λ ids. ids.items ≡ ids_of self.entry.now.commands.rows serials.now.items) }
    {
        let mut ids = Ids::new(alloc);
        ids.reserve(serials.len() as u64)?;
        for serial in serials.as_slice() {
            ids.push(self.commands.with_serial(*serial).unwrap_or(0));
        }
        Ok(ids)
    }

    /// Lays a task management entry of a type on these commands, for which there is room.
    pub(crate) fn note(
        &mut self,
        alloc: Global,
        region: &mut Region,
        kind: u8,
        serials: &Serials,
    ) -> Result<(), NoMemory>
        requires region { Fits region.old (as_target self.old) }
        requires settings { IsSettings (as_target self.old).settings }
        requires length { IsItemLength self.old.places.ring.size (tmr_length (length serials.now.items)) }
        requires ring { fits_in (as_target self.old) (tmr_length (length serials.now.items)) ≡ true }
        ensures noted { OnOk result (NotedAs region.old (as_target self.old) kind serials.now.items region.new (as_target self.new)) }
        ensures target { OnErr result (as_target self.new ≡ as_target self.old) }
        ensures unchanged { OnErr result (region.new ≡ region.old) }
    {
        let ids = self.ids_of(alloc, serials)?;
        self.places.reserve()?;
        let place = self.places.lay(ItemKind::Tmr, tmr_length(ids.len() as u32));
        put_padding(region, place);
        put_tmr(region, place.at, kind, &ids);
        region.set_head(self.places.head());
        Ok(())
    }
}
