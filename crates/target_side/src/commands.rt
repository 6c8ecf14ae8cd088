//! The commands that are laid and not finished, with the data blocks that they hold.
ghost use Rattle.std.specs.Prelude.{◌≡◌, ◌+◌, ◌-◌, ◌*◌, ◌<◌, ◌≤◌, ◌^◌, [], ◌∷◌, ◌++◌, length, Some, true, false, OnOk, OnErr, None, IfOk, MatchOption, option_copied};
ghost use Rattle.std.specs.List.{list_any, count_by};
ghost use Rattle.tcmu_types.specs.Lists.{first_of, with_first, without_first};
ghost use Rattle.tcmu_types.specs.Numbers.{above_all};
ghost use Rattle.region_model.specs.Regions.{grown_to};
ghost use Rattle.region_model.specs.Represents.{has_id, row_has};
ghost use Rattle.region_model.specs.TargetSteps.{is_due_at, blocks_held, id_or_zero};
ghost use Rattle.target_table.specs.Rows.{AllPrecede, id_in_row, is_behind, is_expired, is_waiting, command_of, with_expired};
ghost use Rattle.tcmu_model.specs.BlockLists.{least_free};
ghost use Rattle.target_side.specs.HeldRows.{HoldsMore, HoldsSame, IsNextDue, is_from};
ghost use Rattle.target_side.specs.Adding.{Added, blocks_for_next, pending_of_entrant};

use crate::entrant::Entrant;
use data_blocks::Blocks;
use shm_region::Region;
use std::alloc::Global;
use std::marker::Model;
use target_table::{Pending, Table};
use tcmu_types::{BlockList, NoMemory};

/// The table of commands beside the set of the blocks that they hold.
#[derive(Drop)]
pub(crate) struct Commands {
    table: Table,
    blocks: Blocks,
}

impl Model for Commands {
    ghost use Rattle.target_side.specs.HeldRows.{HeldRows, HoldsJust};

    ghost Value = { HeldRows };

    ghost view = { λ a. record { limit = a.blocks.limit; rows = a.table.rows } };

    ghost invariant = { λ a. HoldsJust a.blocks.held a.table.rows };
}

/// How many blocks an area has to have for these.
fn area_for(blocks: &[u32]) -> u32
    requires { above_all blocks.now < 2 ^ 32 }
    ensures { result ≡ above_all blocks.now }
{
    let mut end = 0;
    for block in blocks {
        end = end.max(*block + 1);
    }
    end
}

/// Takes the `count` least blocks that are free, and lets the region's area grow to them. Where memory is wanting they are free again.
fn take_blocks(
    held: &mut Blocks,
    alloc: Global,
    region: &mut Region,
    count: u32,
    into: &mut BlockList,
) -> Result<(), NoMemory>
    requires free { length held.old.held + count ≤ held.old.limit }
    requires none { into.old.items ≡ [] }
    requires room { count ≤ into.old.spare }
    ensures blocks { OnOk result (into.new.items ≡ least_free held.old.limit held.old.held count) }
    ensures held { OnOk result (HoldsMore held.old (least_free held.old.limit held.old.held count) held.new) }
    ensures grown { OnOk result (region.new ≡ grown_to region.old (above_all (least_free held.old.limit held.old.held count))) }
    ensures same { OnErr result (HoldsSame held.old held.new) }
    ensures unchanged { OnErr result (region.new ≡ region.old) }
{
    // What this call ensures is used: the limits of all sets of blocks.
    let _held = held.held();
    let _ = held.reserve(count);
    held.take(count, into);
    if region.grow(alloc, area_for(into.as_slice())).is_err() {
        held.give(into);
        return Err(NoMemory);
    }
    Ok(())
}

impl Commands {
    /// No command, and a limit of the blocks that commands may hold, from 1 to 4096.
    pub(crate) fn new(alloc: Global, limit: u32) -> Result<Commands, NoMemory>
        requires low { 1 ≤ limit }
        requires high { limit ≤ 4096 }
        ensures { IfOk result (λ c. c ≡ record { limit = limit; rows = [] }) }
    {
        let blocks = Blocks::new(alloc, limit)?;
        Ok(Commands {
            table: Table::new(alloc),
            blocks,
        })
    }

    /// How many blocks may be held.
    pub(crate) fn limit(&self) -> u32
        ensures { result ≡ self.now.limit }
    {
        self.blocks.held() + self.blocks.free()
    }

    /// How many blocks are not held.
    pub(crate) fn free_blocks(&self) -> u32
        ensures { result ≡ self.now.limit - length (blocks_held self.now.rows) }
    {
        self.blocks.free()
    }

    /// How many blocks are held.
    pub(crate) fn held(&self) -> u32
        ensures { result ≡ length (blocks_held self.now.rows) }
    {
        self.blocks.held()
    }

    /// How many commands there are.
    pub(crate) fn len(&self) -> u32
        ensures { result ≡ length self.now.rows }
    {
        self.table.len()
    }

    /// How many of them are expired.
    pub(crate) fn expired(&self) -> u32
        ensures { result ≡ count_by is_expired self.now.rows }
    {
        // What this call ensures is used: the expired ones stand in front.
        let _least = self.table.least();
        self.table.expired()
    }

    /// The command of an id.
    pub(crate) fn get(&self, id: u16) -> Option<&Pending>
        ensures { option_copied result ≡ command_of self.now.rows id }
    {
        self.table.get(id)
    }

    /// The id of the least serial.
    pub(crate) fn least(&self) -> Option<u16>
        ensures { result ≡ id_in_row (first_of (λ row. true) self.now.rows) }
    {
        self.table.least()
    }

    /// The id of the least serial above the given one.
    pub(crate) fn after(&self, serial: u64) -> Option<u16>
        ensures { result ≡ id_in_row (first_of (is_behind serial) self.now.rows) }
    {
        self.table.after(serial)
    }

    /// The id of the least serial that is not below the given one.
    fn from_serial(&self, serial: u64) -> Option<u16>
        ensures { result ≡ id_in_row (first_of (is_from serial) self.now.rows) }
    {
        if serial == 0 {
            self.table.least()
        } else {
            self.table.after(serial - 1)
        }
    }

    /// The id of a serial. It is found by halving.
    pub(crate) fn with_serial(&self, serial: u64) -> Option<u16>
        ensures { result ≡ id_in_row (first_of (row_has serial) self.now.rows) }
    {
        // What this call ensures is used: the order of the commands.
        let _least = self.table.least();
        let id = self.from_serial(serial)?;
        let pending = self.table.get(id)?;
        if pending.serial == serial {
            Some(id)
        } else {
            None
        }
    }

    /// The id of the first command that is not expired and is due now.
    pub(crate) fn next_due(&self, now: u64) -> Option<u16>
        ensures { MatchOption result (first_of (is_due_at now) self.now.rows ≡ None) (IsNextDue now self.now.rows) }
    {
        // What this call ensures is used: the order of the commands.
        let _least = self.table.least();
        self.table.next_due(now)
    }

    /// Marks the first command that is not expired, which has this id, as expired. It keeps its blocks.
    pub(crate) fn expire(&mut self, id: u16)
        requires { id_in_row (first_of is_waiting self.old.rows) ≡ Some id }
        ensures { self.new ≡ record self.old { rows = with_first (has_id id) with_expired self.old.rows } }
    {
        self.table.expire(id);
    }

    /// The blocks that an area has to have for them.
    pub(crate) fn area_end(&mut self) -> u32
        ensures value { result ≡ above_all (blocks_held self.old.rows) }
        ensures same { self.new ≡ self.old }
    {
        self.blocks.shrink()
    }

    /// Adds a command behind all others, with the least blocks that are free, to which the region's area grows, and gives its id. It takes
    /// the last memory that laying it takes: where that is wanting nothing has changed.
    pub(crate) fn add(
        &mut self,
        alloc: Global,
        region: &mut Region,
        entrant: Entrant,
    ) -> Result<u16, NoMemory>
        requires few { length self.old.rows < 65535 }
        requires free { length (blocks_held self.old.rows) + entrant.count ≤ self.old.limit }
        requires none { entrant.blocks.items ≡ [] }
        requires room { entrant.count ≤ entrant.blocks.spare }
        requires buffer { length entrant.buffer.items ≡ entrant.in_len }
        requires last { AllPrecede self.old.rows (pending_of_entrant self.old entrant) }
        ensures added { IfOk result (λ id. Added self.old entrant id self.new) }
        ensures region { IfOk result (λ id. region.new ≡ grown_to region.old (above_all (blocks_for_next self.old entrant.count))) }
        ensures target { OnErr result (self.new ≡ self.old) }
        ensures unchanged { OnErr result (region.new ≡ region.old) }
    {
        self.table.reserve()?;
        let mut blocks = entrant.blocks;
        take_blocks(&mut self.blocks, alloc, region, entrant.count, &mut blocks)?;
        Ok(
            self.table.add(Pending {
                serial: entrant.serial,
                init: entrant.init,
                tag: entrant.tag,
                in_len: entrant.in_len,
                blocks,
                deadline: entrant.deadline,
                expired: false,
                buffer: entrant.buffer,
            }),
        )
    }

    /// Takes the command of an id out, and frees its blocks.
    pub(crate) fn finish(&mut self, id: u16) -> Option<Pending>
        ensures value { result ≡ command_of self.old.rows id }
        ensures rows { self.new ≡ record self.old { rows = without_first (has_id id) self.old.rows } }
    {
        let pending = self.table.take(id)?;
        self.blocks.give(&pending.blocks);
        Some(pending)
    }
}
