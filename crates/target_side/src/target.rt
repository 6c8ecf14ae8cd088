//! The target of one region.
ghost use Rattle.std.specs.Prelude.{◌≡◌, ◌<◌, ◌^◌, true, false, IfOk, OnErr, option_copied};
ghost use Rattle.tcmu_types.specs.Lists.{first_of};
ghost use Rattle.tcmu_types.specs.Numbers.{IsRising};
ghost use Rattle.target_table.specs.Rows.{id_in_row, is_behind, command_of};
ghost use Rattle.region_model.specs.Represents.{serial_with};
ghost use Rattle.region_model.specs.TargetSteps.{opening_target, region_noted, target_block_answer, target_blocked, target_enter_answer, target_noted, target_submit_answer, target_tick_answer, target_ticked, target_tmr_answer};
ghost use Rattle.region_model.specs.TargetCleans.{region_cleaned, region_reset, target_clean_answer, target_cleaned, target_reset, target_reset_answer};
ghost use Rattle.ring_laws.specs.Calls.{CleanLogs};
ghost use Rattle.target_side.specs.Cleaning.{clean_result};
ghost use Rattle.target_side.specs.Kept.{Fits, Kept};
ghost use Rattle.target_side.specs.OnDevice.{CleansDevice, EntersDevice, NotesDevice, ResetsDevice, SubmitsDevice, TicksDevice, TurnsDevice};
ghost use Rattle.target_side.specs.RingRecord.{item_at};
ghost use Rattle.target_side.specs.Showing.{numbers_of, ring_of};
ghost use Rattle.target_side.specs.Submits.{Entered, Submitted};

use crate::books::Books;
use crate::{Pending, RingItem, TargetFault, TargetNumbers};
use shm_region::Region;
use std::alloc::Global;
use std::marker::Model;
use tcmu_types::{Command, Done, Enter, NoMemory, Serials, Settings, Submit, Tmr};

/// The target of one region, over whatever bytes the region has: it lays commands in the ring, keeps them until they are finished, and
/// takes their answers out. A call that takes the region wants the one that was made with the same settings. All memory of a command's life
/// is taken when it is accepted, and where it waited when it enters; the other calls take none. After want of memory a call has changed
/// nothing.
#[derive(Drop)]
pub struct Target {
    books: Books,
}

impl Model for Target {
    ghost use Rattle.region_model.specs.Sides.{TargetState};
    ghost use Rattle.target_side.specs.Kept.{Kept};

    ghost Value = { TargetState };

    ghost view = { λ a. a.books };

    ghost invariant = { λ a. Kept a.books };
}

impl Target {
    /// The target of a new region of these settings.
    pub fn new(alloc: Global, settings: Settings) -> Result<Target, NoMemory>
        ensures { IfOk result (λ t. t ≡ opening_target settings) }
    {
        let books = Books::new(alloc, settings)?;
        Ok(Target { books })
    }

    /// Accepts a command: it is laid in the ring, or it waits for room; or refuses it.
    pub fn submit(
        &mut self,
        alloc: Global,
        region: &mut Region,
        command: &Command,
    ) -> Result<Submit, NoMemory>
        requires count { self.old.accepted < 2 ^ 63 }
        requires region { Fits region.old self.old }
        ensures answer { IfOk result (λ a. a ≡ target_submit_answer self.old command.now) }
        ensures submitted { IfOk result (λ a. Submitted region.old self.old command.now a region.new self.new) }
        ensures target { OnErr result (self.new ≡ self.old) }
        ensures unchanged { OnErr result (region.new ≡ region.old) }
        ensures fits { Fits region.new self.new }
        ensures device { IfOk result (λ a. SubmitsDevice region.old self.old command.now a region.new self.new) }
    {
        // What this call ensures is used: the limits of every region.
        let _limits = region.data_off();
        self.books.submit(alloc, region, command)
    }

    /// Lays the first command that waits for room, where there is room now.
    pub fn enter(&mut self, alloc: Global, region: &mut Region) -> Result<Enter, NoMemory>
        requires { Fits region.old self.old }
        ensures answer { IfOk result (λ a. a ≡ target_enter_answer self.old) }
        ensures entered { IfOk result (λ a. Entered region.old self.old a region.new self.new) }
        ensures target { OnErr result (self.new ≡ self.old) }
        ensures unchanged { OnErr result (region.new ≡ region.old) }
        ensures fits { Fits region.new self.new }
        ensures device { IfOk result (λ a. EntersDevice region.old self.old a region.new self.new) }
    {
        // What this call ensures is used: the limits of every region.
        let _limits = region.data_off();
        self.books.enter(alloc, region)
    }

    /// Lays a task management entry of a type (`TCMU_TMR_*`, 1 to 7) on the commands of these serials, which rise.
    pub fn tmr(
        &mut self,
        alloc: Global,
        region: &mut Region,
        kind: u8,
        serials: &Serials,
    ) -> Result<Tmr, NoMemory>
        requires region { Fits region.old self.old }
        requires rising { IsRising serials.now.items }
        ensures answer { IfOk result (λ a. a ≡ target_tmr_answer self.old serials.now.items) }
        ensures noted { IfOk result (λ a. self.new ≡ target_noted self.old serials.now.items a) }
        ensures written { IfOk result (λ a. region.new ≡ region_noted region.old self.old kind serials.now.items a) }
        ensures target { OnErr result (self.new ≡ self.old) }
        ensures unchanged { OnErr result (region.new ≡ region.old) }
        ensures fits { Fits region.new self.new }
        ensures device { IfOk result (λ a. NotesDevice region.old self.old kind serials.now.items a region.new self.new) }
    {
        self.books.tmr(alloc, region, kind, serials)
    }

    /// Lets `n` ticks pass. Commands that are due are logged, and keep their blocks until they are answered; those that waited too long for
    /// room are logged and let go. The answer counts them.
    pub fn tick(&mut self, n: u32) -> u64
        ensures answer { result ≡ target_tick_answer self.old n }
        ensures target { self.new ≡ target_ticked self.old n }
        ensures device { TicksDevice self.old n result self.new }
    {
        self.books.tick(n)
    }

    /// Lets it accept no command; the answer says whether it was not blocked before.
    pub fn block(&mut self) -> bool
        ensures answer { result ≡ target_block_answer self.old true }
        ensures target { self.new ≡ target_blocked self.old true }
        ensures device { TurnsDevice self.old true result self.new }
    {
        self.books.block()
    }

    /// Lets it accept commands again; the answer says whether it was blocked before.
    pub fn unblock(&mut self) -> bool
        ensures answer { result ≡ target_block_answer self.old false }
        ensures target { self.new ≡ target_blocked self.old false }
        ensures device { TurnsDevice self.old false result self.new }
    {
        self.books.unblock()
    }

    /// Takes the commands out whose answers stand before the mailbox's tail, and answers how many completions that logged. Kinds and
    /// lengths come from the target's own record; of the ring only the tail, and the id and the response of each command's entry are
    /// read. `BadTail` where the tail is neither the cleaned place nor an item's end, and nothing is cleaned. `Broken` where an entry has
    /// an id that no command has; the entries before it are cleaned, and the fault comes again until a reset.
    pub fn clean(&mut self, region: &mut Region) -> Result<u64, TargetFault>
        requires { Fits region.old self.old }
        ensures answer { result ≡ clean_result (target_clean_answer region.old self.old) }
        ensures target { self.new ≡ target_cleaned region.old self.old }
        ensures region { region.new ≡ region_cleaned region.old self.old }
        ensures fits { Fits region.new self.new }
        ensures own { CleanLogs region.old self.old self.new }
        ensures device { CleansDevice region.old self.old result region.new self.new }
    {
        self.books.clean(region)
    }

    /// Cleans a blocked target up to the first fault, which is not answered, and then ends all that is left: at level 1 with BUSY, at 2 with
    /// HARDWARE ERROR. Ring and area are empty then, and it stays blocked. The answer counts the completions.
    pub fn reset(&mut self, region: &mut Region, level: u8) -> u64
        requires blocked { self.old.blocked ≡ true }
        requires region { Fits region.old self.old }
        ensures answer { result ≡ target_reset_answer region.old self.old level }
        ensures target { self.new ≡ target_reset region.old self.old level }
        ensures region { region.new ≡ region_reset region.old }
        ensures fits { Fits region.new self.new }
        ensures device { ResetsDevice region.old self.old level result }
    {
        self.books.reset(region, level)
    }

    /// The serial of the command of an id.
    pub fn serial_of(&self, id: u16) -> Option<u64>
        ensures { result ≡ serial_with self.now.rows id }
    {
        self.books.serial_of(id)
    }

    /// The command of an id.
    pub fn pending(&self, id: u16) -> Option<&Pending>
        ensures { option_copied result ≡ command_of self.now.rows id }
    {
        self.books.entries.commands.get(id)
    }

    /// The id of the least serial of a command above the given one.
    pub fn after(&self, serial: u64) -> Option<u16>
        ensures { result ≡ id_in_row (first_of (is_behind serial) self.now.rows) }
    {
        self.books.entries.commands.after(serial)
    }

    /// The item at an index of those that are not cleared, from 0, in ring order.
    pub fn item(&self, index: u32) -> Option<RingItem>
        ensures { result ≡ item_at (ring_of self.now) index }
    {
        self.books.entries.places.item(index)
    }

    /// What the target counts. The clause `kept` is what every target keeps, whatever bytes the region has at its calls.
    pub fn numbers(&self) -> TargetNumbers
        ensures value { result ≡ numbers_of self.now }
        ensures kept { Kept self.now }
    {
        self.books.numbers()
    }

    /// All completions, in the order in which they were logged.
    pub fn log(&self) -> &[Done]
        ensures { result.now ≡ self.now.log }
    {
        self.books.log.as_slice()
    }
}
