//! The events of a device, whichever way it is kept.
ghost use Rattle.std.specs.Prelude.{◌≡◌, ℕ, ◌+◌, ◌≤◌, ◌<◌, ◌^◌, List, Option, None, true, false, IfOk, OnErr};
ghost use Rattle.tcmu_types.specs.Data.{ReplyData};
ghost use Rattle.tcmu_types.specs.Events as ev;
ghost use Rattle.tcmu_types.specs.Views.{dispatch_data};
ghost use Rattle.tcmu_types.specs.Numbers.{IsRising};
ghost use Rattle.tcmu_model.specs.MediumState.{MediumState};
ghost use Rattle.tcmu_model.specs.Device.{Device};
ghost use Rattle.tcmu_model.specs.Steps.{Asked, Submits, Enters, Dispatches, Handles, Responds, Publishes, Cleans, Ticks, Blocks, Resets, Restarts, Notes, Shows};
ghost use Rattle.tcmu_model.specs.Drain.{todo_of};
ghost use Rattle.tcmu_model.specs.BlockLists.{Taken};
ghost use Rattle.tcmu_path.specs.Calls.{Keeps, Accepts, ListsFollow};

use std::alloc::Global;
use tcmu_types::{
    Command, Dispatch, Done, Enter, Handle, NoMemory, Publish, Reset, Respond, Serials, Stat,
    Submit, Tmr, Todo,
};

/// A device of the target: what its initiators, its user side and its administrator may ask of it, one event a call. After want of
/// memory the device is as it was. The calls that answer no `Result` take no memory.
pub trait Path {
    /// The device, with its handler's name and medium.
    ghost device: { Self → Device };

    /// What its handler may answer, and leave.
    ghost relation: { List ℕ → MediumState → Asked → ReplyData → MediumState → Type 0 };

    /// The data blocks of each command, where this way of keeping a device tells them.
    ghost lists: { Self → Option (List Taken) } = { λ _. None };

    /// An initiator sends a command. The answer is the first of these that applies: `Busy` on a blocked device; `TooBig` where the
    /// entry is over half the ring (bytes), or else where it needs more data blocks than the device may hold; without a queue-full
    /// time `FullRing`, or else `FullBlocks`, where there is no room now; with one, `Delayed` where there is no room now or a command
    /// is delayed already; else `Queued` with its serial. Fewer than 2^63 commands may have been accepted before.
    fn submit(&mut self, alloc: Global, command: &Command) -> Result<Submit, NoMemory>
        requires { (device self.old).state.accepted < 2 ^ 63 }
        ensures step { IfOk result (λ a. Submits (device self.old) command.now a (device self.new)) }
        ensures lists { IfOk result (λ a. ListsFollow (lists self.old) (device self.old) (ev.Submit command.now) (ev.Submitted a) (device self.new) (lists self.new)) }
        ensures unchanged { OnErr result (Keeps (device self.old) (device self.new) (lists self.old) (lists self.new)) }
        ensures accepts { Accepts 1 (device self.old) (device self.new) };

    /// The user side takes the next item of the ring: a job, or a note on task management. `Nothing` where all are taken, `Detached`
    /// where no user side is attached.
    fn dispatch(&mut self, alloc: Global) -> Result<Dispatch, NoMemory>
        ensures step { IfOk result (λ a. Dispatches (device self.old) (dispatch_data a) (device self.new)) }
        ensures lists { IfOk result (λ a. ListsFollow (lists self.old) (device self.old) ev.Dispatch (ev.Dispatched (dispatch_data a)) (device self.new) (lists self.new)) }
        ensures unchanged { OnErr result (Keeps (device self.old) (device self.new) (lists self.old) (lists self.new)) }
        ensures accepts { Accepts 0 (device self.old) (device self.new) };

    /// The handler serves the command of this serial; `NotOut` where none of this serial is Out.
    fn handle(&mut self, alloc: Global, serial: u64) -> Result<Handle, NoMemory>
        ensures step { IfOk result (λ a. Handles relation (device self.old) serial a (device self.new)) }
        ensures lists { IfOk result (λ a. ListsFollow (lists self.old) (device self.old) (ev.Handle serial) (ev.Answered a) (device self.new) (lists self.new)) }
        ensures unchanged { OnErr result (Keeps (device self.old) (device self.new) (lists self.old) (lists self.new)) }
        ensures accepts { Accepts 0 (device self.old) (device self.new) };

    /// The reply of the command of this serial is placed in the ring, or parked behind those of earlier commands; `NotHandled` where
    /// none of this serial is Handled.
    fn respond(&mut self, serial: u64) -> Respond
        ensures step { Responds (device self.old) serial result (device self.new) }
        ensures lists { ListsFollow (lists self.old) (device self.old) (ev.Respond serial) (ev.Responded result) (device self.new) (lists self.new) }
        ensures accepts { Accepts 0 (device self.old) (device self.new) };

    /// The user side moves the mailbox's tail past what is answered: `Moved` with how many items, and how many commands among them;
    /// `Detached` where no user side is attached.
    fn publish(&mut self) -> Publish
        ensures step { Publishes (device self.old) result (device self.new) }
        ensures lists { ListsFollow (lists self.old) (device self.old) ev.Publish (ev.Published result) (device self.new) (lists self.new) }
        ensures accepts { Accepts 0 (device self.old) (device self.new) };

    /// The target finishes the commands whose answers are published; the answer is how many completions it logged.
    fn clean(&mut self) -> u64
        ensures step { Cleans (device self.old) result (device self.new) }
        ensures lists { ListsFollow (lists self.old) (device self.old) ev.Clean (ev.Logged result) (device self.new) (lists self.new) }
        ensures accepts { Accepts 0 (device self.old) (device self.new) };

    /// The clock moves on by `n` ticks, and stops at 2^63; commands whose deadline is reached expire, and delayed ones whose time is up
    /// leave. The answer is how many completions that logged.
    fn tick(&mut self, n: u32) -> u64
        ensures step { Ticks (device self.old) n result (device self.new) }
        ensures lists { ListsFollow (lists self.old) (device self.old) (ev.Tick n) (ev.Logged result) (device self.new) (lists self.new) }
        ensures accepts { Accepts 0 (device self.old) (device self.new) };

    /// No new commands and notes are taken; the answer is whether that is news.
    fn block(&mut self) -> bool
        ensures step { Blocks (device self.old) true result (device self.new) }
        ensures lists { ListsFollow (lists self.old) (device self.old) ev.Block (ev.Changed result) (device self.new) (lists self.new) }
        ensures accepts { Accepts 0 (device self.old) (device self.new) };

    /// New commands and notes are taken again; the answer is whether that is news.
    fn unblock(&mut self) -> bool
        ensures step { Blocks (device self.old) false result (device self.new) }
        ensures lists { ListsFollow (lists self.old) (device self.old) ev.Unblock (ev.Changed result) (device self.new) (lists self.new) }
        ensures accepts { Accepts 0 (device self.old) (device self.new) };

    /// The ring is reset: what is open is logged, BUSY at level 1 and an internal target failure at level 2, and a user side is attached.
    /// `NotBlocked` on a device that is not blocked, `HandlersOut` where commands are out, handled or parked; then nothing changes.
    fn reset(&mut self, level: u8) -> Reset
        requires low { 1 ≤ level }
        requires high { level ≤ 2 }
        ensures step { Resets (device self.old) level result (device self.new) }
        ensures lists { ListsFollow (lists self.old) (device self.old) (ev.Reset level) (ev.WasReset result) (device self.new) (lists self.new) }
        ensures accepts { Accepts 0 (device self.old) (device self.new) };

    /// The user side is gone, and with it what it had; the answer is how many commands turned Lost.
    fn restart(&mut self) -> u64
        ensures step { Restarts (device self.old) result (device self.new) }
        ensures lists { ListsFollow (lists self.old) (device self.old) ev.Restart (ev.Lost result) (device self.new) (lists self.new) }
        ensures accepts { Accepts 0 (device self.old) (device self.new) };

    /// A task management note on these serials, which rise, of a kind of the kernel's `TCMU_TMR_*` from 1 (ABORT TASK; SAM-5,
    /// clause 7, has the first five) to 7 (TARGET COLD RESET), is laid in the ring. `Off` where the device has no such notes, `Busy` on
    /// a blocked device, `Unknown` with the first serial that no unfinished command in the ring has, `FullRing` where there is no room.
    fn tmr(&mut self, alloc: Global, kind: u8, serials: &Serials) -> Result<Tmr, NoMemory>
        requires low { 1 ≤ kind }
        requires high { kind ≤ 7 }
        requires rising { IsRising serials.now.items }
        ensures step { IfOk result (λ a. Notes (device self.old) kind serials.now.items a (device self.new)) }
        ensures lists { IfOk result (λ a. ListsFollow (lists self.old) (device self.old) (ev.Tmr kind serials.now.items) (ev.Noted a) (device self.new) (lists self.new)) }
        ensures unchanged { OnErr result (Keeps (device self.old) (device self.new) (lists self.old) (lists self.new)) }
        ensures accepts { Accepts 0 (device self.old) (device self.new) };

    /// The delayed command of the least serial enters the ring; `Empty` where none is delayed, `FullRing` or `FullBlocks` where there is
    /// still no room.
    fn enter(&mut self, alloc: Global) -> Result<Enter, NoMemory>
        ensures step { IfOk result (λ a. Enters (device self.old) a (device self.new)) }
        ensures lists { IfOk result (λ a. ListsFollow (lists self.old) (device self.old) ev.Enter (ev.Entered a) (device self.new) (lists self.new)) }
        ensures unchanged { OnErr result (Keeps (device self.old) (device self.new) (lists self.old) (lists self.new)) }
        ensures accepts { Accepts 0 (device self.old) (device self.new) };

    /// The device's numbers.
    fn stat(&self) -> Stat
        ensures { Shows (device self.now) result (device self.now) };

    /// All completions, in the order in which they were logged.
    fn log(&self) -> &[Done]
        ensures { result.now ≡ (device self.now).state.log };

    /// What the drain finds to do.
    fn todo(&self) -> Todo
        ensures { result ≡ todo_of (device self.now).state };
}
