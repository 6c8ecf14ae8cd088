//! A plain device without its handler: what its events answer, and what they leave.
ghost use Rattle.std.specs.Prelude.{◌≡◌, ◌+◌, ◌<◌, ◌≤◌, ◌^◌, [], ◌++◌, not, map, true, false, Some, None, length, IfOk, OnOk, OnErr, MatchOption};
ghost use Rattle.std.specs.List.{list_any, filter};
ghost use Rattle.tcmu_types.specs.Rules.{IsReply};
ghost use Rattle.tcmu_types.specs.Views.{dispatch_data};
ghost use Rattle.tcmu_model.specs.RingState.{serials_in, published_commands};
ghost use Rattle.tcmu_model.specs.Device.{Unfinished, DeviceState, opening_state, is_at};
ghost use Rattle.tcmu_model.specs.Events.{dispatch_answer, after_dispatch, command_out, after_handle, placed_by, respond_answer, after_respond, publish_answer, after_publish, clean_answer, after_clean, later, tick_answer, after_tick, block_answer, after_block, emptied, reset_answer, after_reset, restart_answer, after_restart, expire, expiry, is_due, has_left, departure, is_open, reset_completion, reset_completions};
ghost use Rattle.tcmu_model.specs.Sound.{IsSound};
ghost use Rattle.tcmu_types.specs.Numbers.{Differ};
ghost use Rattle.tcmu_path.specs.Room.{to_log, KeepsRoom};
ghost use Rattle.tcmu_path.specs.Changing.{with_placing};
ghost use Rattle.tcmu_path.specs.Requests.{IsRequest};

mod laying;
mod shown;

use crate::books::{close_all, expire_all, finish_published, lose_unpublished};
use crate::dispatching::dispatch_item;
use crate::placing::{place, place_in_order};
use crate::ring::Ring;
use crate::rows::Rows;
use delayed_commands::DelayedCommands;
use handler_trait::Request;
use std::alloc::Global;
use std::marker::Model;
use tcmu_model::CommandState;
use tcmu_types::{
    Dispatch, Done, Listed, NoMemory, Publish, Reply, Reset, Respond, Serials, Settings,
};

/// All of a plain device but its handler. `held` is the data blocks that are held; in order, `passed` items stand before the first
/// whose answer is not placed.
#[derive(Drop)]
pub struct State {
    alloc: Global,
    settings: Settings,
    now: u64,
    blocked: bool,
    attached: bool,
    ring: Ring,
    accepted: u64,
    rows: Rows,
    held: u32,
    delayed: DelayedCommands,
    placed: Serials,
    passed: usize,
    log: Listed<Done>,
}

impl Model for State {
    ghost use Rattle.tcmu_model.specs.Device.{DeviceState};
    ghost use Rattle.tcmu_path.specs.Room.{IsPlain};

    ghost Value = { DeviceState };

    ghost view = { λ a. record { settings = a.settings; now = a.now; blocked = a.blocked; attached = a.attached; ring = a.ring; accepted = a.accepted; unfinished = a.rows.items; delayed = a.delayed.items; placed = a.placed.items; log = a.log.items } };

    ghost invariant = { λ a. IsPlain a.settings a.ring.laid a.rows.items a.delayed.items a.placed.items a.held a.placed.spare a.log.spare a.passed };
}

/// The moment n ticks on.
fn later(now: u64, n: u32) -> u64
    requires { now ≤ 2 ^ 63 }
    ensures { result ≡ later now n }
{
    (now + n as u64).min(1 << 63)
}

/// Logs what a moment ends: commands expire, and delayed ones leave.
fn end_by(
    rows: &mut Rows,
    delayed: &mut DelayedCommands,
    log: &mut Listed<Done>,
    alloc: Global,
    now: u64,
)
    requires { to_log rows.old.items + length delayed.old.items ≤ log.old.spare }
    ensures rows { rows.new.items ≡ map (expire now) rows.old.items }
    ensures delayed { delayed.new.items ≡ filter (λ w. not (has_left now w)) delayed.old.items }
    ensures log { log.new.items ≡ log.old.items ++ (map expiry (filter (is_due now) rows.old.items) ++ map departure (filter (has_left now) delayed.old.items)) }
    ensures room { to_log rows.new.items + length delayed.new.items ≤ log.new.spare }
    ensures kept { KeepsRoom rows.old.items rows.new.items }
{
    expire_all(rows, log, alloc, now);
    delayed.let_go_due(log, alloc, now);
}

/// Logs the unfinished and the delayed commands as a reset of a level ends them, and forgets them.
fn end_all(
    rows: &mut Rows,
    delayed: &mut DelayedCommands,
    log: &mut Listed<Done>,
    alloc: Global,
    level: u8,
)
    requires { to_log rows.old.items + length delayed.old.items ≤ log.old.spare }
    ensures rows { rows.new.items ≡ [] }
    ensures delayed { delayed.new.items ≡ [] }
    ensures log { log.new.items ≡ log.old.items ++ (map (λ u. reset_completion level u.serial u.command) (filter is_open rows.old.items) ++ map (λ w. reset_completion level w.serial w.command) delayed.old.items) }
{
    close_all(rows, log, alloc, level);
    delayed.close(log, alloc, level);
}

impl State {
    /// The device at its opening.
    pub fn new(alloc: Global, settings: Settings) -> State
        ensures { result ≡ opening_state settings }
    {
        State {
            alloc,
            settings,
            now: 0,
            blocked: false,
            attached: true,
            ring: Ring::new(alloc, settings.ring),
            accepted: 0,
            rows: Rows::new(alloc),
            held: 0,
            delayed: DelayedCommands::new(alloc),
            placed: Serials::new(alloc),
            passed: 0,
            log: Listed::new(alloc),
        }
    }

    /// Blocks the device; the answer says whether it was not blocked before.
    #[tactic(auto, unfolding(tcmu_model::specs::Events::block_answer, tcmu_model::specs::Events::after_block))]
    pub fn block(&mut self) -> bool
        ensures answer { result ≡ block_answer self.old true }
        ensures after { self.new ≡ after_block self.old true }
        ensures accepted { self.new.accepted ≡ self.old.accepted }
    {
        let changed = !self.blocked;
        self.blocked = true;
        changed
    }

    /// Lets a blocked device go on; the answer says whether it was blocked before.
    #[tactic(auto, unfolding(tcmu_model::specs::Events::block_answer, tcmu_model::specs::Events::after_block))]
    pub fn unblock(&mut self) -> bool
        ensures answer { result ≡ block_answer self.old false }
        ensures after { self.new ≡ after_block self.old false }
        ensures accepted { self.new.accepted ≡ self.old.accepted }
    {
        let changed = self.blocked;
        self.blocked = false;
        changed
    }

    /// The completions so far, in the order in which they were logged.
    pub fn log(&self) -> &[Done]
        ensures { result.now ≡ self.entry.now.log }
    {
        self.log.as_slice()
    }

    /// Lets `n` ticks pass; the answer counts the commands that it completed.
    #[tactic(auto, unfolding(tcmu_model::specs::Events::tick_answer, tcmu_model::specs::Events::after_tick))]
    pub fn tick(&mut self, n: u32) -> u64
        requires { self.old.now ≤ 2 ^ 63 }
        ensures answer { result ≡ tick_answer self.old n }
        ensures after { self.new ≡ after_tick self.old n }
        ensures accepted { self.new.accepted ≡ self.old.accepted }
    {
        let before = self.log.len();
        self.now = later(self.now, n);
        end_by(
            &mut self.rows,
            &mut self.delayed,
            &mut self.log,
            self.alloc,
            self.now,
        );
        (self.log.len() - before) as u64
    }

    /// Moves the tail past the answered items.
    #[tactic(auto, unfolding(tcmu_model::specs::Events::publish_answer, tcmu_model::specs::Events::after_publish))]
    pub fn publish(&mut self) -> Publish
        requires { published_commands self.old.ring ≤ length self.old.placed }
        ensures answer { result ≡ publish_answer self.old }
        ensures after { self.new ≡ after_publish self.old }
        ensures accepted { self.new.accepted ≡ self.old.accepted }
    {
        if !self.attached {
            return Publish::Detached;
        }
        let (items, commands) = self.ring.publish(self.placed.len());
        Publish::Moved {
            items: items as u64,
            commands: commands as u64,
        }
    }

    /// Takes published items out of the ring; the answer counts the commands that it completed.
    #[tactic(auto, unfolding(tcmu_model::specs::Events::clean_answer, tcmu_model::specs::Events::after_clean))]
    pub fn clean(&mut self) -> u64
        requires { IsSound self.old }
        ensures answer { result ≡ clean_answer self.old }
        ensures after { self.new ≡ after_clean self.old }
        ensures count { length self.new.log ≡ length self.old.log + clean_answer self.old }
        ensures accepted { self.new.accepted ≡ self.old.accepted }
    {
        let before = self.log.len();
        finish_published(
            &mut self.rows,
            &mut self.log,
            &mut self.held,
            &self.placed,
            &self.ring,
            &self.settings,
        );
        self.ring.clear();
        (self.log.len() - before) as u64
    }

    /// The user side is gone; the answer counts the commands that are lost with it.
    #[tactic(auto, unfolding(tcmu_model::specs::Events::restart_answer, tcmu_model::specs::Events::after_restart))]
    pub fn restart(&mut self) -> u64
        requires { IsSound self.old }
        ensures answer { result ≡ restart_answer self.old }
        ensures after { self.new ≡ after_restart self.old }
        ensures accepted { self.new.accepted ≡ self.old.accepted }
    {
        self.attached = false;
        lose_unpublished(&mut self.rows, &self.placed, &self.ring)
    }

    /// Whether answers are placed in any order.
    fn is_unordered(&self) -> bool
        ensures { result ≡ self.entry.now.settings.flags.ooo }
    {
        self.settings.flags.ooo
    }

    /// Places the parked command of a serial, or in order all that are parked from the first that is not placed.
    fn place(&mut self, serial: u64)
        requires parked { list_any (is_at serial CommandState.Parked) self.old.unfinished ≡ true }
        requires differ { Differ (serials_in self.old.ring.laid) }
        ensures after { self.new ≡ with_placing self.old (placed_by self.old.settings.flags.ooo (record { placed = self.old.placed; unfinished = self.old.unfinished }) serial (serials_in self.old.ring.laid)) }
        ensures accepted { self.new.accepted ≡ self.old.accepted }
    {
        if self.is_unordered() {
            place(&mut self.rows, &mut self.placed, serial);
        } else {
            self.passed = place_in_order(&mut self.rows, &mut self.placed, &self.ring, self.passed);
        }
    }

    /// Answers a handled command, in the ring's order or out of it.
    #[tactic(auto, unfolding(tcmu_model::specs::Events::respond_answer, tcmu_model::specs::Events::after_respond))]
    pub fn respond(&mut self, serial: u64) -> Respond
        requires { IsSound self.old }
        ensures answer { result ≡ respond_answer self.old serial }
        ensures after { self.new ≡ after_respond self.old serial }
        ensures accepted { self.new.accepted ≡ self.old.accepted }
    {
        if !self.rows.park(serial) {
            return Respond::NotHandled(serial);
        }
        self.place(serial);
        if self.rows.has(serial, CommandState::Placed) {
            Respond::Placed
        } else {
            Respond::Parked
        }
    }

    /// Hands the next item of the ring to the user side.
    #[tactic(auto, unfolding(tcmu_model::specs::Events::dispatch_answer, tcmu_model::specs::Events::after_dispatch))]
    pub fn dispatch(&mut self) -> Result<Dispatch, NoMemory>
        ensures answer { IfOk result (λ a. dispatch_data a ≡ dispatch_answer self.old) }
        ensures after { OnOk result (self.new ≡ after_dispatch self.old) }
        ensures err { OnErr result (self.new ≡ self.old) }
        ensures accepted { self.new.accepted ≡ self.old.accepted }
    {
        if !self.attached {
            return Ok(Dispatch::Detached);
        }
        let at = self.ring.next_place();
        let Some(item) = self.ring.item(at) else {
            return Ok(Dispatch::Nothing);
        };
        let answer = dispatch_item(self.alloc, &mut self.rows, item)?;
        self.ring.pass(at);
        Ok(answer)
    }

    /// The request of the command of a serial that is Out.
    pub fn request(&self, serial: u64) -> Result<Option<Request>, NoMemory>
        ensures { IfOk result (λ o. MatchOption o (command_out self.entry.now serial ≡ None) (IsRequest self.entry.now serial)) }
    {
        match self.rows.find(serial, CommandState::Out) {
            Some(row) => {
                let request = row.request(self.alloc)?;
                Ok(Some(request))
            }
            None => Ok(None),
        }
    }

    /// Keeps the reply to the command of a serial that is Out.
    #[tactic(auto, unfolding(tcmu_model::specs::Events::after_handle))]
    pub fn keep(&mut self, serial: u64, reply: &Reply)
        requires { (u : Unfinished) → command_out self.old serial ≡ Some u → length reply.now.payload ≤ u.command.in_len }
        ensures after { self.new ≡ after_handle self.old serial reply.now }
        ensures accepted { self.new.accepted ≡ self.old.accepted }
        ensures reply { IsReply reply.now }
    {
        let _status = reply.status;
        self.rows.keep(serial, reply);
    }

    /// Logs the unfinished and the delayed commands as a reset of a level ends them, empties the ring, and attaches a user side.
    fn close(&mut self, level: u8)
        ensures after { self.new ≡ emptied self.old level }
        ensures count { length self.new.log ≡ length self.old.log + length (reset_completions self.old level) }
        ensures accepted { self.new.accepted ≡ self.old.accepted }
    {
        end_all(
            &mut self.rows,
            &mut self.delayed,
            &mut self.log,
            self.alloc,
            level,
        );
        self.ring.reset();
        self.held = 0;
        self.placed.clear();
        self.passed = 0;
        self.attached = true;
    }

    /// Cleans, and ends all that is left; the answer is how many completions that logged.
    fn empty(&mut self, level: u8) -> u64
        requires { IsSound self.old }
        ensures after { self.new ≡ emptied (after_clean self.old) level }
        ensures count { result ≡ clean_answer self.old + length (reset_completions (after_clean self.old) level) }
        ensures accepted { self.new.accepted ≡ self.old.accepted }
    {
        let before = self.log.len();
        self.clean();
        self.close(level);
        (self.log.len() - before) as u64
    }

    /// Empties the ring of a blocked device, and completes what is open.
    #[tactic(auto, unfolding(tcmu_model::specs::Events::reset_answer, tcmu_model::specs::Events::after_reset))]
    pub fn reset(&mut self, level: u8) -> Reset
        requires { IsSound self.old }
        ensures answer { result ≡ reset_answer self.old level }
        ensures after { self.new ≡ after_reset self.old level }
        ensures accepted { self.new.accepted ≡ self.old.accepted }
    {
        if !self.blocked {
            return Reset::NotBlocked;
        }
        let count = self.rows.handlers_out();
        if count > 0 {
            return Reset::HandlersOut(count as u64);
        }
        Reset::Reset(self.empty(level))
    }
}
