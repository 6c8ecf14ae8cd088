//! What a plain device shows of itself.
ghost use Rattle.std.specs.Prelude.{◌≡◌, ◌<◌, ◌≤◌, length};
ghost use Rattle.tcmu_model.specs.RingState.{published_commands};
ghost use Rattle.tcmu_model.specs.Events.{stat_answer};
ghost use Rattle.tcmu_model.specs.Drain.{todo_of, can_enter};
ghost use Rattle.tcmu_model.specs.Sound.{IsSound};

use super::State;
use crate::rows::Rows;
use tcmu_model::CommandState;
use tcmu_types::{Stat, Todo};

impl State {
    /// Whether the first delayed command has room now.
    fn can_enter(&self) -> bool
        ensures { result ≡ can_enter self.entry.now self.entry.now.delayed }
    {
        match self.delayed.first() {
            Some(first) => {
                self.ring.fits(self.entry_length(&first.command))
                    && self.blocks_of(&first.command) <= self.free_blocks()
            }
            None => false,
        }
    }

    /// What a drain finds to do.
    #[tactic(auto, unfolding(tcmu_model::specs::Drain::todo_of))]
    pub fn todo(&self) -> Todo
        requires { published_commands self.now.ring ≤ length self.now.placed }
        ensures { result ≡ todo_of self.entry.now }
    {
        if !self.attached {
            return Todo {
                handle: None,
                respond: None,
                publish: false,
                clean: false,
                enter: false,
                dispatch: false,
            };
        }
        Todo {
            handle: self.rows.least_out(),
            respond: self.rows.least_handled(),
            publish: self.ring.may_publish(self.placed.len()),
            clean: self.ring.may_clear(),
            enter: self.can_enter(),
            dispatch: self.ring.has_more(),
        }
    }

    /// The unfinished commands: at most 65,536, since each has 112 bytes or more of a ring of at most 4 MiB.
    pub(super) fn unfinished(&self) -> &Rows
        requires { IsSound self.now }
        ensures value { result.now.items ≡ self.entry.now.unfinished }
        ensures few { length result.now.items ≤ 65536 }
    {
        &self.rows
    }

    /// The numbers that a `stat` line shows.
    #[tactic(auto, unfolding(tcmu_model::specs::Events::stat_answer))]
    pub fn stat(&self) -> Stat
        requires { length self.now.unfinished ≤ 65536 }
        ensures { result ≡ stat_answer self.entry.now }
    {
        Stat {
            now: self.now,
            blocked: self.blocked,
            attached: self.attached,
            head: self.ring.head(),
            used: self.ring.used(),
            waiting: self.rows.count_in(CommandState::Waiting),
            out: self.rows.count_in(CommandState::Out),
            handled: self.rows.count_in(CommandState::Handled),
            parked: self.rows.count_in(CommandState::Parked),
            placed: self.rows.count_in(CommandState::Placed),
            lost: self.rows.count_in(CommandState::Lost),
            expired: self.rows.count_expired(),
            held: self.held(),
            delayed: self.delayed.len() as u64,
        }
    }
}
