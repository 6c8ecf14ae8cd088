//! What a device over a region shows of itself.
ghost use Rattle.std.specs.Prelude.{◌≡◌, ◌-◌, ◌≤◌, if◌then◌else◌};
ghost use Rattle.tcmu_model.specs.Drain.{todo_of};
ghost use Rattle.tcmu_model.specs.Events.{stat_answer};

use super::State;
use tcmu_types::{Done, Stat, Todo};

/// A count of commands of one ring, of which there are fewer than ids.
fn few(count: u64) -> u32
    requires { count ≤ 65536 }
    ensures { result ≡ count }
{
    count as u32
}

/// What is left of some commands of one ring without others.
fn left(all: u64, gone: u64) -> u32
    requires { all - gone ≤ 65536 }
    ensures { result ≡ all - gone }
{
    few(all.saturating_sub(gone))
}

/// One of two counts.
fn chosen(first: bool, one: u64, other: u64) -> u64
    ensures { result ≡ (if first then one else other) }
{
    if first { one } else { other }
}

impl State {
    /// The device's numbers.
    pub(crate) fn stat(&self) -> Stat
        ensures { result ≡ stat_answer self.entry.now.state }
    {
        let target = self.target.numbers();
        let user = self.user.numbers();
        let answered = chosen(self.attached, user.placed, user.published);
        let lost = chosen(self.attached, user.published, user.dispatched);
        Stat {
            now: target.now,
            blocked: target.blocked,
            attached: self.attached,
            head: target.head,
            used: target.used,
            waiting: left(target.laid, user.dispatched),
            out: few(self.hand.asked_len() as u64),
            handled: few(self.hand.answered_len() as u64),
            parked: few(user.parked),
            placed: left(answered, target.cleared),
            lost: left(lost, user.published),
            expired: target.expired,
            held: target.held,
            delayed: target.delayed,
        }
    }

    /// All completions, in the order in which they were logged.
    pub(crate) fn log(&self) -> &[Done]
        ensures { result.now ≡ self.entry.now.state.log }
    {
        self.target.log()
    }

    /// What the drain finds to do.
    pub(crate) fn todo(&self) -> Todo
        ensures { result ≡ todo_of self.entry.now.state }
    {
        if !self.attached {
            return Todo {
                handle: None,
                respond: None,
                publish: false,
                clean: false,
                enter: false,
                dispatch: false,
            };
        }
        let target = self.target.numbers();
        let user = self.user.numbers();
        Todo {
            handle: self.hand.least_asked(),
            respond: self.hand.least_answered(),
            publish: user.moves,
            clean: self.user.tail() != target.cleaned,
            enter: target.enters,
            dispatch: user.place != target.head,
        }
    }
}
