//! Some of the jobs in hand: the least serial among them, and how many they are.
ghost use Rattle.std.specs.Prelude.{◌≡◌, ◌+◌, ◌<◌, ◌≤◌, ◌^◌, ◌==◌, length, drop, None, if◌then◌else◌};
ghost use Rattle.ring_laws.specs.SidesShow.{first_serial};
ghost use Rattle.ring_path.specs.Hands.{lesser, owes, without};

use crate::hand::HandJob;
use std::collections::VecDeque;

/// The serial of the first job, from a place on, that has its reply or that has none.
fn next_in(jobs: &VecDeque<HandJob>, from: usize, replied: bool) -> Option<u64>
    requires { from ≤ length jobs.now.items }
    ensures { result ≡ first_serial (owes replied) (drop from jobs.now.items) }
{
    for at in from..jobs.len() {
        let job = &jobs[at];
        if job.has_reply() == replied {
            return Some(job.serial());
        }
    }
    None
}

/// The least serial of the jobs that have their reply, or of those that have none, and how many they are: kept, so that no step of a drain
/// looks for them.
#[derive(Clone, Copy, Debug)]
pub(crate) struct Tally {
    /// None where there is no such job.
    pub(crate) least: Option<u64>,
    pub(crate) count: usize,
}

impl Tally {
    /// Of no job.
    pub(crate) fn new() -> Tally
        ensures least { result.least ≡ None }
        ensures count { result.count ≡ 0 }
    {
        Tally {
            least: None,
            count: 0,
        }
    }

    /// The job of a serial comes in.
    pub(crate) fn enter(&mut self, serial: u64)
        requires { self.old.count < 2 ^ 63 }
        ensures least { self.new.least ≡ lesser self.old.least serial }
        ensures count { self.new.count ≡ self.old.count + 1 }
    {
        self.count += 1;
        self.least = match self.least {
            Some(least) if least < serial => Some(least),
            _ => Some(serial),
        };
    }

    /// The job of a serial, which stands at a place, is out. Where it was the first, the next one is looked for behind it, unless there is
    /// none.
    pub(crate) fn leave(&mut self, jobs: &VecDeque<HandJob>, at: usize, serial: u64, replied: bool)
        requires some { 1 ≤ self.old.count }
        requires within { at < length jobs.now.items }
        ensures least { self.new.least ≡ without self.old.least serial (if self.new.count == 0 then None else first_serial (owes replied) (drop (at + 1) jobs.now.items)) }
        ensures count { self.new.count + 1 ≡ self.old.count }
    {
        self.count -= 1;
        self.least = match self.least {
            Some(least) if least == serial => self.behind(jobs, at, replied),
            other => other,
        };
    }

    /// The serial of the next of them behind a place.
    fn behind(&self, jobs: &VecDeque<HandJob>, at: usize, replied: bool) -> Option<u64>
        requires { at < length jobs.now.items }
        ensures { result ≡ (if self.now.count == 0 then None else first_serial (owes replied) (drop (at + 1) jobs.now.items)) }
    {
        if self.count == 0 {
            return None;
        }
        let _count = jobs.len();
        next_in(jobs, at + 1, replied)
    }
}
