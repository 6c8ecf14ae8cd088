//! What ends commands: a clean, the clock, a reset and a restart; and the bit that keeps new ones away.
ghost use Rattle.std.specs.Prelude.{◌≡◌, ◌≤◌, true, false};
ghost use Rattle.tcmu_model.specs.BlockLists.{kept_lists};
ghost use Rattle.tcmu_model.specs.Events.{after_block, after_clean, after_reset, after_restart, after_tick, block_answer, clean_answer, count_in_hand, reset_answer, restart_answer, tick_answer};
ghost use Rattle.region_model.specs.UserSteps.{with_job_back};
ghost use Rattle.ring_laws.specs.Restarted.{region_with_hand};
ghost use Rattle.user_lib.specs.Answering.{GoesBack};
ghost use Rattle.ring_path.specs.Backs.{AllGoBack};

use super::State;
use crate::hand::HandJob;
use shm_region::Region;
use std::collections::VecDeque;
use tcmu_types::Reset;
use user_lib::{Job, JobData};

/// Puts the blocks of a job back as they are.
fn put_back(region: &mut Region, job: Job)
    requires { GoesBack region.old job.iovs job.carried }
    ensures { region.new ≡ with_job_back region.old job }
{
    let Job {
        id: _,
        cdb: _,
        iovs,
        carried,
        in_len: _,
    } = job;
    match carried {
        JobData::Moved(parts) => region.back(&iovs, parts),
        JobData::Copied(_) => {}
    }
}

/// Puts the blocks of all these jobs back as they are.
fn put_all_back(region: &mut Region, jobs: VecDeque<HandJob>)
    requires { AllGoBack region.old jobs.items }
    ensures { region.new ≡ region_with_hand region.old jobs.items }
{
    let mut jobs = jobs;
    while let Some(job) = jobs.pop_front() {
        put_back(region, job.into_job());
    }
}

impl State {
    /// The target finishes the commands whose answers are published.
    pub(crate) fn clean(&mut self) -> u64
        ensures answer { result ≡ clean_answer self.old.state }
        ensures after { self.new.state ≡ after_clean self.old.state }
        ensures lists { self.new.lists ≡ kept_lists self.new.state self.old.lists }
        ensures accepted { self.new.state.accepted ≡ self.old.state.accepted }
    {
        let Ok(logged) = self.target.clean(&mut self.region) else {
            unreachable!()
        };
        self.told.cleaned();
        logged
    }

    /// The clock moves on.
    pub(crate) fn tick(&mut self, n: u32) -> u64
        ensures answer { result ≡ tick_answer self.old.state n }
        ensures after { self.new.state ≡ after_tick self.old.state n }
        ensures lists { self.new.lists ≡ kept_lists self.new.state self.old.lists }
        ensures accepted { self.new.state.accepted ≡ self.old.state.accepted }
    {
        let logged = self.target.tick(n);
        self.told.ticked(n);
        logged
    }

    /// No new commands and notes are taken.
    pub(crate) fn block(&mut self) -> bool
        ensures answer { result ≡ block_answer self.old.state true }
        ensures after { self.new.state ≡ after_block self.old.state true }
        ensures lists { self.new.lists ≡ kept_lists self.new.state self.old.lists }
        ensures accepted { self.new.state.accepted ≡ self.old.state.accepted }
    {
        let changed = self.target.block();
        self.told.blocked(true);
        changed
    }

    /// New commands and notes are taken again.
    pub(crate) fn unblock(&mut self) -> bool
        ensures answer { result ≡ block_answer self.old.state false }
        ensures after { self.new.state ≡ after_block self.old.state false }
        ensures lists { self.new.lists ≡ kept_lists self.new.state self.old.lists }
        ensures accepted { self.new.state.accepted ≡ self.old.state.accepted }
    {
        let changed = self.target.unblock();
        self.told.blocked(false);
        changed
    }

    /// How many jobs are in hand or parked.
    fn jobs_out(&self) -> u64
        ensures { result ≡ count_in_hand self.entry.now.state }
    {
        self.hand.len() as u64 + self.user.numbers().parked
    }

    /// The ring is reset, where the device is blocked and no job is in hand or parked.
    pub(crate) fn reset(&mut self, level: u8) -> Reset
        requires low { 1 ≤ level }
        requires high { level ≤ 2 }
        ensures answer { result ≡ reset_answer self.old.state level }
        ensures after { self.new.state ≡ after_reset self.old.state level }
        ensures lists { self.new.lists ≡ kept_lists self.new.state self.old.lists }
        ensures accepted { self.new.state.accepted ≡ self.old.state.accepted }
    {
        if !self.target.numbers().blocked {
            self.told.reset(level);
            return Reset::NotBlocked;
        }
        let out = self.jobs_out();
        if out > 0 {
            self.told.reset(level);
            return Reset::HandlersOut(out);
        }
        self.empty(level)
    }

    /// The target ends all that it has, and the user side is attached again.
    fn empty(&mut self, level: u8) -> Reset
        requires blocked { self.old.state.blocked ≡ true }
        requires none { count_in_hand self.old.state ≡ 0 }
        ensures answer { result ≡ reset_answer self.old.state level }
        ensures after { self.new.state ≡ after_reset self.old.state level }
        ensures lists { self.new.lists ≡ kept_lists self.new.state self.old.lists }
        ensures accepted { self.new.state.accepted ≡ self.old.state.accepted }
    {
        let logged = self.target.reset(&mut self.region, level);
        let Ok(()) = self.user.reattach(&mut self.region) else {
            unreachable!()
        };
        self.attached = true;
        self.longest = 0;
        self.told.reset(level);
        Reset::Reset(logged)
    }

    /// How many commands turn Lost where the user side goes now.
    fn losing(&self) -> u64
        ensures { result ≡ restart_answer self.entry.now.state }
    {
        if !self.attached {
            return 0;
        }
        let user = self.user.numbers();
        self.hand.len() as u64 + user.parked + (user.placed - user.published)
    }

    /// The user side is gone: the blocks of the jobs in hand go back, and then those of the parked ones.
    pub(crate) fn restart(&mut self) -> u64
        ensures answer { result ≡ restart_answer self.old.state }
        ensures after { self.new.state ≡ after_restart self.old.state }
        ensures lists { self.new.lists ≡ kept_lists self.new.state self.old.lists }
        ensures accepted { self.new.state.accepted ≡ self.old.state.accepted }
    {
        let lost = self.losing();
        let jobs = self.hand.take_all();
        put_all_back(&mut self.region, jobs);
        self.user.abandon(&mut self.region);
        self.attached = false;
        self.told.restarted();
        lost
    }
}
