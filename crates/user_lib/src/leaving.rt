//! Attaching, giving up the jobs, and attaching again.
ghost use Rattle.std.specs.Prelude.{◌≡◌, [], ◌∷◌, Ok, Err, None, true, false, IfOk, IfErr, OnOk, OnErr, MatchOption};
ghost use Rattle.tcmu_types.specs.Lists.{Every};
ghost use Rattle.region_model.specs.MailboxReading.{IsMailbox};
ghost use Rattle.region_model.specs.UserSteps.{flags_in, region_abandoned, region_reattached, user_abandoned, user_attached, user_of, with_job_back, with_parked_back};
ghost use Rattle.ring_laws.specs.UserKept.{AreWholeJobs, HasPages, HasRing};
ghost use Rattle.user_lib.specs.Answering.{AreBack, GoesBack};

use crate::books::UserBooks;
use crate::jobs::{Jobs, ParkedJob, TakenJob};
use crate::next::mailbox_of;
use crate::{Job, JobData};
use mailbox_bytes::{Mailbox, MailboxFault};
use shm_region::Region;
use std::alloc::Global;
use std::collections::VecDeque;
use tcmu_types::{Flags, PAGE};

/// The flags that the bits of a mailbox's flag word name.
fn flags_of(bits: u16) -> Flags
    ensures { result ≡ flags_in bits }
{
    Flags {
        ooo: bits % 2 == 1,
        read_len: bits / 2 % 2 == 1,
        tmr: bits / 4 % 2 == 1,
    }
}

/// Puts the blocks of a job back as they are.
fn put_back(region: &mut Region, parked: ParkedJob)
    requires { GoesBack region.old parked.job.iovs parked.job.carried }
    ensures value { region.new ≡ with_job_back region.old parked.job }
    ensures front { region.new.front ≡ region.old.front }
    ensures pages { region.new.pages ≡ region.old.pages }
{
    let ParkedJob { job, reply: _ } = parked;
    let Job {
        id: _,
        cdb: _,
        iovs,
        carried,
        in_len: _,
    } = job;
    match carried {
        JobData::Moved(parts) => region.back(&iovs, parts),
        JobData::Copied(_) => {}
    }
}

/// Puts the blocks of a job back where it is parked.
fn put_taken_back(region: &mut Region, taken: TakenJob)
    requires { AreBack region.old taken.parked }
    ensures value { region.new ≡ with_parked_back region.old taken.parked }
    ensures front { region.new.front ≡ region.old.front }
    ensures pages { region.new.pages ≡ region.old.pages }
{
    match taken.parked {
        Some(parked) => put_back(region, parked),
        None => {}
    }
}

impl UserBooks {
    /// Attached to a region whose mailbox this is.
    #[tactic(auto, unfolding(region_model::specs::UserSteps::user_attached))]
    pub(crate) fn attach(alloc: Global, region: &Region) -> Result<UserBooks, MailboxFault>
        ensures ok { IfOk result (λ u. user_attached region.now ≡ Ok u) }
        ensures err { IfErr result (λ fault. user_attached region.now ≡ Err fault) }
    {
        let mailbox = mailbox_of(region)?;
        let flags = flags_of(mailbox.flags);
        Ok(UserBooks {
            ring: mailbox.cmdr_size,
            pages: (region.block_len() / PAGE as u64) as u32,
            flags,
            place: mailbox.tail,
            tail: mailbox.tail,
            jobs: Jobs::new(alloc, flags.ooo),
            offsets: VecDeque::new(alloc),
            items: VecDeque::new(alloc),
            dispatched: 0,
            placed: 0,
            published: 0,
        })
    }

    /// Takes the first job out.
    fn pop_job(&mut self) -> Option<TakenJob>
        requires { self.old.flags.ooo ≡ false }
        ensures { MatchOption result ((self.old.jobs ≡ []) × (self.new ≡ self.old)) (λ g. (self.old.jobs ≡ g ∷ self.new.jobs) × (self.new ≡ record self.old { jobs = self.new.jobs })) }
    {
        self.jobs.pop()
    }

    /// Gives up every job in order; the blocks of those that are parked go back.
    #[tactic(auto, unfolding(region_model::specs::UserSteps::user_abandoned))]
    fn abandon_in_order(&mut self, region: &mut Region)
        requires flag { self.old.flags.ooo ≡ false }
        requires ring { HasRing region.old self.old }
        requires pages { HasPages region.old self.old }
        requires whole { AreWholeJobs self.old }
        ensures user { self.new ≡ user_abandoned self.old }
        ensures region { region.new ≡ region_abandoned region.old self.old.jobs }
    {
        while let Some(taken) = self.pop_job() {
            put_taken_back(region, taken);
        }
    }

    /// Gives up every job, of which none is parked.
    fn abandon_at_once(&mut self)
        requires { self.old.flags.ooo ≡ true }
        ensures user { self.new ≡ user_abandoned self.old }
        ensures none { Every (λ g. g.parked ≡ None) self.old.jobs }
    {
        self.jobs.give_up();
    }

    /// Gives up every job; the blocks of those that are parked go back.
    pub(crate) fn abandon(&mut self, region: &mut Region)
        requires ring { HasRing region.old self.old }
        requires pages { HasPages region.old self.old }
        requires whole { AreWholeJobs self.old }
        ensures user { self.new ≡ user_abandoned self.old }
        ensures region { region.new ≡ region_abandoned region.old self.old.jobs }
    {
        if self.flags.ooo {
            self.abandon_at_once();
        } else {
            self.abandon_in_order(region);
        }
    }

    /// As it is attached to a region whose mailbox this is; it has no jobs.
    fn begin(&mut self, mailbox: &Mailbox)
        requires mailbox { IsMailbox mailbox.now }
        requires jobs { self.old.jobs ≡ [] }
        ensures { self.new ≡ user_of self.old.pages mailbox.now }
    {
        self.ring = mailbox.cmdr_size;
        self.flags = flags_of(mailbox.flags);
        self.jobs.begin(self.flags.ooo);
        self.place = mailbox.tail;
        self.tail = mailbox.tail;
        self.offsets.clear();
        self.items.clear();
        self.dispatched = 0;
        self.placed = 0;
        self.published = 0;
    }

    /// Gives up every job, and is as after `attach`; or changes nothing.
    pub(crate) fn reattach(&mut self, region: &mut Region) -> Result<(), MailboxFault>
        requires ring { HasRing region.old self.old }
        requires pages { HasPages region.old self.old }
        requires whole { AreWholeJobs self.old }
        ensures region { region.new ≡ region_reattached region.old self.old }
        ensures ok { OnOk result (user_attached region.old ≡ Ok self.new) }
        ensures err { IfErr result (λ fault. user_attached region.old ≡ Err fault) }
        ensures unchanged { OnErr result (self.new ≡ self.old) }
    {
        let mailbox = match mailbox_of(region) {
            Ok(mailbox) => mailbox,
            Err(fault) => return Err(fault),
        };
        self.abandon(region);
        self.begin(&mailbox);
        Ok(())
    }
}
