//! The jobs that are neither placed nor given up, in the order in which they were given.
ghost use Rattle.std.specs.Prelude.{◌≡◌, ◌∷◌, ◌++◌, [], Some, None, true, false, OnOk, MatchOption, option_copied};
ghost use Rattle.std.specs.List.{list_any};
ghost use Rattle.std.specs.Option.{option_map};
ghost use Rattle.tcmu_types.specs.Lists.{Every, first_of, without_first, with_first};
ghost use Rattle.region_model.specs.UserSteps.{is_open_job, is_unanswered, with_parked};
ghost use Rattle.ring_laws.specs.Restarted.{count_parked};
ghost use Rattle.user_lib.specs.Given.{TakesKey, first_parked, kept_under, parked_job};

use crate::Job;
use crate::order::Order;
use slab::Slab;
use std::alloc::Global;
use std::marker::Model;
use tcmu_types::{NoMemory, Reply};

/// A job that has its reply, whose bytes are no more than the job asks for.
#[derive(Drop)]
pub(crate) struct ParkedJob {
    pub(crate) job: Job,
    pub(crate) reply: Reply,
}

impl Model for ParkedJob {
    ghost use Rattle.std.specs.Prelude.{◌≤◌, length};
    ghost use Rattle.region_model.specs.Sides.{Parked};

    ghost Value = { Parked };

    ghost view = { λ a. record { job = a.job; reply = a.reply } };

    ghost invariant = { λ a. length a.reply.payload ≤ a.job.in_len };
}

/// A job that is out of the list: its id, and itself where it had its reply.
#[derive(Drop)]
pub(crate) struct TakenJob {
    pub(crate) id: u16,
    pub(crate) parked: Option<ParkedJob>,
}

impl Model for TakenJob {
    ghost use Rattle.region_model.specs.Sides.{GivenJob};

    ghost Value = { GivenJob };

    ghost view = { λ a. record { id = a.id; parked = a.parked } };
}

/// The jobs in order, of which the parked ones are kept under keys.
#[derive(Drop)]
pub(crate) struct Jobs {
    order: Order,
    parked: Slab<ParkedJob>,
}

impl Model for Jobs {
    ghost use Rattle.user_lib.specs.Given.{AreKept, GivenJobs, jobs_of};

    ghost Value = { GivenJobs };

    ghost view = { λ a. record { jobs = jobs_of a.parked a.order.given; any_order = a.order.any_order; ready = a.order.ready } };

    ghost invariant = { λ a. AreKept a.parked a.order };
}

/// The job under a key, where there is one.
fn kept(parked: &Slab<ParkedJob>, key: Option<usize>) -> Option<&ParkedJob>
    ensures { option_copied result ≡ kept_under parked.now key }
{
    match key {
        Some(key) => parked.get(key),
        None => None,
    }
}

/// Takes the job under a key out, where there is one.
fn take_kept(parked: &mut Slab<ParkedJob>, key: Option<usize>) -> Option<ParkedJob>
    ensures value { result ≡ kept_under parked.old key }
    ensures rest { TakesKey parked.old parked.new key }
{
    match key {
        Some(key) => parked.try_remove(key),
        None => None,
    }
}

impl Jobs {
    /// No job, for answers in any order or in that of the jobs.
    pub(crate) fn new(alloc: Global, any_order: bool) -> Jobs
        ensures { result ≡ record { jobs = []; any_order = any_order; ready = None } }
    {
        Jobs {
            order: Order::new(alloc, any_order),
            parked: Slab::new(alloc),
        }
    }

    /// As it is anew, where there is no job.
    pub(crate) fn begin(&mut self, any_order: bool)
        requires { self.old.jobs ≡ [] }
        ensures { self.new ≡ record { jobs = []; any_order = any_order; ready = None } }
    {
        self.order.begin(any_order);
    }

    /// Whether answers are in any order.
    pub(crate) fn is_any(&self) -> bool
        ensures { result ≡ self.now.any_order }
    {
        self.order.is_any()
    }

    /// Makes room for a job of an id, with its reply where answers keep the order.
    pub(crate) fn reserve(&mut self, alloc: Global, id: u16) -> Result<(), NoMemory>
        ensures jobs { self.new.jobs ≡ self.old.jobs }
        ensures order { self.new.any_order ≡ self.old.any_order }
        ensures room { OnOk result (self.new.ready ≡ Some id) }
    {
        self.parked
            .reserve(self.order.in_line() + 1 - self.parked.len())?;
        self.order.reserve(alloc, id)
    }

    /// Appends a job without a reply, in the room that is there.
    pub(crate) fn push(&mut self, id: u16)
        requires { self.old.ready ≡ Some id }
        ensures jobs { self.new.jobs ≡ self.old.jobs ++ record { id = id; parked = None } ∷ [] }
        ensures order { self.new.any_order ≡ self.old.any_order }
    {
        self.order.push(id);
    }

    /// Whether a job of this id has no reply.
    pub(crate) fn is_open(&self, id: u16) -> bool
        ensures { result ≡ list_any (is_open_job id) self.now.jobs }
    {
        self.order.is_open(id)
    }

    /// Takes the first job of an id out that has no reply.
    pub(crate) fn remove(&mut self, id: u16)
        requires order { self.old.any_order ≡ true }
        requires is_open { list_any (is_open_job id) self.old.jobs ≡ true }
        ensures jobs { self.new.jobs ≡ without_first (is_open_job id) self.old.jobs }
        ensures order { self.new.any_order ≡ self.old.any_order }
    {
        self.order.remove(id);
    }

    /// Keeps the first job of an id that has no reply with one from now on.
    pub(crate) fn park(&mut self, id: u16, parked: ParkedJob)
        requires order { self.old.any_order ≡ false }
        requires is_open { list_any (is_open_job id) self.old.jobs ≡ true }
        ensures jobs { self.new.jobs ≡ with_first (is_open_job id) (with_parked parked) self.old.jobs }
        ensures order { self.new.any_order ≡ self.old.any_order }
    {
        let key = self.parked.insert_reserved(parked);
        self.order.park(id, key);
    }

    /// Takes the first job out.
    pub(crate) fn pop(&mut self) -> Option<TakenJob>
        requires { self.old.any_order ≡ false }
        ensures jobs { MatchOption result ((self.old.jobs ≡ []) × (self.new.jobs ≡ [])) (λ job. self.old.jobs ≡ job ∷ self.new.jobs) }
        ensures order { self.new.any_order ≡ self.old.any_order }
    {
        let given = self.order.pop()?;
        Some(TakenJob {
            id: given.id,
            parked: take_kept(&mut self.parked, given.key),
        })
    }

    /// Gives up every job; where answers are in any order, none has its reply.
    pub(crate) fn give_up(&mut self)
        requires { self.old.any_order ≡ true }
        ensures jobs { self.new.jobs ≡ [] }
        ensures order { self.new.any_order ≡ self.old.any_order }
        ensures none { Every (λ g. g.parked ≡ None) self.old.jobs }
    {
        self.order.begin(true);
    }

    /// Whether the first job has its reply.
    pub(crate) fn is_first_parked(&self) -> bool
        ensures value { result ≡ first_parked self.now.jobs }
        ensures order { result ≡ true → self.now.any_order ≡ false }
    {
        self.order.leads_parked()
    }

    /// The id of the first job that has no reply, which is the first of all.
    pub(crate) fn first_open(&self) -> Option<u16>
        requires order { self.now.any_order ≡ false }
        requires first { first_parked self.now.jobs ≡ false }
        ensures { result ≡ option_map (λ g. g.id) (first_of is_unanswered self.now.jobs) }
    {
        self.order.first_id()
    }

    /// The first parked job of an id.
    pub(crate) fn parked(&self, id: u16) -> Option<&Job>
        ensures { option_copied result ≡ parked_job id self.now.jobs }
    {
        let parked = kept(&self.parked, self.order.key_of(id))?;
        Some(&parked.job)
    }

    /// How many of them have their replies.
    pub(crate) fn parked_len(&self) -> usize
        ensures { result ≡ count_parked self.now.jobs }
    {
        self.parked.len()
    }
}
