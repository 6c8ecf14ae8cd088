//! The jobs in hand: each is with its handler, or has its reply and is to be responded.
ghost use Rattle.std.specs.Prelude.{◌≡◌, ℕ, ◌≤◌, ◌<◌, ◌∷◌, ◌++◌, ◌^◌, [], Some, None, true, false, length, slice_index_or, OnOk, MatchOption, option_and_then, option_map};
ghost use Rattle.std.specs.List.{count_by, list_any};
ghost use Rattle.std.specs.VecDeque.{deque_len};
ghost use Rattle.tcmu_types.specs.Lists.{IsFirst, first_of};
ghost use Rattle.tcmu_types.specs.Numbers.{IsRising};
ghost use Rattle.region_model.specs.Sides.{InHand};
ghost use Rattle.region_model.specs.HandSteps.{hand_answered, hand_has, hand_responded};
ghost use Rattle.ring_laws.specs.Handed.{is_answered, is_asked};
ghost use Rattle.ring_laws.specs.SidesShow.{first_serial};
ghost use Rattle.ring_path.specs.Hands.{has_reply, lacks_reply, owed_at, serials_in_hand, with_its_reply};

use crate::tally::Tally;
use std::alloc::Global;
use std::collections::VecDeque;
use std::marker::Model;
use std::mem;
use tcmu_types::{NoMemory, Reply};
use user_lib::Job;

/// A job in hand, of the command of a serial.
#[derive(Drop)]
pub(crate) struct HandJob {
    serial: u64,
    job: Job,
    reply: Option<Reply>,
}

impl Model for HandJob {
    ghost use Rattle.std.specs.Prelude.{◌≤◌, length, IfSome};
    ghost use Rattle.region_model.specs.Sides.{InHand};

    ghost Value = { InHand };

    ghost view = { λ a. record { serial = a.serial; job = a.job; reply = a.reply } };

    ghost invariant = { λ a. IfSome a.reply (λ r. length r.payload ≤ a.job.in_len) };
}

impl HandJob {
    /// The serial of its command.
    pub(crate) fn serial(&self) -> u64
        ensures { result ≡ self.now.serial }
    {
        self.serial
    }

    /// The job.
    pub(crate) fn job(&self) -> &Job
        ensures { result.now ≡ self.now.job }
    {
        &self.job
    }

    /// The job alone.
    pub(crate) fn into_job(self) -> Job
        ensures { result ≡ self.job }
    {
        let HandJob {
            serial: _,
            job,
            reply: _,
        } = self;
        job
    }

    /// Whether it has its reply.
    pub(crate) fn has_reply(&self) -> bool
        ensures { result ≡ has_reply self.now }
    {
        self.reply.is_some()
    }

    /// Whether it is the job of a serial, with its reply or without.
    fn is_at(&self, serial: u64, replied: bool) -> bool
        ensures { result ≡ owed_at replied serial self.now }
    {
        self.serial == serial && self.has_reply() == replied
    }

    /// Whether it is the job of a serial.
    fn is_of(&self, serial: u64) -> bool
        ensures { result ≡ hand_has serial self.now }
    {
        self.serial == serial
    }

    /// The job with its reply, where it has one.
    fn into_answered(self) -> Option<AnsweredJob>
        ensures { result ≡ with_its_reply self }
    {
        let HandJob {
            serial: _,
            job,
            reply,
        } = self;
        match reply {
            Some(reply) => Some(AnsweredJob { job, reply }),
            None => None,
        }
    }

    /// It has its reply.
    fn answer(&mut self, reply: Reply)
        requires { length reply.payload ≤ self.old.job.in_len }
        ensures { self.new ≡ record self.old { reply = Some reply } }
    {
        self.reply = Some(reply);
    }
}

/// A job that is out of hand, with its reply.
#[derive(Drop)]
pub(crate) struct AnsweredJob {
    pub(crate) job: Job,
    pub(crate) reply: Reply,
}

impl Model for AnsweredJob {
    ghost use Rattle.std.specs.Prelude.{◌≤◌, length};
    ghost use Rattle.region_model.specs.Sides.{Parked};

    ghost Value = { Parked };

    ghost view = { λ a. record { job = a.job; reply = a.reply } };

    ghost invariant = { λ a. length a.reply.payload ≤ a.job.in_len };
}

/// The jobs in hand, in rising serial. One is found by bisection, and the first is taken out without moving the others; of those without and
/// with a reply the least serial and the count are kept.
#[derive(Drop)]
pub(crate) struct Hand {
    alloc: Global,
    jobs: VecDeque<HandJob>,
    asked: Tally,
    answered: Tally,
}

impl Model for Hand {
    ghost use Rattle.std.specs.Prelude.{◌-◌};
    ghost use Rattle.std.specs.VecDeque.{deque_len, deque_capacity};
    ghost use Rattle.tcmu_types.specs.Data.{Spared};
    ghost use Rattle.region_model.specs.Sides.{InHand};
    ghost use Rattle.ring_path.specs.Hands.{AreInHand};

    ghost Value = { Spared InHand };

    ghost view = { λ a. record { items = a.jobs.items; spare = deque_capacity a.jobs - deque_len a.jobs } };

    ghost invariant = { λ a. AreInHand a.jobs.items a.asked a.answered };
}

impl Hand {
    /// No job.
    pub(crate) fn new(alloc: Global) -> Hand
        ensures { result.items ≡ [] }
    {
        Hand {
            alloc,
            jobs: VecDeque::new(alloc),
            asked: Tally::new(),
            answered: Tally::new(),
        }
    }

    /// How many jobs there are.
    pub(crate) fn len(&self) -> usize
        ensures value { result ≡ length self.now.items }
        ensures few { result < 2 ^ 63 }
    {
        self.jobs.len()
    }

    /// How many have no reply.
    pub(crate) fn asked_len(&self) -> usize
        ensures { result ≡ count_by lacks_reply self.now.items }
    {
        self.asked.count
    }

    /// How many have a reply.
    pub(crate) fn answered_len(&self) -> usize
        ensures { result ≡ count_by has_reply self.now.items }
    {
        self.answered.count
    }

    /// The least serial of those that have no reply.
    pub(crate) fn least_asked(&self) -> Option<u64>
        ensures { result ≡ first_serial lacks_reply self.now.items }
    {
        self.asked.least
    }

    /// The least serial of those that have a reply.
    pub(crate) fn least_answered(&self) -> Option<u64>
        ensures { result ≡ first_serial has_reply self.now.items }
    {
        self.answered.least
    }

    /// Makes room for one more.
    pub(crate) fn reserve(&mut self) -> Result<(), NoMemory>
        ensures items { self.new.items ≡ self.old.items }
        ensures room { OnOk result (1 ≤ self.new.spare) }
    {
        self.jobs.reserve(1)?;
        Ok(())
    }

    /// Takes a job in hand, in the room that is there; its serial is above those of the others.
    pub(crate) fn push(&mut self, serial: u64, job: Job)
        requires room { 1 ≤ self.old.spare }
        requires above { IsRising (serials_in_hand (self.old.items ++ record { serial = serial; job = job; reply = None } ∷ [])) }
        ensures { self.new.items ≡ self.old.items ++ record { serial = serial; job = job; reply = None } ∷ [] }
    {
        let _few = self.len();
        self.asked.enter(serial);
        self.jobs.push_back_reserved(HandJob {
            serial,
            job,
            reply: None,
        });
    }

    /// The index of the first job of a serial or of one above it.
    fn first_from(&self, serial: u64) -> usize
        ensures below { (k : ℕ) (d : InHand) → k < result → (slice_index_or self.now.items k d).serial < serial }
        ensures above { (k : ℕ) (d : InHand) → result ≤ k → k < length self.now.items → serial ≤ (slice_index_or self.now.items k d).serial }
        ensures within { result ≤ length self.now.items }
    {
        self.jobs.partition_point(|job| job.serial() < serial)
    }

    /// The index of the job of a serial, where it has its reply, or where it has none.
    fn index_of(&self, serial: u64, replied: bool) -> Option<usize>
        ensures { MatchOption result (list_any (owed_at replied serial) self.now.items ≡ false) (λ i. IsFirst (owed_at replied serial) self.now.items i × IsFirst (hand_has serial) self.now.items i) }
    {
        let at = self.first_from(serial);
        if at == self.jobs.len() {
            return None;
        }
        let job = &self.jobs[at];
        if job.is_at(serial, replied) {
            Some(at)
        } else {
            None
        }
    }

    /// The job of a serial, where it has no reply.
    pub(crate) fn asked(&self, serial: u64) -> Option<&HandJob>
        ensures { MatchOption result (first_of (is_asked serial) self.now.items ≡ None) (λ h. first_of (is_asked serial) self.now.items ≡ Some h.now) }
    {
        match self.index_of(serial, false) {
            Some(at) => Some(&self.jobs[at]),
            None => None,
        }
    }

    /// The index of the job of a serial, with its reply or without.
    fn place(&self, serial: u64) -> Option<usize>
        ensures { MatchOption result (list_any (hand_has serial) self.now.items ≡ false) (IsFirst (hand_has serial) self.now.items) }
    {
        let at = self.first_from(serial);
        if at == self.jobs.len() {
            return None;
        }
        let job = &self.jobs[at];
        if job.is_of(serial) { Some(at) } else { None }
    }

    /// The job of a serial, with its reply or without.
    pub(crate) fn job(&self, serial: u64) -> Option<&Job>
        ensures { MatchOption result (list_any (hand_has serial) self.now.items ≡ false) (λ j. option_map (λ h. h.job) (first_of (hand_has serial) self.now.items) ≡ Some j.now) }
    {
        match self.place(serial) {
            Some(at) => {
                let found = &self.jobs[at];
                Some(found.job())
            }
            None => None,
        }
    }

    /// The job of a serial, which has no reply, has one from now on, of no more bytes than it asks for.
    pub(crate) fn answer(&mut self, serial: u64, reply: Reply)
        requires asked { list_any (is_asked serial) self.old.items ≡ true }
        requires fits { (h : InHand) → first_of (is_asked serial) self.old.items ≡ Some h → length reply.payload ≤ h.job.in_len }
        ensures { self.new.items ≡ hand_answered self.old.items serial reply }
    {
        let _few = self.len();
        if let Some(at) = self.index_of(serial, false) {
            self.asked.leave(&self.jobs, at, serial, false);
            self.answered.enter(serial);
            let job = &mut self.jobs[at];
            job.answer(reply);
        }
    }

    /// Takes the job of a serial out of hand, where it has its reply.
    pub(crate) fn take_answered(&mut self, serial: u64) -> Option<AnsweredJob>
        ensures job { result ≡ option_and_then with_its_reply (first_of (is_answered serial) self.old.items) }
        ensures rest { list_any (is_answered serial) self.old.items ≡ true → self.new.items ≡ hand_responded self.old.items serial }
        ensures same { list_any (is_answered serial) self.old.items ≡ false → self.new.items ≡ self.old.items }
    {
        let at = self.index_of(serial, true)?;
        self.answered.leave(&self.jobs, at, serial, true);
        let job = self.jobs.remove(at)?;
        job.into_answered()
    }

    /// Takes all of them out of hand.
    pub(crate) fn take_all(&mut self) -> VecDeque<HandJob>
        ensures jobs { result.items ≡ self.old.items }
        ensures rest { self.new.items ≡ [] }
    {
        self.asked = Tally::new();
        self.answered = Tally::new();
        mem::replace(&mut self.jobs, VecDeque::new(self.alloc))
    }
}
