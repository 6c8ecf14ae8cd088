//! The user side of one region.
ghost use Rattle.std.specs.Prelude.{◌≡◌, ◌≤◌, ◌+◌, ◌^◌, true, length, Ok, Err, IfOk, IfErr, OnOk, OnErr, option_copied, is_ok};
ghost use Rattle.std.specs.List.{list_any};
ghost use Rattle.region_model.specs.UserSteps.{is_open_job, region_abandoned, region_published, region_reattached, user_abandoned, user_attached, user_publish_answer, user_published, user_respond_answer, user_responded};
ghost use Rattle.ring_laws.specs.UserKept.{HasPages, HasRing, IsWholeJob};
ghost use Rattle.user_lib.specs.Frames.{ChangesOnly};
ghost use Rattle.user_lib.specs.Given.{parked_job};
ghost use Rattle.user_lib.specs.OnDevice.{AttachesDevice, DispatchesDevice, PublishesDevice, ResetsDevice, RespondsDevice, RestartsDevice, StandsForNone};
ghost use Rattle.user_lib.specs.Stays.{OthersStayOpen, StayOpen, StaysAttached};
ghost use Rattle.user_lib.specs.Told.{Told};
ghost use Rattle.user_lib.specs.Users.{CanRespondNext, RefusesAttach, numbers_of};

use crate::books::UserBooks;
use crate::numbers::UserNumbers;
use crate::{Job, Next, UserFault};
use mailbox_bytes::MailboxFault;
use shm_region::Region;
use std::alloc::Global;
use std::marker::Model;
use tcmu_types::{Publish, Reply, Respond};
use thiserror::Error;

/// Why a user side was not attached to a region.
#[derive(Clone, Copy, Debug, PartialEq, Eq, Error)]
pub enum AttachFault {
    /// The mailbox breaks a rule.
    #[error("bad mailbox: {0}")]
    Mailbox(MailboxFault),
    /// Memory was wanting.
    #[error("no memory")]
    NoMemory,
}

/// The user side of one region, over whatever bytes the region has: it takes entries out of the ring as jobs and notes, and writes the
/// answers of jobs into the ring. A call that takes the region wants the one that it was attached to.
#[derive(Drop)]
pub struct User {
    books: UserBooks,
}

impl Model for User {
    ghost use Rattle.region_model.specs.Sides.{UserState};
    ghost use Rattle.user_lib.specs.Users.{IsUser};

    ghost Value = { UserState };

    ghost view = { λ a. a.books };

    ghost invariant = { λ a. IsUser a.books };
}

impl User {
    /// Attaches to a region, at the mailbox's tail. It takes no memory: just a mailbox that breaks a rule is refused.
    pub fn attach(alloc: Global, region: &Region) -> Result<User, AttachFault>
        ensures ok { IfOk result (λ u. user_attached region.now ≡ Ok u) }
        ensures err { IfErr result (λ fault. RefusesAttach region.now fault) }
        ensures ring { IfOk result (λ u. HasRing region.now u) }
        ensures pages { IfOk result (λ u. HasPages region.now u) }
        ensures fresh { IfOk result (λ u. u.dispatched ≡ 0) }
        ensures device { IfOk result (λ u. AttachesDevice region.now u) }
        ensures no_device { IfErr result (λ fault. StandsForNone region.now) }
    {
        match UserBooks::attach(alloc, region) {
            Ok(books) => {
                let user = User { books };
                Ok(user)
            }
            Err(fault) => Err(AttachFault::Mailbox(fault)),
        }
    }

    /// Takes the next entry, behind padding and entries of unknown opcodes, which are passed. At a fault the user side is as it was.
    pub fn next(&mut self, alloc: Global, region: &mut Region) -> Result<Next, UserFault>
        requires ring { HasRing region.old self.old }
        requires pages { HasPages region.old self.old }
        requires few { self.old.dispatched ≤ 2 ^ 63 }
        ensures told { Told region.old self.old result region.new self.new }
        ensures job { CanRespondNext self.new result }
        ensures open { StayOpen self.old self.new }
        ensures same { StaysAttached self.old self.new }
        ensures few { self.new.dispatched ≤ self.old.dispatched + 1 }
        ensures ring { HasRing region.new self.new }
        ensures pages { HasPages region.new self.new }
        ensures device { DispatchesDevice region.old self.old result region.new self.new }
    {
        // What this call ensures is used: the limits of every region.
        let _ = region.data_off();
        self.books.next(alloc, region)
    }

    /// Takes a job back with its reply. Out of order its answer is placed at once, in the first entry that has none, whosever it is; in
    /// order it is placed once those of all jobs that were given before are. It takes no memory.
    pub fn respond(&mut self, region: &mut Region, job: Job, reply: Reply) -> Respond
        requires ring { HasRing region.old self.old }
        requires pages { HasPages region.old self.old }
        requires is_open { list_any (is_open_job job.id) self.old.jobs ≡ true }
        requires whole { IsWholeJob self.old job }
        requires fits { length reply.payload ≤ job.in_len }
        ensures answer { result ≡ user_respond_answer self.old job.id }
        ensures region { region.new ≡ (user_responded region.old self.old (record { job = job; reply = reply })).region }
        ensures user { self.new ≡ (user_responded region.old self.old (record { job = job; reply = reply })).user }
        ensures open { OthersStayOpen job.id self.old self.new }
        ensures same { StaysAttached self.old self.new }
        ensures ring { HasRing region.new self.new }
        ensures pages { HasPages region.new self.new }
        ensures only { ChangesOnly region.old self.old (record { job = job; reply = reply }) region.new }
        ensures device { RespondsDevice region.old self.old job reply result region.new self.new }
    {
        // What this call ensures is used: the limits of every region.
        let _ = region.data_off();
        self.books.respond(region, job, reply)
    }

    /// Moves the tail over all items whose answers are placed; it is written only where one moves. It takes no memory.
    pub fn publish(&mut self, region: &mut Region) -> Publish
        requires ring { HasRing region.old self.old }
        requires pages { HasPages region.old self.old }
        ensures answer { result ≡ user_publish_answer self.old }
        ensures user { self.new ≡ user_published self.old }
        ensures region { region.new ≡ region_published region.old self.old }
        ensures jobs { self.new.jobs ≡ self.old.jobs }
        ensures same { StaysAttached self.old self.new }
        ensures ring { HasRing region.new self.new }
        ensures pages { HasPages region.new self.new }
        ensures device { PublishesDevice region.old self.old result region.new self.new }
    {
        self.books.publish(region)
    }

    /// Gives up every job, at a restart. The blocks of those that are parked go back; place and kept entries stay. It takes no memory.
    pub fn abandon(&mut self, region: &mut Region)
        requires ring { HasRing region.old self.old }
        requires pages { HasPages region.old self.old }
        ensures user { self.new ≡ user_abandoned self.old }
        ensures region { region.new ≡ region_abandoned region.old self.old.jobs }
        ensures ring { HasRing region.new self.new }
        ensures pages { HasPages region.new self.new }
        ensures device { RestartsDevice region.old self.old region.new self.new }
    {
        self.books.abandon(region);
    }

    /// Gives up every job and is as after `attach`, at a reset; or changes nothing. It takes no memory.
    pub fn reattach(&mut self, region: &mut Region) -> Result<(), MailboxFault>
        requires ring { HasRing region.old self.old }
        requires pages { HasPages region.old self.old }
        ensures region { region.new ≡ region_reattached region.old self.old }
        ensures ok { OnOk result (user_attached region.old ≡ Ok self.new) }
        ensures err { IfErr result (λ fault. user_attached region.old ≡ Err fault) }
        ensures unchanged { OnErr result (self.new ≡ self.old) }
        ensures ring { HasRing region.new self.new }
        ensures pages { HasPages region.new self.new }
        ensures device { ResetsDevice region.old self.old (is_ok result) region.new self.new }
    {
        self.books.reattach(region)
    }

    /// Ends the user side. The blocks of parked jobs go back. It takes no memory.
    pub fn detach(self, region: &mut Region)
        requires ring { HasRing region.old self }
        requires pages { HasPages region.old self }
        ensures region { region.new ≡ region_abandoned region.old self.jobs }
        ensures device { RestartsDevice region.old self region.new (user_abandoned self) }
    {
        let mut user = self;
        user.abandon(region);
    }

    /// The first parked job of an id.
    pub fn parked(&self, id: u16) -> Option<&Job>
        ensures { option_copied result ≡ parked_job id self.now.jobs }
    {
        self.books.jobs.parked(id)
    }

    /// The ring offset of the first item that is not published.
    pub fn tail(&self) -> u32
        ensures { result ≡ self.now.tail }
    {
        self.books.tail
    }

    /// What the user side counts.
    pub fn numbers(&self) -> UserNumbers
        ensures { result ≡ numbers_of self.now }
    {
        let books = &self.books;
        UserNumbers {
            place: books.place,
            dispatched: books.dispatched,
            placed: books.placed,
            published: books.published,
            parked: books.jobs.parked_len() as u64,
            moves: books.moves(),
        }
    }
}
