//! The next entry, over any bytes that the target left.
ghost use Rattle.std.specs.Prelude.{◌≡◌, ◌≤◌, ◌+◌, ◌*◌, [], ◌∷◌, ◌++◌, ◌%◌, ◌^◌, ◌==◌, true, length, if◌then◌else◌, OnOk, OnErr, IfOk};
ghost use Rattle.std.specs.List.{filter, list_any};
ghost use Rattle.region_model.specs.Layout.{ring_start};
ghost use Rattle.region_model.specs.MailboxReading.{IsMailbox};
ghost use Rattle.region_model.specs.UserSteps.{is_open_job, lie_in_area, user_mailbox};
ghost use Rattle.region_model.specs.UserNext.{carried_by, iovs_in, region_lent, tmr_ids_in, with_job, with_unknown};
ghost use Rattle.ring_laws.specs.UserKept.{HasRing};
ghost use Rattle.user_lib.specs.Carrying.{carried_of};
ghost use Rattle.user_lib.specs.Told.{Told, GivesJob, GivesNote, StepTold};

use crate::books::{UserBooks, place_behind};
use crate::carrying::{answer_length, carry, read_iovs};
use crate::jobs::Jobs;
use crate::passed::PassedItem;
use crate::{Job, JobData};
use entry_codec::{EntryFault, EntryRef, read_entry, read_tmr_id};
use mailbox_bytes::{MAILBOX_LEN, Mailbox, MailboxFault, read};
use shm_region::Region;
use std::alloc::Global;
use tcmu_types::{Cdb, Ids, Iovs, ItemKind, NoMemory, PAGE};
use thiserror::Error;

/// What stands next in the ring.
#[derive(Drop)]
pub enum Next {
    /// A command.
    Job(Job),
    /// A task management function of this type (`TCMU_TMR_*`), with those of its ids whose jobs are neither responded nor given up.
    Note { kind: u8, ids: Ids },
    /// The place is the head.
    Nothing,
}

/// Why no entry was taken; the user side is as it was.
#[derive(Clone, Copy, Debug, PartialEq, Eq, Error)]
pub enum UserFault {
    /// The mailbox breaks a rule.
    #[error("bad mailbox: {0}")]
    BadMailbox(MailboxFault),
    /// The entry at a ring offset breaks a rule.
    #[error("bad entry at {at}: {fault}")]
    BadEntry { at: u32, fault: EntryFault },
    /// Memory was wanting.
    #[error("no memory")]
    NoMemory,
}

/// What became of one entry.
#[derive(Drop)]
enum Step {
    Passed,
    Came(Next),
    Stopped(UserFault),
}

/// The mailbox of a region, whose ring has the region's size.
#[tactic(auto, unfolding(region_model::specs::UserSteps::user_mailbox))]
pub(crate) fn mailbox_of(region: &Region) -> Result<Mailbox, MailboxFault>
    ensures value { result ≡ user_mailbox region.now }
    ensures sound { IfOk result (λ m. IsMailbox m) }
    ensures size { IfOk result (λ m. m.cmdr_size + 4096 ≡ length region.now.front) }
{
    let mailbox = read(region.front())?;
    if mailbox.cmdr_size as u64 != region.data_off() - PAGE as u64 {
        return Err(MailboxFault::Size(mailbox.cmdr_size));
    }
    Ok(mailbox)
}

/// A byte with its lowest bit set.
fn with_lowest_bit(byte: u8) -> u8
    ensures { result ≡ (if byte % 2 == 0 then byte + 1 else byte) }
{
    if byte % 2 == 0 { byte + 1 } else { byte }
}

/// Sets the lowest bit of byte 7 of the entry at a ring offset: its opcode is unknown.
fn set_unknown(region: &mut Region, at: u32)
    requires { ring_start + at + 8 ≤ length region.old.front }
    ensures value { region.new ≡ with_unknown region.old at }
    ensures front { length region.new.front ≡ length region.old.front }
    ensures pages { region.new.pages ≡ region.old.pages }
{
    let place = MAILBOX_LEN + at as usize + 7;
    let flags = with_lowest_bit(region.front()[place]);
    region.write_front(place as u64, &[flags]);
}

/// Appends an id, in the room that is there, where a job of it is neither responded nor given up.
fn keep_open(ids: &mut Ids, id: u16, jobs: &Jobs)
    requires { 1 ≤ ids.old.spare }
    ensures items { ids.new.items ≡ (if list_any (is_open_job id) jobs.now.jobs then ids.old.items ++ id ∷ [] else ids.old.items) }
    ensures room { ids.old.spare ≤ ids.new.spare + 1 }
{
    if jobs.is_open(id) {
        ids.push(id);
    }
}

/// Those ids of a task management entry whose jobs are neither responded nor given up.
fn open_ids(alloc: Global, front: &[u8], at: u32, count: u32, jobs: &Jobs) -> Result<Ids, NoMemory>
    requires { ring_start + at + 32 + 2 * count ≤ length front.now }
    ensures { IfOk result (λ ids. ids.items ≡ filter (λ id. list_any (is_open_job id) jobs.now.jobs) (tmr_ids_in front.now (ring_start + at) 0 count)) }
{
    let mut ids = Ids::new(alloc);
    ids.reserve(count as u64)?;
    for index in 0..count {
        keep_open(&mut ids, read_tmr_id(front, at, index), jobs);
    }
    Ok(ids)
}

impl UserBooks {
    /// A command's entry is passed, and its job is given what it carries.
    fn pass_job(
        &mut self,
        alloc: Global,
        region: &mut Region,
        len: u32,
        id: u16,
        iovs: &Iovs,
        cdb: &Cdb,
    ) -> Result<JobData, NoMemory>
        requires inside { lie_in_area region.old iovs.now.items ≡ true }
        requires answer { self.old.place + 112 ≤ self.old.ring }
        requires words { len % 8 ≡ 0 }
        requires few { self.old.dispatched ≤ 2 ^ 63 }
        ensures data { IfOk result (λ d. carried_of d ≡ carried_by region.old iovs.now.items cdb.now) }
        ensures lent { OnOk result (region.new ≡ region_lent region.old iovs.now.items) }
        ensures passed { OnOk result (self.new ≡ with_job self.old len id) }
        ensures user { OnErr result (self.new ≡ self.old) }
        ensures region { OnErr result (region.new ≡ region.old) }
    {
        self.jobs.reserve(alloc, id)?;
        self.offsets.reserve(1)?;
        self.items.reserve(1)?;
        let carried = carry(alloc, region, iovs, cdb)?;
        self.jobs.push(id);
        self.offsets.push_back_reserved(self.place);
        self.items.push_back_reserved(PassedItem {
            kind: ItemKind::Cmd,
            len,
        });
        self.place = place_behind(self.place, len, self.ring);
        self.dispatched += 1;
        Ok(carried)
    }

    /// Gives the job of a command's entry.
    fn give(
        &mut self,
        alloc: Global,
        region: &mut Region,
        len: u32,
        id: u16,
        count: u32,
        cdb: Cdb,
    ) -> Result<Job, NoMemory>
        requires slots { ring_start + self.old.place + 48 + 16 * count ≤ length region.old.front }
        requires inside { lie_in_area region.old (iovs_in region.old.front (ring_start + self.old.place) 0 count) ≡ true }
        requires answer { self.old.place + 112 ≤ self.old.ring }
        requires words { len % 8 ≡ 0 }
        requires few { self.old.dispatched ≤ 2 ^ 63 }
        ensures ok { IfOk result (λ job. GivesJob region.old self.old len id count cdb job region.new self.new) }
        ensures user { OnErr result (self.new ≡ self.old) }
        ensures region { OnErr result (region.new ≡ region.old) }
    {
        let iovs = read_iovs(alloc, region.front(), self.place, count)?;
        let carried = self.pass_job(alloc, region, len, id, &iovs, &cdb)?;
        let in_len = answer_length(&iovs, &cdb);
        Ok(Job {
            id,
            cdb,
            iovs,
            carried,
            in_len,
        })
    }

    /// Gives the note of a task management entry.
    fn note(
        &mut self,
        alloc: Global,
        region: &Region,
        len: u32,
        kind: u8,
        count: u32,
    ) -> Result<Next, NoMemory>
        requires slots { ring_start + self.old.place + 32 + 2 * count ≤ length region.now.front }
        requires words { len % 8 ≡ 0 }
        ensures ok { IfOk result (λ next. GivesNote region.now self.old len kind count next self.new) }
        ensures user { OnErr result (self.new ≡ self.old) }
    {
        let ids = open_ids(alloc, region.front(), self.place, count, &self.jobs)?;
        self.pass(ItemKind::Tmr, len)?;
        Ok(Next::Note { kind, ids })
    }

    /// Takes one entry, or passes it.
    fn step(&mut self, alloc: Global, region: &mut Region, mailbox: &Mailbox) -> Step
        requires ring { HasRing region.old self.old }
        requires mailbox { IsMailbox mailbox.now }
        requires size { mailbox.now.cmdr_size ≡ self.old.ring }
        requires few { self.old.dispatched ≤ 2 ^ 63 }
        ensures told { StepTold mailbox.now region.old self.old result region.new self.new }
        ensures front { length region.new.front ≡ length region.old.front }
        ensures pages { region.new.pages ≡ region.old.pages }
        ensures size { self.new.ring ≡ self.old.ring }
        ensures few { self.new.dispatched ≤ self.old.dispatched + 1 }
    {
        let at = self.place;
        if at == mailbox.head {
            return Step::Came(Next::Nothing);
        }
        match read_entry(region.front(), region.area_len(), mailbox, at) {
            Err(fault) => Step::Stopped(UserFault::BadEntry { at, fault }),
            Ok(EntryRef::Pad { len }) => match self.pass(ItemKind::Pad, len) {
                Ok(()) => Step::Passed,
                Err(_) => Step::Stopped(UserFault::NoMemory),
            },
            Ok(EntryRef::Unknown { op: _, len }) => match self.pass(ItemKind::Pad, len) {
                Ok(()) => {
                    set_unknown(region, at);
                    Step::Passed
                }
                Err(_) => Step::Stopped(UserFault::NoMemory),
            },
            Ok(
                EntryRef::Cmd {
                    len,
                    id,
                    iov_cnt,
                    cdb,
                },
            ) => match self.give(alloc, region, len, id, iov_cnt, cdb) {
                Ok(job) => Step::Came(Next::Job(job)),
                Err(_) => Step::Stopped(UserFault::NoMemory),
            },
            Ok(EntryRef::Tmr { len, kind, count }) => {
                match self.note(alloc, region, len, kind, count) {
                    Ok(next) => Step::Came(next),
                    Err(_) => Step::Stopped(UserFault::NoMemory),
                }
            }
        }
    }

    /// Takes the next entry, behind padding and entries of unknown opcodes, which are passed.
    pub(crate) fn next(&mut self, alloc: Global, region: &mut Region) -> Result<Next, UserFault>
        requires ring { HasRing region.old self.old }
        requires few { self.old.dispatched ≤ 2 ^ 63 }
        ensures told { Told region.old self.old result region.new self.new }
        ensures front { length region.new.front ≡ length region.old.front }
        ensures pages { region.new.pages ≡ region.old.pages }
        ensures size { self.new.ring ≡ self.old.ring }
        ensures few { self.new.dispatched ≤ self.old.dispatched + 1 }
    {
        let mailbox = match mailbox_of(region) {
            Ok(mailbox) => mailbox,
            Err(fault) => return Err(UserFault::BadMailbox(fault)),
        };
        let place = self.place;
        let count = self.items.len();
        for _ in 0..self.ring / 8 + 1 {
            match self.step(alloc, region, &mailbox) {
                Step::Passed => {}
                Step::Came(next) => return Ok(next),
                Step::Stopped(fault) => {
                    self.go_back(place, count);
                    return Err(fault);
                }
            }
        }
        Ok(Next::Nothing)
    }
}
