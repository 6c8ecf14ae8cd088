//! Answers: each is placed in the first entry that has none, and is parked before where the order of the jobs wants it.
ghost use Rattle.std.specs.Prelude.{◌≡◌, ◌≤◌, ◌<◌, ◌+◌, ◌^◌, true, false, length, MatchOption};
ghost use Rattle.std.specs.List.{list_any};
ghost use Rattle.tcmu_types.specs.Lists.{first_of};
ghost use Rattle.region_model.specs.Layout.{ring_start, with_response};
ghost use Rattle.region_model.specs.EntryReading.{lies_inside};
ghost use Rattle.region_model.specs.Picture.{told_length};
ghost use Rattle.region_model.specs.UserSteps.{is_open_job, is_unanswered, lie_in_area, placed_front, placed_one, placed_or_parked, placing_by, user_respond_answer, user_responded, with_payload};
ghost use Rattle.ring_laws.specs.UserKept.{AreWholeJobs, HasPages, HasRing, IsWholeJob, UserCounts};
ghost use Rattle.user_lib.specs.Carrying.{carried_of};
ghost use Rattle.user_lib.specs.Given.{LeadsOpen, first_parked};
ghost use Rattle.user_lib.specs.Answering.{CanAnswer, GoesBack, TakesParked, answer_by, answered_with};

use crate::books::UserBooks;
use crate::jobs::ParkedJob;
use crate::{Job, JobData};
use entry_codec::write_response;
use iovec_scatter::scatter;
use shm_region::Region;
use tcmu_types::{Cdb, Iov, Iovs, Reply, Respond, ScsiStatus, takes_payload};

/// Whether an iovec lies inside the `area` bytes from `low` on.
fn lies_inside(iov: Iov, low: u64, area: u64) -> bool
    ensures { result ≡ lies_inside low (low + area) iov }
{
    if iov.base < low {
        return false;
    }
    let skipped = iov.base - low;
    skipped <= area && iov.len <= area - skipped
}

/// Whether all iovecs lie in the data area, as it is now.
fn lie_in_area(region: &Region, iovs: &Iovs) -> bool
    ensures { result ≡ lie_in_area region.now iovs.now.items }
{
    let low = region.data_off();
    let area = region.area_len();
    for iov in iovs.as_slice() {
        if !lies_inside(*iov, low, area) {
            return false;
        }
    }
    true
}

/// Puts a job's blocks back with a payload, or, where it has a copy, writes the payload where its iovecs all are in the area.
fn put_payload(region: &mut Region, iovs: &Iovs, carried: JobData, payload: &[u8])
    requires { GoesBack region.old iovs.now.items (carried_of carried) }
    ensures value { region.new ≡ with_payload region.old iovs.now.items (carried_of carried) payload.now }
    ensures front { region.new.front ≡ region.old.front }
    ensures pages { region.new.pages ≡ region.old.pages }
{
    match carried {
        JobData::Moved(parts) => {
            let mut parts = parts;
            let _ = scatter(&mut parts, payload);
            region.back(iovs, parts);
        }
        JobData::Copied(_) => {
            if lie_in_area(region, iovs) {
                let _ = region.copy_in(iovs, payload);
            }
        }
    }
}

/// The length that an answer tells: with the flag, at GOOD, of a command that takes no bytes along.
fn told_length(read_len: bool, cdb: &Cdb, reply: &Reply) -> Option<u32>
    requires { length reply.now.payload < 2 ^ 32 }
    ensures { result ≡ told_length read_len cdb.now reply.now }
{
    if read_len && reply.status == ScsiStatus::GOOD && !takes_payload(cdb) {
        Some(reply.payload.len() as u32)
    } else {
        None
    }
}

/// Writes a response over the entry at a ring offset.
fn write_answer(region: &mut Region, at: u32, id: u16, reply: &Reply, read_len: Option<u32>)
    requires { ring_start + at + 112 ≤ length region.old.front }
    ensures value { region.new ≡ record region.old { front = with_response region.old.front at id reply.now read_len } }
    ensures front { length region.new.front ≡ length region.old.front }
{
    write_response(region.front_mut(), at, id, reply, read_len);
}

/// What a respond in order answers, by the first job without a reply.
fn answer_for(first: Option<u16>, id: u16) -> Respond
    ensures { result ≡ answer_by first id }
{
    match first {
        Some(first) => {
            if first == id {
                Respond::Placed
            } else {
                Respond::Parked
            }
        }
        None => Respond::Parked,
    }
}

/// Writes the answer of a job into the entry at a ring offset; its blocks go back.
fn answer(region: &mut Region, at: u32, read_len: bool, parked: ParkedJob)
    requires inside { ring_start + at + 112 ≤ length region.old.front }
    requires back { GoesBack region.old parked.job.iovs parked.job.carried }
    ensures value { region.new ≡ answered_with region.old read_len at parked }
    ensures front { length region.new.front ≡ length region.old.front }
    ensures pages { region.new.pages ≡ region.old.pages }
{
    let ParkedJob { job, reply } = parked;
    let Job {
        id,
        cdb,
        iovs,
        carried,
        in_len: _,
    } = job;
    put_payload(region, &iovs, carried, reply.payload.as_slice());
    let read_len = told_length(read_len, &cdb, &reply);
    write_answer(region, at, id, &reply, read_len);
}

impl UserBooks {
    /// Places an answer in the first entry that has none.
    fn place(&mut self, region: &mut Region, parked: ParkedJob)
        requires ring { HasRing region.old self.old }
        requires pages { HasPages region.old self.old }
        requires whole { IsWholeJob self.old parked.job }
        requires can { CanAnswer self.old }
        ensures value { placed_one (record { region = region.old; user = self.old }) parked self.old.jobs ≡ record { region = region.new; user = self.new } }
        ensures front { length region.new.front ≡ length region.old.front }
        ensures pages { region.new.pages ≡ region.old.pages }
    {
        match self.offsets.pop_front() {
            Some(at) => {
                self.placed += 1;
                answer(region, at, self.flags.read_len, parked);
            }
            None => unreachable!(),
        }
    }

    /// Takes the first job out where it has its reply.
    fn take_parked(&mut self) -> Option<ParkedJob>
        ensures { MatchOption result ((first_parked self.old.jobs ≡ false) × (self.new ≡ self.old)) (λ p. TakesParked self.old p self.new) }
    {
        if !self.jobs.is_first_parked() {
            return None;
        }
        let taken = self.jobs.pop()?;
        taken.parked
    }

    /// Places the answers of the longest front of jobs that have their replies.
    fn place_front(&mut self, region: &mut Region)
        requires ring { HasRing region.old self.old }
        requires pages { HasPages region.old self.old }
        requires whole { AreWholeJobs self.old }
        requires counts { UserCounts self.old }
        ensures { placed_front (record { region = region.old; user = self.old }) self.old.jobs ≡ record { region = region.new; user = self.new } }
    {
        while let Some(parked) = self.take_parked() {
            self.place(region, parked);
        }
    }

    /// Keeps a reply, and then places the answers of the longest front of jobs that have theirs.
    fn respond_in_order(&mut self, region: &mut Region, id: u16, parked: ParkedJob) -> Respond
        requires flag { self.old.flags.ooo ≡ false }
        requires first { first_parked self.old.jobs ≡ false }
        requires ring { HasRing region.old self.old }
        requires pages { HasPages region.old self.old }
        requires jobs { AreWholeJobs self.old }
        requires counts { UserCounts self.old }
        requires id { id ≡ parked.job.id }
        requires is_open { list_any (is_open_job id) self.old.jobs ≡ true }
        requires whole { IsWholeJob self.old parked.job }
        ensures answer { result ≡ placed_or_parked id (first_of is_unanswered self.old.jobs) }
        ensures value { placing_by false region.old self.old parked ≡ record { region = region.new; user = self.new } }
    {
        let first = self.jobs.first_open();
        self.jobs.park(id, parked);
        self.place_front(region);
        answer_for(first, id)
    }

    /// Places an answer at once.
    fn respond_at_once(&mut self, region: &mut Region, id: u16, parked: ParkedJob)
        requires flag { self.old.flags.ooo ≡ true }
        requires ring { HasRing region.old self.old }
        requires pages { HasPages region.old self.old }
        requires counts { UserCounts self.old }
        requires id { id ≡ parked.job.id }
        requires is_open { list_any (is_open_job id) self.old.jobs ≡ true }
        requires whole { IsWholeJob self.old parked.job }
        ensures { placing_by true region.old self.old parked ≡ record { region = region.new; user = self.new } }
    {
        self.jobs.remove(id);
        self.place(region, parked);
    }

    /// Takes a job back with its reply: its answer is placed at once, or, in order, once those of all jobs before are.
    #[tactic(auto, unfolding(region_model::specs::UserSteps::user_responded, region_model::specs::UserSteps::user_respond_answer))]
    pub(crate) fn respond(&mut self, region: &mut Region, job: Job, reply: Reply) -> Respond
        requires ring { HasRing region.old self.old }
        requires pages { HasPages region.old self.old }
        requires jobs { AreWholeJobs self.old }
        requires counts { UserCounts self.old }
        requires first { LeadsOpen self.old }
        requires is_open { list_any (is_open_job job.id) self.old.jobs ≡ true }
        requires whole { IsWholeJob self.old job }
        requires fits { length reply.payload ≤ job.in_len }
        ensures answer { result ≡ user_respond_answer self.old job.id }
        ensures value { user_responded region.old self.old (record { job = job; reply = reply }) ≡ record { region = region.new; user = self.new } }
    {
        let id = job.id;
        let parked = ParkedJob { job, reply };
        if self.flags.ooo {
            self.respond_at_once(region, id, parked);
            Respond::Placed
        } else {
            self.respond_in_order(region, id, parked)
        }
    }
}
