//! A region with its user side, and the jobs that are out.
ghost use Rattle.std.specs.Prelude.{◌≡◌, ◌≢◌, ◌≤◌, ◌<◌, ◌+◌, ◌^◌, [], ◌∷◌, true, length, IfSome, OnSome, if◌then◌else◌};
ghost use Rattle.std.specs.List.{list_any};
ghost use Rattle.region_model.specs.UserSteps.{is_open_job};
ghost use Rattle.ring_laws.specs.UserKept.{HasPages, HasRing, IsWholeJob};
ghost use Rattle.user_lib.specs.Stays.{OthersStayOpen, StayOpen, StaysAttached};

use entry_codec::write_request;
use mailbox_bytes::MAILBOX_LEN;
use shm_region::Region;
use std::alloc::Global;
use std::collections::VecDeque;
use std::marker::Model;
use tcmu_types::{Bytes, Cdb, Flags, Iov, Iovs, NoMemory, Reply, ScsiStatus, Settings};
use user_lib::{Job, Next, User};

/// Bytes of a command's entry with one iovec and a command block of at most 16 bytes.
const ENTRY_LEN: u32 = 128;

/// A WRITE(10) of eight logical blocks, which are a data block.
const WRITE: [u8; 10] = [0x2a, 0, 0, 0, 0, 0, 0, 0, 8, 0];

/// GOOD, and no bytes.
fn good(alloc: Global) -> Reply
    ensures { length result.payload ≡ 0 }
{
    Reply {
        status: ScsiStatus::GOOD,
        sense: None,
        payload: Bytes::new(alloc),
    }
}

/// The next job, where one comes.
fn next_job(alloc: Global, region: &mut Region, user: &mut User) -> Option<Job>
    requires ring { HasRing region.old user.old }
    requires pages { HasPages region.old user.old }
    ensures is_open { IfSome result (λ job. list_any (is_open_job job.id) user.new.jobs ≡ true) }
    ensures whole { IfSome result (λ job. IsWholeJob user.new job) }
    ensures open { StayOpen user.old user.new }
    ensures same { StaysAttached user.old user.new }
    ensures ring { HasRing region.new user.new }
    ensures pages { HasPages region.new user.new }
{
    if user.numbers().dispatched > u32::MAX as u64 {
        return None;
    }
    match user.next(alloc, region) {
        Ok(Next::Job(job)) => Some(job),
        _ => None,
    }
}

/// The region of a new device.
fn region(alloc: Global, any_order: bool) -> Result<Region, NoMemory> {
    let settings = Settings {
        ring: 4194304,
        blocks: 4096,
        flags: Flags {
            ooo: any_order,
            read_len: true,
            tmr: true,
        },
        timeout: 0,
        qfull: 0,
        pages: 1,
    };
    Region::new(alloc, settings)
}

/// Lays the command of a number, whose data is the block of that number, where the ring has room for it.
fn lay(alloc: Global, region: &mut Region, number: u16, cdb: &Cdb) -> Result<(), NoMemory>
    requires { number + 1 < 2 ^ 16 }
{
    let mut iovs = Iovs::new(alloc);
    iovs.reserve(1)?;
    iovs.push(Iov {
        base: region.data_off() + number as u64 * 4096,
        len: 4096,
    });
    let at = number as u32 * ENTRY_LEN;
    let end = MAILBOX_LEN + (at + ENTRY_LEN) as usize;
    if end <= region.front().len() && cdb.as_bytes().len() <= 16 {
        write_request(region.front_mut(), at, number + 1, 1, &iovs, cdb);
    }
    Ok(())
}

/// A region with so many blocks and commands.
fn laid(alloc: Global, count: u16, any_order: bool) -> Option<Region> {
    let cdb = Cdb::new(&WRITE).ok()?;
    let mut region = region(alloc, any_order).ok()?;
    region.grow(alloc, count as u32).ok()?;
    for number in 0..count {
        lay(alloc, &mut region, number, &cdb).ok()?;
    }
    region.set_head(count as u32 * ENTRY_LEN);
    Some(region)
}

/// A region with its user side and the jobs that are out, the oldest first; their ids rise up to the youngest one's. Contracts see how many
/// they are.
#[derive(Drop)]
pub(crate) struct Bench {
    region: Region,
    user: User,
    jobs: VecDeque<Job>,
    youngest: u16,
}

impl Model for Bench {
    ghost use Rattle.std.specs.Prelude.{ℕ, length};
    ghost use Rattle.user_bench.specs.Out.{IsBench};

    ghost Value = { ℕ };

    ghost view = { λ b. length b.jobs.items };

    ghost invariant = { λ b. IsBench b.region b.user b.jobs.items b.youngest };
}

impl Bench {
    /// With so many commands in the ring, and no job.
    pub(crate) fn new(alloc: Global, count: u16, any_order: bool) -> Option<Bench>
        ensures { IfSome result (λ b. b ≡ 0) }
    {
        let region = laid(alloc, count, any_order)?;
        let user = User::attach(alloc, &region).ok()?;
        Some(Bench {
            region,
            user,
            jobs: VecDeque::new(alloc),
            youngest: 0,
        })
    }

    /// Takes the next job out; whether one came.
    pub(crate) fn take(&mut self, alloc: Global) -> bool
        ensures { self.new ≡ (if result then self.old + 1 else self.old) }
    {
        if self.jobs.reserve(1).is_err() {
            return false;
        }
        let Some(job) = next_job(alloc, &mut self.region, &mut self.user) else {
            return false;
        };
        if job.id <= self.youngest {
            return false;
        }
        self.youngest = job.id;
        self.jobs.push_back_reserved(job);
        true
    }

    /// Answers the job that was given first; whether there was one.
    pub(crate) fn answer_oldest(&mut self, alloc: Global) -> bool
        ensures { self.old ≡ (if result then self.new + 1 else self.new) }
    {
        let Some(job) = self.jobs.pop_front() else {
            return false;
        };
        let _ = self.user.respond(&mut self.region, job, good(alloc));
        true
    }

    /// Answers the job that was given last; whether there was one.
    pub(crate) fn answer_youngest(&mut self, alloc: Global) -> bool
        ensures { self.old ≡ (if result then self.new + 1 else self.new) }
    {
        let Some(job) = self.jobs.pop_back() else {
            return false;
        };
        let _ = self.user.respond(&mut self.region, job, good(alloc));
        true
    }
}
