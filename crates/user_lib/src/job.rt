//! Jobs.
use iovec_scatter::Parts;
use std::marker::Model;
use tcmu_types::{Bytes, Cdb, Iovs};

/// The data of a job: the blocks of its iovecs, which are lent, or a copy of their bytes.
#[derive(Drop)]
pub enum JobData {
    Moved(Parts),
    Copied(Bytes),
}

/// A command that was taken out of the ring. What it names of its entry is copied out, so no later change of the entry changes it.
#[derive(Drop)]
pub struct Job {
    pub id: u16,
    pub cdb: Cdb,
    pub iovs: Iovs,
    pub carried: JobData,
    /// How many bytes it may answer.
    pub in_len: u32,
}

impl Model for Job {
    ghost use Rattle.region_model.specs.Sides.{JobState};
    ghost use Rattle.user_lib.specs.Carrying.{carried_of};

    ghost Value = { JobState };

    ghost view = { λ a. record { id = a.id; cdb = a.cdb; iovs = a.iovs.items; carried = carried_of a.carried; in_len = a.in_len } };
}
