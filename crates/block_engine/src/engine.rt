//! The engine: one handler for every medium.
ghost use Rattle.std.specs.Prelude.{◌≡◌, ◌≤◌, true, length, IfOk, OnErr};
ghost use Rattle.tcmu_types.specs.Numbered.{Rose};
ghost use Rattle.edge.specs.Outside.{CountsFailed};
ghost use Rattle.scsi_model.specs.Decoding.{IsDecoded, decoded};
ghost use Rattle.scsi_model.specs.Runs.{IsSynced};
ghost use Rattle.scsi_model.specs.Scsi.{Serves, ServesOp, is_medium_error};
ghost use Rattle.block_engine.specs.Serving.{Served, IfSynced};

use crate::blocks::{read, sync, write, write_same};
use crate::compare::compare_write;
use crate::replies::refused;
use crate::senses::fault_sense;
use crate::show::show;
use crate::unmap::unmap;
use cdb_decode::{Op, decode};
use handler_trait::{Handler, Medium, Request};
use std::alloc::Global;
use std::marker::Model;
use tcmu_types::{Name, NoMemory, Reply};

/// Serves the commands of the device of this name from a medium. Contracts see both.
#[derive(Debug, Drop)]
pub struct Engine<M: Medium + Drop> {
    name: Name,
    medium: M,
}

impl<M: Medium + Drop> Model for Engine<M> {
    ghost use Rattle.block_engine.specs.EngineData.{EngineData};

    ghost Value = { EngineData M };

    ghost view = { λ e. record { name = e.name; medium = e.medium } };
}

impl<M: Medium + Drop> Engine<M> {
    /// An engine for the device of this name, over a medium as it stands.
    pub fn new(name: Name, medium: M) -> Engine<M>
        ensures name { result.name ≡ name }
        ensures medium { result.medium ≡ medium }
    {
        Engine { name, medium }
    }

    /// The medium, as the commands left it.
    pub fn into_medium(self) -> M
        ensures { result ≡ self.medium }
    {
        let Engine { name: _, medium } = self;
        medium
    }
}

/// Serves an operation that a command descriptor block asks for.
#[tactic(auto, using(crate::proofs::Choosing::served_within))]
fn serve<M: Medium>(
    alloc: Global,
    name: &Name,
    medium: &mut M,
    op: Op,
    sent: &[u8],
    in_len: u32,
) -> Result<Reply, NoMemory>
    requires { IsDecoded op }
    ensures { Served (ServesOp name.now (M.state medium.old) sent.now in_len op) in_len (M.state medium.old) (M.state medium.new) (M.faults medium.old) (M.faults medium.new) result }
{
    match op {
        Op::Read { lba, count } => read(alloc, medium, lba, count, in_len),
        Op::Write { lba, count } => write(alloc, medium, lba, count, sent),
        Op::Sync { lba, count } => sync(alloc, medium, lba, count),
        Op::WriteSame { lba, count } => write_same(alloc, medium, lba, count, sent),
        Op::Unmap { length } => unmap(alloc, medium, length, sent),
        Op::CompareWrite { lba, count } => compare_write(alloc, medium, lba, count, sent),
        Op::TestUnitReady
        | Op::RequestSense { .. }
        | Op::Inquiry { .. }
        | Op::ModeSense { .. }
        | Op::Capacity10
        | Op::Capacity16 { .. }
        | Op::ReportLuns { .. } => show(alloc, name, medium, op, in_len),
    }
}

impl<M: Medium + Drop> Handler for Engine<M> {
    ghost name = { λ e. e.name };

    ghost medium = { λ e. M.state e.medium };

    ghost faults = { λ e. M.faults e.medium };

    ghost relation = { Serves };

    fn handle(&mut self, alloc: Global, request: &Request) -> Result<Reply, NoMemory>
        ensures same_name { self.new.name ≡ self.old.name }
        ensures faults { M.faults self.old.medium ≤ M.faults self.new.medium }
        ensures allowed { IfOk result (λ reply. Serves self.old.name (M.state self.old.medium) request.now reply (M.state self.new.medium)) }
        ensures fits { IfOk result (λ reply. length reply.payload ≤ request.now.in_len) }
        ensures same_medium { OnErr result (M.state self.new.medium ≡ M.state self.old.medium) }
        ensures same_faults { OnErr result (M.faults self.new.medium ≡ M.faults self.old.medium) }
        // Sense data say that a call of the medium failed exactly where the medium counts one more.
        ensures caused { IfOk result (λ reply. is_medium_error reply.sense ≡ true → Rose (M.faults self.old.medium) (M.faults self.new.medium)) }
        ensures exact { IfOk result (λ reply. CountsFailed (M.faults self.old.medium) (is_medium_error reply.sense) (M.faults self.new.medium)) }
        // A SYNCHRONIZE CACHE that is GOOD asked the store below the medium for one sync more, where syncs go to a store, as over a file.
        ensures synced { IfSynced (decoded request.now.cdb) result (IsSynced (M.state self.old.medium) (M.state self.new.medium)) }
    {
        match decode(&request.cdb) {
            Ok(op) => serve(
                alloc,
                &self.name,
                &mut self.medium,
                op,
                request.sent.as_slice(),
                request.in_len,
            ),
            Err(fault) => Ok(refused(alloc, fault_sense(fault))),
        }
    }
}
