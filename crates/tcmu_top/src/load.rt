//! A load: its scenario is replayed, and the line that sums it up is written.
ghost use Rattle.std.specs.Prelude.{◌≡◌, ◌≤◌};
ghost use Rattle.tcmu_top.specs.Loads.{LoadEnds};

use crate::status::Status;
use edge::Sink;
use load_run::load_line;
use std::alloc::Global;

/// Replays the scenario of a load, `count` commands, at most 10,000, that follow from `seed`, and writes one line by one call: how many
/// commands were accepted, how many completions are GOOD, how many bytes those moved, and how many commands are open.
pub fn run_load<K: Sink>(alloc: Global, seed: u64, count: u32, out: &mut K) -> Status
    requires { count ≤ 10000 }
    ensures ends { LoadEnds seed count (K.written out.old) (K.written out.new) (K.faults out.old) (K.faults out.new) result }
    ensures wrote { K.faults out.old ≤ K.faults out.new }
{
    let Ok(line) = load_line(alloc, seed, count) else {
        return Status::NoMemory;
    };
    match out.write(&line) {
        Ok(()) => Status::Ok,
        Err(_) => Status::WriteFault,
    }
}
