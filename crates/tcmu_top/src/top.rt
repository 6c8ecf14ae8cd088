//! The top call: words, reading, replaying, and the status.
ghost use Rattle.std.specs.Prelude.{◌≡◌, ℕ, ◌≤◌, [], Option};
ghost use Rattle.tcmu_types.specs.Data.{texts_of};
ghost use Rattle.tcmu_types.specs.Numbered.{Rose};
ghost use Rattle.edge.specs.Stores.{FilesState};
ghost use Rattle.text_model.specs.ScenarioRules.{IsScenario, IsServed};
ghost use Rattle.text_laws.specs.Replays.{OpenAs};
ghost use Rattle.tcmu_top.specs.Opened.{AreOpen};
ghost use Rattle.tcmu_top.specs.Playing.{states_of};
ghost use Rattle.tcmu_top.specs.Calls.{outside, files_and_sink};
ghost use Rattle.tcmu_top.specs.Words.{task_of};
ghost use Rattle.tcmu_top.specs.Top.{replay, ScenarioEnds, BytesEnd, Ends, TaskEnds, fault_text, Reported};

use crate::faults::report;
use crate::load::run_load;
use crate::opening::{ServedDevice, keep_files, open_devices};
use crate::reading::{Unread, read_all};
use crate::several::replay_devices;
use crate::status::Status;
use crate::words::{Task, task_of};
use crate::writing::Stop;
use device_set::DeviceSet;
use edge::{Files, Sink, Source};
use media::MakeFault;
use scenario_text::{Scenario, ScenarioFault, read_scenario};
use std::alloc::Global;
use tcmu_types::Words;
use text_model::Why;

/// Replays a scenario's lines on its devices and writes the text. However that ends, the devices' files are given back.
fn replay_opened<K: Sink, F: Files>(
    alloc: Global,
    scenario: &Scenario,
    mut set: DeviceSet<ServedDevice<F::File>>,
    out: &mut K,
    files: &mut F,
) -> Status
    requires limits { IsScenario scenario.now }
    requires served { IsServed scenario.now }
    requires opened { OpenAs scenario.now.devices (states_of (λ d. d) set) }
    ensures ends { (entry : Option FilesState) (before after : ℕ) → after ≡ before → AreOpen entry (F.state files.old) scenario.now.devices (states_of (λ d. d) set)
        → ScenarioEnds replay scenario.now
        (files_and_sink entry before (K.written out.old) (K.faults out.old))
        (files_and_sink (F.state files.new) after (K.written out.new) (K.faults out.new))
        result }
    ensures same { F.faults files.new ≡ F.faults files.old }
    ensures wrote { K.faults out.old ≤ K.faults out.new }
{
    let ended = replay_devices(alloc, scenario, &mut set, out);
    keep_files(scenario.devices.as_slice(), set, files);
    match ended {
        Ok(()) => Status::Ok,
        Err(Stop::WriteFault) => Status::WriteFault,
        Err(Stop::NoMemory) => Status::NoMemory,
    }
}

/// Opens the devices of a scenario, replays its lines on them, writes the text, and gives their files back.
fn replay_scenario<K: Sink, F: Files>(
    alloc: Global,
    scenario: &Scenario,
    out: &mut K,
    files: &mut F,
) -> Status
    requires limits { IsScenario scenario.now }
    requires served { IsServed scenario.now }
    ensures ends { ScenarioEnds replay scenario.now
        (files_and_sink (F.state files.old) (F.faults files.old) (K.written out.old) (K.faults out.old))
        (files_and_sink (F.state files.new) (F.faults files.new) (K.written out.new) (K.faults out.new))
        result }
    ensures opened { F.faults files.old ≤ F.faults files.new }
    ensures wrote { K.faults out.old ≤ K.faults out.new }
{
    let devices = scenario.devices.as_slice();
    match open_devices(alloc, devices, files) {
        Ok(set) => replay_opened(alloc, scenario, set, out, files),
        Err(MakeFault::Open) => Status::OpenFault,
        Err(MakeFault::NoMemory) => Status::NoMemory,
    }
}

/// Replays the scenario that the bytes are.
fn replay_bytes<K: Sink, F: Files>(
    alloc: Global,
    bytes: &[u8],
    out: &mut K,
    files: &mut F,
) -> Status
    ensures ends { BytesEnd replay bytes.now
        (files_and_sink (F.state files.old) (F.faults files.old) (K.written out.old) (K.faults out.old))
        (files_and_sink (F.state files.new) (F.faults files.new) (K.written out.new) (K.faults out.new))
        result }
    ensures opened { F.faults files.old ≤ F.faults files.new }
    ensures wrote { K.faults out.old ≤ K.faults out.new }
{
    match read_scenario(alloc, bytes) {
        Ok(scenario) => replay_scenario(alloc, &scenario, out, files),
        Err(ScenarioFault::Bad { line, why }) => Status::BadScenario { line, why },
        Err(ScenarioFault::NoMemory) => Status::NoMemory,
    }
}

/// Reads a scenario from the source, opens its devices over the files, replays it, and writes its journal to the sink: each line, with
/// its line feed, by one call. However that ends, each file is given back with what its device left in it.
pub fn run_replay<S: Source, K: Sink, F: Files>(
    alloc: Global,
    src: &mut S,
    out: &mut K,
    files: &mut F,
) -> Status
    ensures ends { Ends replay
        (outside (S.left src.old) (S.reads src.old) (S.faults src.old) (F.state files.old) (F.faults files.old) (K.written out.old) (K.faults out.old))
        (outside (S.left src.new) (S.reads src.new) (S.faults src.new) (F.state files.new) (F.faults files.new) (K.written out.new) (K.faults out.new))
        result }
    ensures read { S.faults src.old ≤ S.faults src.new }
    ensures opened { F.faults files.old ≤ F.faults files.new }
    ensures wrote { K.faults out.old ≤ K.faults out.new }
{
    match read_all(alloc, src) {
        Ok(bytes) => replay_bytes(alloc, &bytes, out, files),
        Err(Unread::Failed) => Status::ReadFault,
        Err(Unread::TooLong) => Status::BadScenario {
            line: 0,
            why: Why::TooLong,
        },
        Err(Unread::NoMemory) => Status::NoMemory,
    }
}

/// Does what the words ask for.
fn run<S: Source, K: Sink, F: Files>(
    alloc: Global,
    words: &Words,
    src: &mut S,
    out: &mut K,
    files: &mut F,
) -> Status
    ensures ends { TaskEnds (task_of (texts_of words.now.items))
        (outside (S.left src.old) (S.reads src.old) (S.faults src.old) (F.state files.old) (F.faults files.old) (K.written out.old) (K.faults out.old))
        (outside (S.left src.new) (S.reads src.new) (S.faults src.new) (F.state files.new) (F.faults files.new) (K.written out.new) (K.faults out.new))
        result }
    ensures read { S.faults src.old ≤ S.faults src.new }
    ensures opened { F.faults files.old ≤ F.faults files.new }
    ensures wrote { K.faults out.old ≤ K.faults out.new }
{
    match task_of(words) {
        Some(Task::Replay) => run_replay(alloc, src, out, files),
        Some(Task::Load { seed, count }) => run_load(alloc, seed, count, out),
        None => Status::BadWords,
    }
}

/// All that the program does: the words decide what. `replay` reads a scenario from the source and writes its journal to the sink, `load`
/// writes the line of a load. The line of a fault goes to the error stream; a failure there leaves the status as it is.
pub fn tcmu_top<S: Source, K: Sink, E: Sink, F: Files>(
    alloc: Global,
    words: &Words,
    src: &mut S,
    out: &mut K,
    err: &mut E,
    files: &mut F,
) -> Status
    ensures ends { TaskEnds (task_of (texts_of words.now.items))
        (outside (S.left src.old) (S.reads src.old) (S.faults src.old) (F.state files.old) (F.faults files.old) (K.written out.old) (K.faults out.old))
        (outside (S.left src.new) (S.reads src.new) (S.faults src.new) (F.state files.new) (F.faults files.new) (K.written out.new) (K.faults out.new))
        result }
    ensures reported { Reported result (E.written err.old) (E.written err.new) (Rose (E.faults err.old) (E.faults err.new)) }
    ensures silent { fault_text result ≡ [] → E.faults err.new ≡ E.faults err.old }
    ensures told { E.faults err.old ≤ E.faults err.new }
    ensures read { S.faults src.old ≤ S.faults src.new }
    ensures opened { F.faults files.old ≤ F.faults files.new }
    ensures wrote { K.faults out.old ≤ K.faults out.new }
{
    let status = run(alloc, words, src, out, files);
    report(err, status);
    status
}
