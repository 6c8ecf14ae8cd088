//! What one line of a scenario asks of its device, each event written as it is made.
ghost use Rattle.std.specs.Prelude.{◌≡◌, ℕ, ◌^◌, ◌≤◌, ◌<◌, length, drop, IfOk, IfSome, OnOk, OnErr};
ghost use Rattle.std.specs.Option.{option_map};
ghost use Rattle.tcmu_types.specs.Views.{event_data, answer_data};
ghost use Rattle.tcmu_model.specs.Steps.{Makes, most_accepted};
ghost use Rattle.tcmu_model.specs.Drain.{chosen, Drains};
ghost use Rattle.tcmu_model.specs.Sound.{IsSound};
ghost use Rattle.text_model.specs.Replay.{Plays};
ghost use Rattle.tcmu_path.specs.Calls.{Accepts};
ghost use Rattle.text_model.specs.ScenarioRules.{IsFit};
ghost use Rattle.tcmu_path.specs.Tasks.{CanBeMade};
ghost use Rattle.tcmu_top.specs.Calls.{SinkFaults};
ghost use Rattle.tcmu_top.specs.Playing.{Played, Stopped, Wrote, WroteFront};
ghost use Rattle.tcmu_top.specs.InPart.{DrainsInPart, PlaysInPart};

use crate::writing::{Stop, write_entry};
use edge::Sink;
use scenario_text::{DeviceLine, Line, LineKind};
use std::alloc::Global;
use tcmu_path::{Path, make_event, next_event};
use tcmu_types::{Done, Event};

/// The completions after the first so many.
fn behind(log: &[Done], before: usize) -> &[Done]
    requires { before ≤ length log.now }
    ensures { result.now ≡ drop before log.now }
{
    &log[before..]
}

/// Makes an event and writes it.
fn play<P: Path, K: Sink>(
    alloc: Global,
    device: &DeviceLine,
    path: &mut P,
    event: &Event,
    out: &mut K,
) -> Result<(), Stop>
    requires few { (P.device path.old).state.accepted < 2 ^ 63 }
    requires can { CanBeMade (event_data event.now) }
    ensures ok { OnOk result ((at : ℕ) → Played P.relation at device.now (event_data event.now) (P.device path.old) (P.device path.new) (K.written out.old) (K.written out.new)) }
    ensures err { OnErr result ((at : ℕ) → Stopped P.relation at device.now (event_data event.now) (P.device path.old) (P.device path.new) (K.written out.old) (K.written out.new)) }
    ensures faults { SinkFaults (K.faults out.old) (K.faults out.new) result }
    ensures accepts { Accepts (most_accepted (event_data event.now)) (P.device path.old) (P.device path.new) }
{
    let before = path.log().len();
    let answer = make_event(alloc, path, event)?;
    let logged = behind(path.log(), before);
    write_entry(alloc, device, event, &answer, logged, out)
}

/// Makes and writes what a drain asks for.
pub fn drain<P: Path, K: Sink>(
    alloc: Global,
    device: &DeviceLine,
    path: &mut P,
    out: &mut K,
) -> Result<(), Stop>
    requires few { (P.device path.old).state.accepted < 2 ^ 63 }
    requires sound { IsSound (P.device path.old).state }
    ensures ok { OnOk result ((at : ℕ) → Wrote P.relation device.now (λ es. Drains P.relation at (P.device path.old) es (P.device path.new)) (P.device path.old) (P.device path.new) (K.written out.old) (K.written out.new)) }
    ensures err { OnErr result ((at : ℕ) → WroteFront P.relation device.now (DrainsInPart P.relation at (P.device path.old)) (Drains P.relation at (P.device path.old)) (P.device path.old) (P.device path.new) (K.written out.old) (K.written out.new)) }
    ensures faults { SinkFaults (K.faults out.old) (K.faults out.new) result }
    ensures accepts { Accepts 0 (P.device path.old) (P.device path.new) }
{
    while let Some(event) = next_event(&path.todo()) {
        play(alloc, device, path, &event, out)?;
    }
    Ok(())
}

/// Makes and writes what a line asks for.
pub fn play_line<P: Path, K: Sink>(
    alloc: Global,
    device: &DeviceLine,
    path: &mut P,
    line: &Line,
    out: &mut K,
) -> Result<(), Stop>
    requires few { (P.device path.old).state.accepted < 2 ^ 63 }
    requires sound { IsSound (P.device path.old).state }
    requires fit { IsFit line.now.what }
    ensures ok { OnOk result ((at : ℕ) → Wrote P.relation device.now (λ es. Plays P.relation at (P.device path.old) line.now.what es (P.device path.new)) (P.device path.old) (P.device path.new) (K.written out.old) (K.written out.new)) }
    ensures err { OnErr result ((at : ℕ) → WroteFront P.relation device.now (PlaysInPart P.relation at (P.device path.old) line.now.what) (Plays P.relation at (P.device path.old) line.now.what) (P.device path.old) (P.device path.new) (K.written out.old) (K.written out.new)) }
    ensures faults { SinkFaults (K.faults out.old) (K.faults out.new) result }
    ensures accepts { Accepts 1 (P.device path.old) (P.device path.new) }
{
    match &line.what {
        LineKind::Event(event) => play(alloc, device, path, event, out),
        LineKind::Drain => drain(alloc, device, path, out),
        LineKind::Dump => unreachable!(),
    }
}
