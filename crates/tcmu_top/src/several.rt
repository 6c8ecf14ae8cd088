//! The replay of a scenario's lines on its devices, and its text.
ghost use Rattle.std.specs.Prelude.{◌≡◌, ◌+◌, ◌^◌, ◌≤◌, ◌<◌, length, OnOk, OnErr};
ghost use Rattle.edge.specs.Outside.{Gained, GainedFront};
ghost use Rattle.tcmu_model.specs.Drain.{Drains};
ghost use Rattle.tcmu_types.specs.Lists.{Every};
ghost use Rattle.tcmu_model.specs.Work.{HasOutcomes};
ghost use Rattle.text_model.specs.Replay.{Plays};
ghost use Rattle.text_model.specs.Several.{DrainsEach, ReplaysEach, ends_text};
ghost use Rattle.text_model.specs.ScenarioRules.{IsScenario, IsServed, IsFitFor};
ghost use Rattle.text_laws.specs.Replays.{OpenAs};
ghost use Rattle.device_set.specs.Sets.{names};
ghost use Rattle.tcmu_top.specs.Calls.{SinkFaults};
ghost use Rattle.tcmu_top.specs.Playing.{states_of, AreSound, CanGoOn, WroteOn, WroteOnFront, WroteEach, WroteEachFront};
ghost use Rattle.tcmu_top.specs.InPart.{DrainsInPart, PlaysInPart, DrainsEachInPart, ReplaysEachInPart};
ghost use Rattle.tcmu_top.specs.Top.{Replayed, MadeInPart, ReplayedInPart};

use crate::lines::{drain, play_line};
use crate::writing::{Stop, write_end, write_readies};
use device_set::DeviceSet;
use edge::Sink;
use scenario_text::{DeviceLine, Line, Scenario};
use std::alloc::Global;
use tcmu_path::{Path, open_count};

/// Drains the device of a number.
fn drain_on<P: Path, K: Sink>(
    alloc: Global,
    devices: &[DeviceLine],
    set: &mut DeviceSet<P>,
    at: u32,
    out: &mut K,
) -> Result<(), Stop>
    requires there { at < length set.old }
    requires lines { length devices.now ≡ length set.old }
    requires few { CanGoOn (states_of P.device set.old) }
    requires sound { AreSound (states_of P.device set.old) }
    ensures ok { OnOk result (WroteOn P.relation devices.now at 0 (Drains P.relation at) (states_of P.device set.old) (states_of P.device set.new) (K.written out.old) (K.written out.new)) }
    ensures err { OnErr result (WroteOnFront P.relation devices.now at (DrainsInPart P.relation at) (Drains P.relation at) (states_of P.device set.old) (states_of P.device set.new) (K.written out.old) (K.written out.new)) }
    ensures faults { SinkFaults (K.faults out.old) (K.faults out.new) result }
    ensures count { length set.new ≡ length set.old }
    ensures names { names set.new ≡ names set.old }
{
    drain(alloc, &devices[at as usize], set.get_mut(at), out)
}

/// Makes and writes what a line asks for of its device.
fn play_on<P: Path, K: Sink>(
    alloc: Global,
    devices: &[DeviceLine],
    set: &mut DeviceSet<P>,
    line: &Line,
    out: &mut K,
) -> Result<(), Stop>
    requires lines { length devices.now ≡ length set.old }
    requires fit { IsFitFor (length set.old) line.now }
    requires few { CanGoOn (states_of P.device set.old) }
    requires sound { AreSound (states_of P.device set.old) }
    ensures ok { OnOk result (WroteOn P.relation devices.now line.now.device 1 (λ d es d'. Plays P.relation line.now.device d line.now.what es d') (states_of P.device set.old) (states_of P.device set.new) (K.written out.old) (K.written out.new)) }
    ensures err { OnErr result (WroteOnFront P.relation devices.now line.now.device (λ d es d'. PlaysInPart P.relation line.now.device d line.now.what es d') (λ d es d'. Plays P.relation line.now.device d line.now.what es d') (states_of P.device set.old) (states_of P.device set.new) (K.written out.old) (K.written out.new)) }
    ensures faults { SinkFaults (K.faults out.old) (K.faults out.new) result }
    ensures count { length set.new ≡ length set.old }
    ensures names { names set.new ≡ names set.old }
{
    let at = line.device;
    play_line(alloc, &devices[at as usize], set.get_mut(at), line, out)
}

/// Drains each device, in order.
fn drain_each<P: Path, K: Sink>(
    alloc: Global,
    devices: &[DeviceLine],
    set: &mut DeviceSet<P>,
    out: &mut K,
) -> Result<(), Stop>
    requires lines { length devices.now ≡ length set.old }
    requires few { CanGoOn (states_of P.device set.old) }
    requires sound { AreSound (states_of P.device set.old) }
    ensures ok { OnOk result (WroteEach P.relation devices.now (DrainsEach (Plays P.relation) 0 (states_of P.device set.old)) (states_of P.device set.old) (states_of P.device set.new) (K.written out.old) (K.written out.new)) }
    ensures err { OnErr result (WroteEachFront P.relation devices.now (DrainsEachInPart P.relation 0 (states_of P.device set.old)) (DrainsEach (Plays P.relation) 0 (states_of P.device set.old)) (states_of P.device set.old) (states_of P.device set.new) (K.written out.old) (K.written out.new)) }
    ensures faults { SinkFaults (K.faults out.old) (K.faults out.new) result }
    ensures count { length set.new ≡ length set.old }
    ensures names { names set.new ≡ names set.old }
    ensures still_sound { OnOk result (AreSound (states_of P.device set.new)) }
    ensures still_few { OnOk result (CanGoOn (states_of P.device set.new)) }
{
    for at in 0..set.len() {
        drain_on(alloc, devices, set, at, out)?;
    }
    Ok(())
}

/// Makes and writes what the lines ask for of their devices, and drains each device after the last.
fn replay_lines<P: Path, K: Sink>(
    alloc: Global,
    devices: &[DeviceLine],
    set: &mut DeviceSet<P>,
    lines: &[Line],
    out: &mut K,
) -> Result<(), Stop>
    requires lines { length devices.now ≡ length set.old }
    requires fit { Every (IsFitFor (length set.old)) lines.now }
    requires few { Every (λ d. d.state.accepted + length lines.now < 2 ^ 63) (states_of P.device set.old) }
    requires sound { AreSound (states_of P.device set.old) }
    ensures ok { OnOk result (WroteEach P.relation devices.now (ReplaysEach (Plays P.relation) (states_of P.device set.old) lines.now) (states_of P.device set.old) (states_of P.device set.new) (K.written out.old) (K.written out.new)) }
    ensures err { OnErr result (WroteEachFront P.relation devices.now (ReplaysEachInPart P.relation (states_of P.device set.old) lines.now) (ReplaysEach (Plays P.relation) (states_of P.device set.old) lines.now) (states_of P.device set.old) (states_of P.device set.new) (K.written out.old) (K.written out.new)) }
    ensures faults { SinkFaults (K.faults out.old) (K.faults out.new) result }
    ensures count { length set.new ≡ length set.old }
    ensures names { names set.new ≡ names set.old }
    ensures still_sound { OnOk result (AreSound (states_of P.device set.new)) }
    ensures still_few { OnOk result (CanGoOn (states_of P.device set.new)) }
{
    for line in lines {
        play_on(alloc, devices, set, line, out)?;
    }
    drain_each(alloc, devices, set, out)
}

/// Writes the last line of each device.
fn write_ends<P: Path, K: Sink>(
    alloc: Global,
    devices: &[DeviceLine],
    set: &DeviceSet<P>,
    out: &mut K,
) -> Result<(), Stop>
    requires lines { length devices.now ≡ length set.now }
    requires few { CanGoOn (states_of P.device set.now) }
    requires sound { AreSound (states_of P.device set.now) }
    ensures ok { OnOk result (Gained (K.written out.old) (ends_text devices.now (states_of P.device set.now)) (K.written out.new)) }
    ensures err { OnErr result (GainedFront (K.written out.old) (ends_text devices.now (states_of P.device set.now)) (K.written out.new)) }
    ensures faults { SinkFaults (K.faults out.old) (K.faults out.new) result }
{
    for at in 0..set.len() {
        let count = open_count(set.get(at));
        write_end(alloc, &devices[at as usize], count, out)?;
    }
    Ok(())
}

/// Replays a scenario's lines on its devices, and writes the device lines, the journal and the end lines.
pub fn replay_devices<P: Path, K: Sink>(
    alloc: Global,
    scenario: &Scenario,
    set: &mut DeviceSet<P>,
    out: &mut K,
) -> Result<(), Stop>
    requires opened { OpenAs scenario.now.devices (states_of P.device set.old) }
    requires limits { IsScenario scenario.now }
    requires served { IsServed scenario.now }
    ensures ok { OnOk result (Replayed P.relation scenario.now.devices (states_of P.device set.old) scenario.now.lines (states_of P.device set.new) (K.written out.old) (K.written out.new)) }
    ensures err { OnErr result (MadeInPart P.relation scenario.now.devices (states_of P.device set.old) scenario.now.lines (states_of P.device set.new) (K.written out.old) (K.written out.new)) }
    ensures front { HasOutcomes P.relation → OnErr result (ReplayedInPart P.relation scenario.now.devices (states_of P.device set.old) scenario.now.lines (states_of P.device set.new) (K.written out.old) (K.written out.new)) }
    ensures faults { SinkFaults (K.faults out.old) (K.faults out.new) result }
    ensures count { length set.new ≡ length set.old }
    ensures names { names set.new ≡ names set.old }
{
    let devices = scenario.devices.as_slice();
    write_readies(alloc, devices, out)?;
    replay_lines(alloc, devices, set, scenario.lines.as_slice(), out)?;
    write_ends(alloc, devices, set, out)
}
