//! A scenario while its lines are read, with what its limits count.
ghost use Rattle.std.specs.Prelude.{◌≡◌, ◌≤◌, ◌<◌, false, length, Some, None};
ghost use Rattle.std.specs.List.{list_any};
ghost use Rattle.text_model.specs.Said.{has_name, device_at, same_file};
ghost use Rattle.text_model.specs.Scenario.{with_line, with_device, nothing_yet};
ghost use Rattle.device_config.specs.Views.{medium_data};
ghost use Rattle.scenario_text.specs.Counts.{dump_by, many_by, IsNewName};
ghost use Rattle.tcmu_types.specs.Numbers.{bit};
ghost use Rattle.scenario_text.specs.Giving.{LineGives};

use crate::counts::{bytes_in, bytes_out, is_dump, is_event, names_at, note_initiator};
use crate::devices::{any_in_file, small_at};
use crate::kinds::{DeviceLine, Devices, Line, LineFault, Lines, Scenario};
use crate::names::Names;
use device_config::MediumKind;
use std::alloc::Global;
use std::marker::Model;
use tcmu_types::Name;
use text_model::{Limits, Why};

/// The scenario so far, with the names of its devices and of the initiators of each.
#[derive(Drop)]
pub struct SoFar {
    devices: Devices,
    lines: Lines,
    names: Names,
    initiators: Vec<Names>,
    dumps: u32,
    events: u64,
    bytes_in: u64,
    bytes_out: u64,
}

impl Model for SoFar {
    ghost use Rattle.text_model.specs.ScenarioData.{ScenarioData};
    ghost use Rattle.scenario_text.specs.Counts.{Counted, AreNames};

    ghost Value = { ScenarioData };

    ghost view = { λ a. record { devices = a.devices.items; lines = a.lines.items } };

    ghost invariant = { λ a. Counted a.devices.items a.lines.items a.initiators.items a.dumps a.events a.bytes_in a.bytes_out × AreNames a.devices.items a.names };
}

pub(crate) fn breaks_dump(devices: &[DeviceLine], dumps: u32, line: &Line) -> bool
    ensures { result ≡ dump_by devices.now dumps line.now }
{
    if !is_dump(line) {
        return false;
    }
    16 < dumps || !small_at(devices, line.device)
}

fn breaks_many(
    limits: &Limits,
    initiators: &[Name],
    lines: usize,
    events: u64,
    ins: u64,
    outs: u64,
) -> bool
    ensures value { result ≡ many_by limits.now initiators.now lines events ins outs }
    ensures few { result ≡ false → lines < 4294967296 }
{
    16 < initiators.len()
        || (limits.lines as usize) < lines
        || (limits.events as u64) < events
        || 67_108_864 < ins
        || 67_108_864 < outs
}

fn bit(b: bool) -> u32
    ensures value { result ≡ bit b }
    ensures most { result ≤ 1 }
{
    if b { 1 } else { 0 }
}

impl SoFar {
    /// Before the first line.
    pub fn new(alloc: Global) -> SoFar
        ensures { result ≡ nothing_yet }
    {
        SoFar {
            devices: Devices::new(alloc),
            lines: Lines::new(alloc),
            names: Names::new(alloc),
            initiators: Vec::new(alloc),
            dumps: 0,
            events: 0,
            bytes_in: 0,
            bytes_out: 0,
        }
    }

    /// The number of the device of this name.
    pub fn device_at(&self, name: &[u8]) -> Option<u32>
        ensures { result ≡ device_at self.now name.now }
    {
        match self.names.place_of(name) {
            Some(at) => Some(at as u32),
            None => None,
        }
    }

    /// Whether a device line of this name came.
    pub fn has_device(&self, name: &[u8]) -> bool
        ensures { result ≡ list_any (has_name name.now) self.now.devices }
    {
        self.device_at(name).is_some()
    }

    /// Whether a device has the same file.
    pub fn has_file(&self, kind: &MediumKind) -> bool
        ensures { result ≡ list_any (λ d. same_file d.config.kind (medium_data kind.now)) self.now.devices }
    {
        any_in_file(self.devices.as_slice(), kind)
    }

    /// What the lines said, after the last of them.
    pub fn into_scenario(self) -> Scenario
        ensures { result ≡ self }
    {
        Scenario {
            devices: self.devices,
            lines: self.lines,
        }
    }

    /// With this line after the others, within these limits.
    #[tactic(auto, unfolding(text_model::specs::Scenario::with_line))]
    pub fn with_line(self, limits: &Limits, line: Line) -> Result<SoFar, LineFault>
        requires { line.device < length self.devices }
        ensures { LineGives (λ x. x) result (with_line limits.now self line) }
    {
        let SoFar {
            devices,
            mut lines,
            names,
            mut initiators,
            dumps,
            events,
            bytes_in: ins,
            bytes_out: outs,
        } = self;
        let dumps = dumps + bit(is_dump(&line));
        if breaks_dump(devices.as_slice(), dumps, &line) {
            return Err(LineFault::Bad(Why::Dump));
        }
        note_initiator(&mut initiators, &line)?;
        let events = events + bit(is_event(&line)) as u64;
        let ins = ins + bytes_in(&line);
        let outs = outs + bytes_out(&line);
        let senders = names_at(&initiators, line.device);
        if breaks_many(limits, senders, lines.len() + 1, events, ins, outs) {
            return Err(LineFault::Bad(Why::Many));
        }
        lines.reserve(1)?;
        lines.push(line);
        Ok(SoFar {
            devices,
            lines,
            names,
            initiators,
            dumps,
            events,
            bytes_in: ins,
            bytes_out: outs,
        })
    }

    /// With this device after the others.
    #[tactic(auto, unfolding(text_model::specs::Scenario::with_device))]
    pub fn with_device(self, alloc: Global, device: DeviceLine) -> Result<SoFar, LineFault>
        requires { IsNewName self device }
        ensures { LineGives (λ x. x) result (with_device self device) }
    {
        let SoFar {
            mut devices,
            lines,
            mut names,
            mut initiators,
            dumps,
            events,
            bytes_in,
            bytes_out,
        } = self;
        if !lines.is_empty() {
            return Err(LineFault::Bad(Why::Order));
        }
        if 16 < devices.len() + 1 {
            return Err(LineFault::Bad(Why::Many));
        }
        devices.reserve(1)?;
        names.note(&device.name)?;
        devices.push(device);
        initiators.push(Names::new(alloc))?;
        Ok(SoFar {
            devices,
            lines,
            names,
            initiators,
            dumps,
            events,
            bytes_in,
            bytes_out,
        })
    }
}
