//! What a scenario and the script of a device are made of, and why texts are refused.
ghost use Rattle.std.specs.Prelude.{◌≡◌};
ghost use Rattle.scenario_text.specs.declared.kinds.LineFault.TheVariants as line;

use device_config::Config;
use std::alloc::AllocFailed;
use std::marker::Model;
use tcmu_types::{Command, Event, Listed, Name, NoMemory, Settings};
use text_model::Why;
use thiserror::Error;

/// What a device line says.
#[derive(Debug, Drop)]
pub struct DeviceLine {
    /// As the other lines call it; no other device has it.
    pub name: Name,
    /// The device's medium, with the same name in it; a file is no other device's.
    pub config: Config,
    /// Of the device's ring, data area and clock; absent fields are 0 for `qfull` and 1 for `pages`.
    pub settings: Settings,
}

impl Model for DeviceLine {
    ghost use Rattle.text_model.specs.ScenarioData.{DeviceLineData};

    ghost Value = { DeviceLineData };

    ghost view = { λ a. record { name = a.name; config = a.config; settings = a.settings } };
}

/// What another line asks for: an event, the events of the drain up to its end, or a picture of the device's region.
#[derive(Debug, Drop)]
pub enum LineKind {
    /// Made once, and answered by the device.
    Event(Event),
    Drain,
    Dump,
}

/// A line that is no device line, with the number of its device, from 0 in the order of the device lines.
#[derive(Debug, Drop)]
pub struct Line {
    /// Below the number of devices.
    pub device: u32,
    /// What its verb asks for.
    pub what: LineKind,
}

impl Model for Line {
    ghost use Rattle.text_model.specs.ScenarioData.{LineData};
    ghost use Rattle.scenario_text.specs.Views.{kind_data};

    ghost Value = { LineData };

    ghost view = { λ a. record { device = a.device; what = kind_data a.what } };
}

/// The devices of a scenario, in order.
pub type Devices = Listed<DeviceLine>;

/// The other lines of a scenario, in order.
pub type Lines = Listed<Line>;

/// What a scenario says.
#[derive(Debug, Drop)]
pub struct Scenario {
    /// At most 16; their lines stand before all others.
    pub devices: Devices,
    /// In the order of the text, of all devices together.
    pub lines: Lines,
}

impl Model for Scenario {
    ghost use Rattle.text_model.specs.ScenarioData.{ScenarioData};

    ghost Value = { ScenarioData };

    ghost view = { λ a. record { devices = a.devices.items; lines = a.lines.items } };
}

/// Commands, in the order in which they are sent.
pub type Commands = Listed<Command>;

/// Events, in the order in which they are made.
pub type Events = Listed<Event>;

/// What one initiator sends.
#[derive(Debug, Drop)]
pub struct InitLine {
    /// The initiator's: 1 to 16 characters.
    pub name: Name,
    /// Those that name the initiator, from the first line to the last.
    pub commands: Commands,
}

impl Model for InitLine {
    ghost use Rattle.text_model.specs.Script.{InitLineData};

    ghost Value = { InitLineData };

    ghost view = { λ a. record { name = a.name; commands = a.commands.items } };
}

/// The initiators of a device, in the order of their first submits.
pub type InitLines = Listed<InitLine>;

/// The script of a device: what each of its initiators sends, and what the administration does (tick, block, unblock, reset,
/// restart, task management, stat).
#[derive(Debug, Drop)]
pub struct Script {
    /// At most 16 to a device, no name twice.
    pub inits: InitLines,
    /// In the order of the lines.
    pub admin: Events,
}

impl Model for Script {
    ghost use Rattle.std.specs.Prelude.{map};
    ghost use Rattle.tcmu_types.specs.Views.{event_data};
    ghost use Rattle.text_model.specs.Script.{ScriptData};

    ghost Value = { ScriptData };

    ghost view = { λ a. record { inits = a.inits.items; admin = map event_data a.admin.items } };
}

/// Why a line is not taken.
#[derive(Clone, Copy, Debug, Drop, PartialEq, Eq)]
pub enum LineFault {
    /// The first rule that the line breaks, by the order of `Why`.
    Bad(Why),
    NoMemory,
}

impl From<Why> for LineFault {
    ghost from_gives = { λ why fault. fault ≡ line.Bad why };

    fn from(why: Why) -> LineFault {
        LineFault::Bad(why)
    }
}

impl From<NoMemory> for LineFault {
    ghost from_gives = { λ _ fault. fault ≡ line.NoMemory };

    fn from(_: NoMemory) -> LineFault {
        LineFault::NoMemory
    }
}

impl<T: Drop> From<AllocFailed<T>> for LineFault {
    ghost from_gives = { λ _ fault. fault ≡ line.NoMemory };

    fn from(_: AllocFailed<T>) -> LineFault {
        LineFault::NoMemory
    }
}

/// Why a text is no scenario: the first bad line, counted from 1, and why; line 0 where the text is too long.
#[derive(Clone, Copy, Debug, PartialEq, Eq, Error)]
pub enum ScenarioFault {
    /// Of the lowest line alone.
    #[error("line {line}: {}", .why.text())]
    Bad { line: u32, why: Why },
    #[error("no memory")]
    NoMemory,
}
