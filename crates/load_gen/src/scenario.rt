//! The scenario of a load.
ghost use Rattle.std.specs.Prelude.{◌≡◌, ◌≤◌, ◌<◌, ◌++◌, OnOk, IfOk, codes};
ghost use Rattle.text_model.specs.Load.{load_config, load_settings, load_device, load_step, load_lines, load_scenario_data};
ghost use Rattle.text_model.specs.ScenarioRules.{IsScenario};

use crate::commands::load_command;
use crate::numbers::next_random;
use device_config::{Config, MediumKind};
use scenario_text::{DeviceLine, Devices, Line, LineKind, Lines, Scenario};
use std::alloc::Global;
use tcmu_types::{Event, Flags, Name, NoMemory, Serials, Settings};

/// The name of the device.
fn device_name() -> Name
    ensures { result ≡ codes "d0" }
{
    Name::new("d0").unwrap()
}

#[tactic(auto, unfolding(text_model::specs::Load::load_config))]
fn load_config(alloc: Global) -> Config
    ensures { result ≡ load_config }
{
    Config {
        hba: 0,
        name: device_name(),
        kind: MediumKind::Memory(4096),
        protected: false,
        fails: Serials::new(alloc),
    }
}

#[tactic(auto, unfolding(text_model::specs::Load::load_settings))]
fn load_settings() -> Settings
    ensures { result ≡ load_settings }
{
    Settings {
        ring: 65_536,
        blocks: 1024,
        flags: Flags {
            ooo: true,
            read_len: true,
            tmr: false,
        },
        timeout: 0,
        qfull: 0,
        pages: 1,
    }
}

/// The device of every load: `d0` over 4096 logical blocks of memory, with a ring of 65,536 bytes and 1024 data blocks of a page, the
/// flags `ooo` and `len`, and no timeout.
#[tactic(auto, unfolding(text_model::specs::Load::load_device))]
pub fn load_device(alloc: Global) -> DeviceLine
    ensures { result ≡ load_device }
{
    DeviceLine {
        name: device_name(),
        config: load_config(alloc),
        settings: load_settings(),
    }
}

/// Appends the i-th command, and after each sixteenth a drain.
#[tactic(auto, unfolding(text_model::specs::Load::load_step))]
fn push_step(alloc: Global, lines: &mut Vec<Line>, i: u32, x: u64) -> Result<(), NoMemory>
    ensures { OnOk result (lines.new.items ≡ lines.old.items ++ load_step i x) }
{
    let command = load_command(alloc, i, x)?;
    lines.push(Line {
        device: 0,
        what: LineKind::Event(Event::Submit(command)),
    })?;
    if i % 16 == 0 {
        lines.push(Line {
            device: 0,
            what: LineKind::Drain,
        })?;
    }
    Ok(())
}

/// The lines of the first `count` commands, at most 10,000, that follow from a seed: a submit each, and a drain after each sixteenth.
#[tactic(auto, using(crate::proofs::Following::steps))]
pub fn load_lines(alloc: Global, seed: u64, count: u32) -> Result<Lines, NoMemory>
    requires { count ≤ 10000 }
    ensures { IfOk result (λ lines. lines.items ≡ load_lines seed count) }
{
    let mut lines = Vec::with_capacity(alloc, count as usize + count as usize / 16)?;
    let mut x = seed;
    for i in 0..count {
        x = next_random(x);
        push_step(alloc, &mut lines, i + 1, x)?;
    }
    Ok(Lines::from_vec(lines))
}

/// A scenario of so many reads and writes on one device over 4096 logical blocks of memory, all of them sent by one initiator, with a
/// drain after each sixteenth. They follow from the seed.
#[tactic(auto, using(crate::proofs::Limits::scenario_is), unfolding(text_model::specs::Load::load_scenario_data))]
pub fn load_scenario(alloc: Global, seed: u64, count: u32) -> Result<Scenario, NoMemory>
    requires { count ≤ 10000 }
    ensures data { IfOk result (λ s. s ≡ load_scenario_data seed count) }
    ensures limits { IfOk result IsScenario }
{
    let lines = load_lines(alloc, seed, count)?;
    let mut devices = Devices::new(alloc);
    devices.reserve(1)?;
    devices.push(load_device(alloc));
    Ok(Scenario { devices, lines })
}
