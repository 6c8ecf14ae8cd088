//! The device of a scenario, over a medium in memory.
ghost use Rattle.std.specs.Prelude.{◌≤◌, IfOk};
ghost use Rattle.text_model.specs.ScenarioRules.{IsScenario};
ghost use Rattle.journal_kept.specs.Fronts.{CanKeep, IsOpened};

use crate::rig::Rig;
use block_engine::Engine;
use journal_kept::can_keep_law;
use media::MemMedium;
use scenario_text::{DeviceLine, Scenario, Script, read_scenario, script};
use std::alloc::Global;
use std::test::Fail;
use tcmu_path::PlainPath;
use tcmu_types::NoMemory;

/// A device that keeps plain lists, with a medium in memory.
pub type Disk = PlainPath<Engine<MemMedium>>;

/// Opens a device over so many logical blocks of zeros.
fn open_over(alloc: Global, device: &DeviceLine, blocks: u32) -> Result<Disk, NoMemory>
    requires { 1 ≤ blocks }
    ensures { IfOk result (λ path. IsOpened path) }
{
    let medium = MemMedium::new(alloc, blocks)?;
    let engine = Engine::new(device.name.copy(), medium);
    Ok(PlainPath::new(alloc, device.settings, engine))
}

/// What the first device of a scenario is asked.
fn first_script(alloc: Global, scenario: &Scenario) -> Result<Script, NoMemory>
    requires { IsScenario scenario.now }
    ensures { IfOk result CanKeep }
{
    can_keep_law();
    script(alloc, scenario, 0)
}

/// Keeps the first device of a scenario, over 64 logical blocks of zeros.
pub fn keep(alloc: Global, text: &str) -> Result<Rig<Disk>, Fail> {
    let scenario = read_scenario(alloc, text.as_bytes())?;
    let device = scenario.devices.as_slice().first().ok_or("a device")?;
    let path = open_over(alloc, device, 64)?;
    let script = first_script(alloc, &scenario)?;
    Ok(Rig::new(alloc, path, script)?)
}
