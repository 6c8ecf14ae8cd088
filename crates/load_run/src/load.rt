//! The line of a load.
ghost use Rattle.std.specs.Prelude.{◌≡◌, ◌≤◌, IfOk};
ghost use Rattle.text_model.specs.Load.{load_device};
ghost use Rattle.load_run.specs.Loading.{opened_over, IsLoadText};

use crate::summary::{numbers_of, summary};
use crate::tally::play_lines;
use block_engine::Engine;
use load_gen::{load_device, load_lines};
use media::MemMedium;
use scenario_text::DeviceLine;
use std::alloc::Global;
use tcmu_path::PlainPath;
use tcmu_types::NoMemory;

/// How the device of a load is kept.
type LoadDevice = PlainPath<Engine<MemMedium>>;

/// The logical blocks of a load's device.
const BLOCKS: u32 = 4096;

/// Opens a device over so many logical blocks of zeros.
#[tactic(auto, unfolding(crate::specs::Loading::opened_over))]
fn open_over(alloc: Global, device: &DeviceLine, blocks: u32) -> Result<LoadDevice, NoMemory>
    requires { 1 ≤ blocks }
    ensures { IfOk result (λ path. path ≡ opened_over blocks device.now) }
{
    let medium = MemMedium::new(alloc, blocks)?;
    let engine = Engine::new(device.name.copy(), medium);
    Ok(PlainPath::new(alloc, device.settings, engine))
}

/// The line that sums up the replay of a load of at most 10,000 commands, with its line feed: how many were accepted, how many are GOOD,
/// how many bytes these moved, and how many are open.
pub fn load_line(alloc: Global, seed: u64, count: u32) -> Result<Vec<u8>, NoMemory>
    requires { count ≤ 10000 }
    ensures { IfOk result (λ text. IsLoadText seed count text.items) }
{
    let lines = load_lines(alloc, seed, count)?;
    let mut path = open_over(alloc, &load_device(alloc), BLOCKS)?;
    let mut sizes = Vec::new(alloc);
    sizes.push(None)?;
    play_lines(alloc, &mut path, lines.as_slice(), &mut sizes)?;
    let numbers = numbers_of(&path, &sizes);
    summary(alloc, seed, count, &numbers)
}
