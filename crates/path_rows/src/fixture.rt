//! Devices over a medium in memory.
ghost use Rattle.std.specs.Prelude.{◌%◌, ◌≡◌, ◌≤◌};

use crate::Rig;
use crate::examples::Device;
use block_engine::Engine;
use media::MemMedium;
use std::alloc::Global;
use std::test::Fail;
use tcmu_path::PlainPath;
use tcmu_types::{Flags, Name, Settings};

/// A device that keeps plain lists, with a medium in memory.
pub type Disk = Rig<PlainPath<Engine<MemMedium>>>;

/// What serves a device's commands: 2,048 logical blocks of zeros.
pub fn engine(alloc: Global) -> Result<Engine<MemMedium>, Fail> {
    let name = Name::new("d0").ok_or("a name")?;
    Ok(Engine::new(name, MemMedium::new(alloc, 2_048)?))
}

/// A device of these settings, over logical blocks of zeros.
pub fn disk(alloc: Global, settings: Settings) -> Result<Disk, Fail> {
    Ok(Rig::new(PlainPath::new(alloc, settings, engine(alloc)?)))
}

/// A ring of 4096 bytes, with so many data blocks of one page.
pub fn settings(blocks: u32, timeout: u32, qfull: u32, ooo: bool, tmr: bool) -> Settings
    requires some { 1 ≤ blocks }
    requires most { blocks ≤ 4096 }
    requires timeout { timeout ≤ 1000000 }
    requires qfull { qfull ≤ 1000000 }
{
    Settings {
        ring: 4096,
        blocks,
        flags: Flags {
            ooo,
            read_len: false,
            tmr,
        },
        timeout,
        qfull,
        pages: 1,
    }
}

/// A ring of so many bytes, with data blocks for 1 MiB.
fn wide(ring: u32) -> Settings
    requires least { 4096 ≤ ring }
    requires most { ring ≤ 4194304 }
    requires whole { ring % 4096 ≡ 0 }
{
    Settings {
        ring,
        blocks: 256,
        ..settings(16, 30, 0, true, false)
    }
}

/// Data blocks of two pages.
fn two_pages() -> Settings {
    Settings {
        blocks: 16,
        pages: 2,
        ..settings(16, 30, 0, true, false)
    }
}

/// The lengths of reads are told.
fn with_lengths() -> Settings {
    Settings {
        flags: Flags {
            ooo: true,
            read_len: true,
            tmr: false,
        },
        ..settings(16, 30, 0, true, false)
    }
}

/// The settings of the device that an example is made on.
pub fn settings_of(device: Device) -> Settings {
    match device {
        Device::Usual => settings(16, 30, 0, true, false),
        Device::InOrder => settings(16, 30, 0, false, false),
        Device::Narrow => settings(1, 30, 5, true, false),
        Device::NarrowInOrder => settings(1, 30, 5, false, false),
        Device::Hasty => settings(16, 5, 0, true, false),
        Device::Patient => settings(16, 0, 0, true, false),
        Device::Noting => settings(16, 30, 0, true, true),
        Device::TwoPages => two_pages(),
        Device::Lengths => with_lengths(),
        Device::LongRing => wide(8_192),
        Device::LongestRing => wide(12_288),
    }
}
