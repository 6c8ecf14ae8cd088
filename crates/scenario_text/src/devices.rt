//! What a line asks of the devices before it: whether a file is taken, and whether a device is small enough for a dump. A scenario has
//! at most 16 of them, so a file is found by a scan.
ghost use Rattle.std.specs.Prelude.{◌≡◌};
ghost use Rattle.std.specs.List.{list_any};
ghost use Rattle.text_model.specs.Said.{same_file};
ghost use Rattle.text_model.specs.Scenario.{is_small, small_at};
ghost use Rattle.device_config.specs.Views.{medium_data};

use crate::kinds::DeviceLine;
use device_config::MediumKind;
use tcmu_types::Settings;

fn same_file(a: &MediumKind, b: &MediumKind) -> bool
    ensures { result ≡ same_file (medium_data a.now) (medium_data b.now) }
{
    match a {
        MediumKind::File(name) => match b {
            MediumKind::File(other) => name.as_slice() == other.as_slice(),
            MediumKind::Memory(_) => false,
        },
        MediumKind::Memory(_) => false,
    }
}

fn in_same_file(device: &DeviceLine, kind: &MediumKind) -> bool
    ensures { result ≡ same_file device.now.config.kind (medium_data kind.now) }
{
    same_file(&device.config.kind, kind)
}

/// Whether a device is kept in the same file. Memory is no file.
pub fn any_in_file(devices: &[DeviceLine], kind: &MediumKind) -> bool
    ensures { result ≡ list_any (λ d. same_file d.config.kind (medium_data kind.now)) devices.now }
{
    devices.iter().any(|device| in_same_file(device, kind))
}

fn is_small(settings: &Settings) -> bool
    ensures { result ≡ is_small settings.now }
{
    if 65_536 < settings.ring {
        return false;
    }
    settings.blocks as u64 * settings.pages as u64 <= 64
}

/// Whether the device of this number may be dumped.
pub fn small_at(devices: &[DeviceLine], at: u32) -> bool
    ensures { result ≡ small_at devices.now at }
{
    match devices.get(at as usize) {
        Some(device) => is_small(&device.settings),
        None => false,
    }
}
