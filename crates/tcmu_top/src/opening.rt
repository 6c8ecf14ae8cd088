//! The devices of a scenario, as they open over files, and what they give back.
ghost use Rattle.std.specs.Prelude.{◌≡◌, ◌≢◌, ◌≤◌, ◌<◌, false, [], ◌∷◌, length, None, IfOk, IfErr, OnOk, OnErr, IsErrOf};
ghost use Rattle.std.specs.List.{All, AllPairs};
ghost use Rattle.text_model.specs.Said.{same_file};
ghost use Rattle.text_model.specs.ScenarioRules.{IsConfig, IsDeviceLine};
ghost use Rattle.device_config.specs.Views.{medium_data};
ghost use Rattle.device_set.specs.Sets.{number_of};
ghost use Rattle.media.specs.Opening.{Refuses};
ghost use Rattle.tcmu_top.specs.Playing.{states_of};
ghost use Rattle.tcmu_top.specs.Opened.{Made, Adds, AreOpen, Unopened, Returns, KeepsEach};

use block_engine::Engine;
use device_config::MediumKind;
use device_set::DeviceSet;
use edge::{Files, Store};
use media::{MakeFault, Media, make_medium};
use scenario_text::DeviceLine;
use std::alloc::Global;
use tcmu_path::PlainPath;

/// How a device of a scenario is kept: an engine over memory, or over the store of a file.
pub type ServedDevice<S> = PlainPath<Engine<Media<S>>>;

/// Opens the device of a device line.
fn open_device<F: Files>(
    alloc: Global,
    device: &DeviceLine,
    files: &mut F,
) -> Result<ServedDevice<F::File>, MakeFault>
    requires { IsConfig device.now.config }
    ensures opened { IfOk result (Made device.now (F.state files.old) (F.state files.new)) }
    ensures refused { IfErr result (λ e. Refuses e device.now.config (F.state files.old) (F.state files.new) (F.faults files.old) (F.faults files.new)) }
    ensures faults { F.faults files.old ≤ F.faults files.new }
    ensures calm { OnOk result (F.faults files.new ≡ F.faults files.old) }
    ensures wanting { IsErrOf result MakeFault.NoMemory → F.faults files.new ≡ F.faults files.old }
{
    let medium = make_medium(alloc, &device.config, files)?;
    let engine = Engine::new(device.name.copy(), medium);
    Ok(PlainPath::new(alloc, device.settings, engine))
}

/// Opens the device of a device line after those that are open. At an `Err` its file is given back as it was.
fn open_next<F: Files>(
    alloc: Global,
    device: &DeviceLine,
    set: &mut DeviceSet<ServedDevice<F::File>>,
    files: &mut F,
) -> Result<(), MakeFault>
    requires config { IsConfig device.now.config }
    requires new { number_of device.now.name set.old ≡ None }
    requires room { length set.old < 16 }
    ensures opened { OnOk result (Adds device.now (F.state files.old) (F.state files.new) set.old set.new) }
    ensures refused { IfErr result (λ e. Unopened e (device.now ∷ []) (F.state files.old) (F.state files.new) (F.faults files.old) (F.faults files.new)) }
    ensures same { OnErr result (set.new ≡ set.old) }
    ensures faults { F.faults files.old ≤ F.faults files.new }
    ensures calm { OnOk result (F.faults files.new ≡ F.faults files.old) }
    ensures wanting { IsErrOf result MakeFault.NoMemory → F.faults files.new ≡ F.faults files.old }
{
    let opened = open_device(alloc, device, files)?;
    match set.insert(device.name.copy(), opened) {
        Ok(_) => Ok(()),
        Err(refused) => {
            keep_file(device, refused.value, files);
            Err(MakeFault::NoMemory)
        }
    }
}

/// Opens the devices of a scenario, in order. At an `Err` each file is given back as it was.
pub fn open_devices<F: Files>(
    alloc: Global,
    devices: &[DeviceLine],
    files: &mut F,
) -> Result<DeviceSet<ServedDevice<F::File>>, MakeFault>
    requires few { length devices.now ≤ 16 }
    requires lines { All IsDeviceLine devices.now }
    requires names { AllPairs (λ d e. d.name ≢ e.name) devices.now }
    requires files { AllPairs (λ d e. same_file d.config.kind e.config.kind ≡ false) devices.now }
    ensures opened { IfOk result (λ set. AreOpen (F.state files.old) (F.state files.new) devices.now (states_of (λ d. d) set)) }
    ensures refused { IfErr result (λ e. Unopened e devices.now (F.state files.old) (F.state files.new) (F.faults files.old) (F.faults files.new)) }
    ensures faults { F.faults files.old ≤ F.faults files.new }
    ensures calm { OnOk result (F.faults files.new ≡ F.faults files.old) }
    ensures wanting { IsErrOf result MakeFault.NoMemory → F.faults files.new ≡ F.faults files.old }
{
    let mut set = DeviceSet::new(alloc);
    for device in devices {
        if let Err(fault) = open_next(alloc, device, &mut set, files) {
            keep_files(&devices[..set.len() as usize], set, files);
            return Err(fault);
        }
    }
    Ok(set)
}

/// What bears the medium of a device line; a function of its own for its clause.
fn medium_kind(device: &DeviceLine) -> &MediumKind
    ensures { medium_data result.now ≡ device.now.config.kind }
{
    &device.config.kind
}

/// Gives the store of a device back under its file's name. A device in memory has none.
fn keep_file<F: Files>(device: &DeviceLine, opened: ServedDevice<F::File>, files: &mut F)
    ensures kept { Returns device.now.config.kind opened.medium (F.state files.old) (F.state files.new) }
    ensures faults { F.faults files.new ≡ F.faults files.old }
{
    let Some(store) = opened.into_handler().into_medium().into_file() else {
        return;
    };
    if let MediumKind::File(name) = medium_kind(device) {
        files.keep(name.as_slice(), store);
    }
}

/// Gives the stores of all devices back, the last first.
pub fn keep_files<F: Files>(
    devices: &[DeviceLine],
    mut set: DeviceSet<ServedDevice<F::File>>,
    files: &mut F,
)
    requires count { length devices.now ≡ length set }
    ensures kept { KeepsEach devices.now (states_of (λ d. d) set) (F.state files.old) (F.state files.new) }
    ensures faults { F.faults files.new ≡ F.faults files.old }
{
    while let Some(opened) = set.pop() {
        keep_file(&devices[set.len() as usize], opened, files);
    }
}
