//! How the medium that a config names is made.
ghost use Rattle.std.specs.Prelude.{◌≡◌, ◌≤◌, IfOk, IfErr, OnOk, IsErrOf, IfSome, true};
ghost use Rattle.std.specs.Option.{option_map};
ghost use Rattle.tcmu_types.specs.Numbered.{Rose};
ghost use Rattle.text_model.specs.ScenarioRules.{IsConfig};
ghost use Rattle.edge.specs.Stores.{FetchGives, fetch_fails, one_more_fetch};
ghost use Rattle.media.specs.Opening.{MakesMedium, Refuses, RefusesFetch};
ghost use Rattle.media.specs.declared.make.MakeFault.TheVariants as fault;

use crate::{Configured, Media, MemMedium};
use device_config::{Config, MediumKind};
use edge::{Failed, FetchOk, Files};
use handler_trait::Medium;
use medium_file::FileMedium;
use std::alloc::Global;
use tcmu_types::{NoMemory, Serials};
use thiserror::Error;

/// Why no medium was made.
#[derive(Clone, Copy, Debug, PartialEq, Eq, Error)]
pub enum MakeFault {
    /// The config's file could not be fetched: no medium can be made of what stands there, it is out, or the fetch itself failed.
    #[error("the file of a medium could not be opened")]
    Open,
    /// There was no memory for the medium, for its list of calls that fail, or for the fetch.
    #[error("no memory")]
    NoMemory,
}

impl From<NoMemory> for MakeFault {
    ghost from_gives = { λ _ e. e ≡ fault.NoMemory };

    fn from(_: NoMemory) -> MakeFault {
        MakeFault::NoMemory
    }
}

/// Fetches the file of this name. It is out from then on: no other fetch gets it until it is given back.
fn fetch_file<F: Files>(alloc: Global, name: &[u8], files: &mut F) -> Result<F::File, MakeFault>
    ensures fetched { IfOk result (λ s. FetchGives name.now (F.File.state s) (F.state files.old) (F.state files.new)) }
    ensures refused { IfErr result (λ e. RefusesFetch e name.now (F.state files.old) (F.state files.new) (F.faults files.old) (F.faults files.new)) }
    ensures faults { F.faults files.old ≤ F.faults files.new }
    ensures calm { OnOk result (F.faults files.new ≡ F.faults files.old) }
    ensures wanting { IsErrOf result MakeFault.NoMemory → F.faults files.new ≡ F.faults files.old }
{
    match files.fetch(alloc, name) {
        Ok(FetchOk::File(file)) => Ok(file),
        Ok(FetchOk::NoMemory) => Err(MakeFault::NoMemory),
        Err(Failed) => Err(MakeFault::Open),
    }
}

/// The medium that a config names, of which nothing is lost and no call was made. A file is fetched, and is out from then on: no other
/// fetch gets it until it is given back. A medium in memory is of zeros, and makes no fetch. The list of calls that fail is copied before
/// the fetch, so that want of memory leaves the files as they were.
pub fn make_medium<F: Files>(
    alloc: Global,
    config: &Config,
    files: &mut F,
) -> Result<Media<F::File>, MakeFault>
    requires { IsConfig config.now }
    ensures opened { IfOk result (λ m. MakesMedium config.now (F.state files.old) (F.state files.new) (⟦<Media<F::File> as Medium>⟧.state m)) }
    ensures refused { IfErr result (λ e. Refuses e config.now (F.state files.old) (F.state files.new) (F.faults files.old) (F.faults files.new)) }
    ensures faults { F.faults files.old ≤ F.faults files.new }
    ensures calm { OnOk result (F.faults files.new ≡ F.faults files.old) }
    ensures wanting { IsErrOf result MakeFault.NoMemory → F.faults files.new ≡ F.faults files.old }
    ensures unfailed { IfOk result (λ m. ⟦<Media<F::File> as Medium>⟧.faults m ≡ 0) }
{
    let fails = Serials::from_slice(alloc, config.fails.as_slice())?;
    match &config.kind {
        MediumKind::Memory(blocks) => {
            let memory = MemMedium::new(alloc, *blocks)?;
            Ok(Media::Memory(Configured::new(memory, config.protected, fails)))
        }
        MediumKind::File(name) => {
            let file = FileMedium::new(fetch_file(alloc, name.as_slice(), files)?);
            Ok(Media::File(Configured::new(file, config.protected, fails)))
        }
    }
}
