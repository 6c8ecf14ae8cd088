//! A medium in memory or over a file.
ghost use Rattle.std.specs.Prelude.{◌≡◌, ◌+◌, ◌*◌, ◌%◌, ◌<◌, ◌≤◌, length, is_err, false, MatchOption};
ghost use Rattle.scsi_model.specs.Medium.{has_store};
ghost use Rattle.media.specs.Stored.{IsStoredIn};
ghost use Rattle.media.specs.declared.medium.Media.TheVariants.{Memory, File};

use crate::{Configured, MemMedium};
use edge::{Failed, Store};
use handler_trait::Medium;
use medium_file::FileMedium;

/// A medium in memory or over a file, each with a protected bit and a list of calls that fail.
#[derive(Drop)]
pub enum Media<S: Store + Drop> {
    /// In memory.
    Memory(Configured<MemMedium>),
    /// Over the store of a file.
    File(Configured<FileMedium<S>>),
}

impl<S: Store + Drop> Media<S> {
    /// The store of a file, as the calls left it, to be given back to the files; none of a medium in memory, whose bytes are gone then.
    pub fn into_file(self) -> Option<S>
        ensures { let m = ⟦<Media<S> as Medium>⟧.state self in MatchOption result (has_store m.below.layer ≡ false) (λ s. IsStoredIn (S.state s) m) }
    {
        match self {
            Media::Memory(medium) => {
                medium.into_below().discard();
                None
            }
            Media::File(medium) => Some(medium.into_below().into_store()),
        }
    }
}

impl<S: Store + Drop> Medium for Media<S> {
    ghost state = { λ m. elim m [ Memory below ↦ ⟦<Configured<MemMedium> as Medium>⟧.state below | File below ↦ ⟦<Configured<FileMedium<S>> as Medium>⟧.state below ] };

    ghost faults = { λ m. elim m [ Memory below ↦ ⟦<Configured<MemMedium> as Medium>⟧.faults below | File below ↦ ⟦<Configured<FileMedium<S>> as Medium>⟧.faults below ] };

    fn blocks(&self) -> u64 {
        match self {
            Media::Memory(medium) => medium.blocks(),
            Media::File(medium) => medium.blocks(),
        }
    }

    fn protected(&self) -> bool {
        match self {
            Media::Memory(medium) => medium.protected(),
            Media::File(medium) => medium.protected(),
        }
    }

    fn read(&mut self, at: u64, into: &mut [u8]) -> Result<(), Failed> {
        match self {
            Media::Memory(medium) => medium.read(at, into),
            Media::File(medium) => medium.read(at, into),
        }
    }

    fn write(&mut self, at: u64, bytes: &[u8]) -> Result<(), Failed> {
        match self {
            Media::Memory(medium) => medium.write(at, bytes),
            Media::File(medium) => medium.write(at, bytes),
        }
    }

    fn fill(&mut self, at: u64, block: &[u8; 512], count: u64) -> Result<(), Failed> {
        match self {
            Media::Memory(medium) => medium.fill(at, block, count),
            Media::File(medium) => medium.fill(at, block, count),
        }
    }

    fn sync(&mut self) -> Result<(), Failed> {
        match self {
            Media::Memory(medium) => medium.sync(),
            Media::File(medium) => medium.sync(),
        }
    }
}
