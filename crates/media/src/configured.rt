//! A medium that may be protected, and of which the listed calls fail.
ghost use Rattle.std.specs.Prelude.{◌≡◌, ◌+◌, ◌*◌, ◌≤◌, length};
ghost use Rattle.media.specs.Configured.{configured};

use edge::{Failed, ListedCalls};
use handler_trait::Medium;
use std::marker::Model;
use tcmu_types::Serials;

/// A medium with a protected bit of its own, in place of that below, of which the listed calls fail. Its calls of read, write, fill and
/// sync are numbered together from 1. A listed call changes no byte and does not reach what is below; any other is passed on, and fails
/// where what is below fails. Contracts see the bit, the list, the calls made, the faults, and what is below.
#[derive(Debug, Drop)]
pub struct Configured<M: Medium + Drop> {
    below: M,
    protected: bool,
    own: ListedCalls,
}

impl<M: Medium + Drop> Model for Configured<M> {
    ghost use Rattle.media.specs.Configured.{ConfiguredData};

    ghost Value = { ConfiguredData M };

    ghost view = { λ m. record { protected = m.protected; fails = m.own.fails; calls = m.own.calls; faults = m.own.faults; below = m.below } };
}

impl<M: Medium + Drop> Configured<M> {
    /// The medium below, with this protected bit and these calls that fail. It has made no call yet.
    pub fn new(below: M, protected: bool, fails: Serials) -> Configured<M>
        ensures state { ⟦<Configured<M> as Medium>⟧.state result ≡ configured protected fails.items 0 (M.state below) }
        ensures faults { ⟦<Configured<M> as Medium>⟧.faults result ≡ 0 }
        ensures below { result.below ≡ below }
    {
        Configured {
            below,
            protected,
            own: ListedCalls::new(fails),
        }
    }

    /// What is below, as the calls left it.
    pub(crate) fn into_below(self) -> M
        ensures { result ≡ self.below }
    {
        let Configured {
            below,
            protected: _,
            own: _,
        } = self;
        below
    }
}

impl<M: Medium + Drop> Medium for Configured<M> {
    ghost state = { λ m. configured m.protected m.fails m.calls (M.state m.below) };

    ghost faults = { λ m. m.faults };

    fn blocks(&self) -> u64 {
        self.below.blocks()
    }

    fn protected(&self) -> bool {
        self.protected
    }

    fn read(&mut self, at: u64, into: &mut [u8]) -> Result<(), Failed> {
        self.own.begin()?;
        let reached = self.below.read(at, into);
        self.own.end(reached)
    }

    fn write(&mut self, at: u64, bytes: &[u8]) -> Result<(), Failed> {
        self.own.begin()?;
        let reached = self.below.write(at, bytes);
        self.own.end(reached)
    }

    fn fill(&mut self, at: u64, block: &[u8; 512], count: u64) -> Result<(), Failed> {
        self.own.begin()?;
        let reached = self.below.fill(at, block, count);
        self.own.end(reached)
    }

    fn sync(&mut self) -> Result<(), Failed> {
        self.own.begin()?;
        let reached = self.below.sync();
        self.own.end(reached)
    }
}
