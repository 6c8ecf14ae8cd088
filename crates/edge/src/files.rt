//! Files by name, of which media are made.
ghost use Rattle.std.specs.Prelude.{◌≡◌, true, Option, ℕ, is_err, IfOk, IfSome, OnErr};
ghost use Rattle.std.specs.Option.{option_map};
ghost use Rattle.tcmu_types.specs.Numbered.{HasCause};
ghost use Rattle.edge.specs.Outside.{CountsFailed};
ghost use Rattle.edge.specs.declared.files.FetchOk.TheVariants.{File, NoMemory};
ghost use Rattle.edge.specs.Stores.{FilesState, Content, store_of, FetchGives, fetch_fails, one_more_fetch, after_keep, is_medium_size};

use crate::{Failed, Store};
use std::alloc::Global;

/// What a fetch that did not fail gives.
#[derive(Debug, Drop)]
pub enum FetchOk<F: Drop> {
    /// The store of the file, which is out from then on.
    File(F),
    /// Memory was wanting; nothing changed.
    NoMemory,
}

/// Files by name: a fetch takes a file out, and `keep` gives it back.
pub trait Files {
    type File: Store + Send + Drop;

    /// Where each name stands, and the numbered fetches, where they are told.
    ghost state: { Self → Option FilesState };

    /// How many fetches have failed; the count stops at 2^64 - 1.
    ghost faults: { Self → ℕ };

    /// Takes the file of this name out. A name that is missing or out, and a file whose length is not a multiple of 512 from 512 to
    /// 2^44 bytes, is a fault.
    fn fetch(&mut self, alloc: Global, name: &[u8]) -> Result<FetchOk<Self::File>, Failed>
        ensures fetched { IfOk result (λ given. elim given [ File f ↦ FetchGives name.now (Self.File.state f) (state self.old) (state self.new) | NoMemory ↦ state self.new ≡ state self.old ]) }
        ensures failed { OnErr result (IfSome (state self.old) (λ f. fetch_fails name.now f ≡ true)) }
        ensures counted { OnErr result (state self.new ≡ option_map one_more_fetch (state self.old)) }
        ensures cause { HasCause (faults self.old) (faults self.new) result }
        ensures count { CountsFailed (faults self.old) (is_err result) (faults self.new) };

    /// Gives a file back that `fetch` took out: from now on its name stands for what the store tells. At a name that is not out the file is
    /// dropped, and nothing changes.
    fn keep(&mut self, name: &[u8], file: Self::File)
        ensures kept { (c : Content) → Self.File.state file ≡ store_of c → state self.new ≡ option_map (after_keep name.now c) (state self.old) }
        ensures faults { faults self.new ≡ faults self.old };
}

/// Whether so many bytes are whole logical blocks of 512, from one to 2^35 of them.
pub(crate) fn has_medium_size(length: u64) -> bool
    ensures { result ≡ is_medium_size length }
{
    length % 512 == 0 && 512 <= length && length <= 1 << 44
}
