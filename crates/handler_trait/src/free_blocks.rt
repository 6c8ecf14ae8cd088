//! The logical blocks of a store that failed calls may have spoiled.
ghost use Rattle.std.specs.Prelude.{◌≡◌, []};
ghost use Rattle.scsi_model.specs.Base.{without_blocks, with_blocks};
ghost use Rattle.handler_trait.specs.Freed.{free_behind};

use std::marker::Model;
use std::snapshot::Snapshot;

/// The last change of the free blocks, and what stood before it. Nothing of it is kept at run time but its kind.
#[derive(Drop)]
enum Change {
    None,
    Wrote {
        first: Snapshot<u64>,
        count: Snapshot<u64>,
        before: Snapshot<Change>,
    },
    Failed {
        first: Snapshot<u64>,
        count: Snapshot<u64>,
        before: Snapshot<Change>,
    },
}

/// The numbers of the logical blocks of a store whose bytes are not known: a call that was to write them failed, and none that succeeded
/// has written them since. Contracts alone see them; no number is kept at run time.
#[derive(Drop)]
pub struct FreeBlocks {
    last: Change,
}

impl Model for FreeBlocks {
    ghost use Rattle.std.specs.Prelude.{ℕ, List};
    ghost use Rattle.handler_trait.specs.Freed.{free_behind};

    ghost Value = { List ℕ };

    ghost view = { λ f. free_behind f.last };
}

impl FreeBlocks {
    /// None is free yet.
    pub fn new() -> FreeBlocks
        ensures { result ≡ [] }
    {
        FreeBlocks { last: Change::None }
    }

    /// A call wrote `count` blocks from one on.
    pub fn wrote(&mut self, first: u64, count: u64)
        ensures { self.new ≡ without_blocks first count self.old }
    {
        self.last = Change::Wrote {
            first: Snapshot::of(&first),
            count: Snapshot::of(&count),
            before: Snapshot::of(&self.last),
        };
    }

    /// A call that was to write `count` blocks from one on failed.
    pub fn failed(&mut self, first: u64, count: u64)
        ensures { self.new ≡ with_blocks first count self.old }
    {
        self.last = Change::Failed {
            first: Snapshot::of(&first),
            count: Snapshot::of(&count),
            before: Snapshot::of(&self.last),
        };
    }
}
