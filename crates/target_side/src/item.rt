//! Items of the ring, as the target remembers them.
ghost use Rattle.std.specs.Prelude.{◌≡◌};
ghost use Rattle.region_model.specs.UserSteps.{is_cmd};

use std::marker::Model;
use tcmu_types::ItemKind;

/// An item that is not cleared: where it begins, as an offset in the ring, its kind, and its length in bytes.
#[derive(Clone, Copy, Debug, PartialEq, Eq)]
pub struct RingItem {
    pub at: u32,
    pub kind: ItemKind,
    pub len: u32,
}

/// An item that is laid: its kind, and its length in bytes.
#[derive(Debug, Drop)]
pub(crate) struct LaidItem {
    pub(crate) kind: ItemKind,
    pub(crate) len: u32,
}

impl Model for LaidItem {
    ghost use Rattle.region_model.specs.Sides.{Recorded};

    ghost Value = { Recorded };

    ghost view = { λ a. record { kind = a.kind; len = a.len } };
}

impl LaidItem {
    /// Its length in bytes.
    pub(crate) fn len(&self) -> u32
        ensures { result ≡ self.now.len }
    {
        self.len
    }

    /// Its kind.
    pub(crate) fn kind(&self) -> ItemKind
        ensures { result ≡ self.now.kind }
    {
        self.kind
    }

    /// Whether it is a command's.
    pub(crate) fn is_command(&self) -> bool
        ensures { result ≡ is_cmd self.now }
    {
        match self.kind {
            ItemKind::Cmd => true,
            ItemKind::Pad | ItemKind::Tmr => false,
        }
    }
}
