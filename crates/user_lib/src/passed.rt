//! Items that were passed, as the user side remembers them.
ghost use Rattle.std.specs.Prelude.{◌≡◌, if◌then◌else◌};
ghost use Rattle.region_model.specs.UserSteps.{is_cmd};

use std::marker::Model;
use tcmu_types::ItemKind;

/// An item: its kind, and its length in bytes.
#[derive(Debug, Drop)]
pub(crate) struct PassedItem {
    pub(crate) kind: ItemKind,
    pub(crate) len: u32,
}

impl Model for PassedItem {
    ghost use Rattle.region_model.specs.Sides.{Recorded};

    ghost Value = { Recorded };

    ghost view = { λ a. record { kind = a.kind; len = a.len } };
}

impl PassedItem {
    /// Whether it is a command.
    pub(crate) fn is_cmd(&self) -> bool
        ensures { result ≡ is_cmd self.now }
    {
        match self.kind {
            ItemKind::Cmd => true,
            ItemKind::Pad | ItemKind::Tmr => false,
        }
    }

    /// How many commands it is.
    pub(crate) fn commands(&self) -> u64
        ensures { result ≡ (if is_cmd self.now then 1 else 0) }
    {
        if self.is_cmd() { 1 } else { 0 }
    }
}
