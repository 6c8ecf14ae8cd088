//! What is fixed when a device is kept.
use scenario_text::Script;
use std::marker::Model;
use std::snapshot::Snapshot;
use tcmu_path::Path;

/// What a device is to be asked, its number, and the device as it opened, which takes no bytes.
#[derive(Drop)]
pub struct Plan<P: Path> {
    /// The lines of its initiators and of its administration.
    pub script: Script,
    /// The number that its entries have.
    pub device: u32,
    /// Seen by contracts alone.
    pub opening: Snapshot<P>,
}

impl<P: Path> Model for Plan<P> {
    ghost use Rattle.journal_kept.specs.Asked.{PlanData};

    ghost Value = { PlanData };

    ghost view = { λ a. record { script = a.script; device = a.device; opening = P.device a.opening.value } };
}
