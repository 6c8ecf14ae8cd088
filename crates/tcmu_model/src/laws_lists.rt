//! The block lists of a run.
ghost use Rattle.std.specs.Prelude.{◌≡◌, ℕ, List, [], ◌∷◌, ◌++◌};
ghost use Rattle.tcmu_types.specs.Data.{SettingsData};
ghost use Rattle.tcmu_types.specs.Rules.{IsSettings};
ghost use Rattle.tcmu_types.specs.Events.{EntryData};
ghost use Rattle.tcmu_model.specs.MediumState.{MediumState};
ghost use Rattle.tcmu_model.specs.Device.{DeviceState, Device, opening};
ghost use Rattle.tcmu_model.specs.Steps.{Step, Run};
ghost use Rattle.tcmu_model.specs.BlockLists.{Taken, lists_after, HasLists, BlockRun};
ghost use Rattle.tcmu_model.specs.Owned.{ListsSound};
ghost use Rattle.tcmu_model.specs.Sound.{IsSound};

use crate::Answering;

/// A run has block lists at every point, and they go on by one step. From the opening, where there are none, they are sound for the
/// device at the end of each run: no two unfinished commands share a block, and each has as many as it needs.
pub fn block_lists_law<H: Answering>()
    ensures exist { (d d' : Device) (lists : List Taken) (es : List EntryData) → Run H.relation d es d' → HasLists H.relation d lists es d' }
    ensures run { (d d' : Device) (lists lists' : List Taken) (es : List EntryData) → BlockRun H.relation d lists es d' lists' → Run H.relation d es d' }
    ensures more { (d m d' : Device) (lists lists' : List Taken) (es : List EntryData) (e : EntryData) → BlockRun H.relation d lists es m lists' → Step H.relation m e d' →
        BlockRun H.relation d lists (es ++ e ∷ []) d' (lists_after m.state lists' e.event e.answer d'.state) }
    ensures step { (d d' : Device) (lists : List Taken) (e : EntryData) → IsSound d.state → ListsSound d.state lists → Step H.relation d e d' →
        ListsSound d'.state (lists_after d.state lists e.event e.answer d'.state) }
    ensures sound { (s : SettingsData) (name : List ℕ) (medium : MediumState) (es : List EntryData) (d : Device) (lists : List Taken) → IsSettings s →
        BlockRun H.relation (opening s name medium) [] es d lists → ListsSound d.state lists }
{}

/// The entries of a run and the device's settings tell its block lists, and its state: whatever its name, its medium and its handler.
pub fn block_lists_alone<H: Answering, G: Answering>()
    ensures { (s : SettingsData) (name name' : List ℕ) (medium medium' : MediumState) (es : List EntryData) (d d' : Device) (lists lists' : List Taken) →
        BlockRun H.relation (opening s name medium) [] es d lists → BlockRun G.relation (opening s name' medium') [] es d' lists' → (d.state ≡ d'.state) × (lists ≡ lists') }
{}
