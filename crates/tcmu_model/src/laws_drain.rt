//! What soundness says of a drain: that it goes on, that it ends, and what it leaves.
ghost use Rattle.std.specs.Prelude.{◌≡◌, ℕ, ◌<◌, ◌≤◌, List, [], ◌∷◌, ◌++◌, Some, None, true};
ghost use Rattle.tcmu_types.specs.Events.{EntryData};
ghost use Rattle.tcmu_model.specs.Device.{Device, DeviceState};
ghost use Rattle.tcmu_model.specs.Steps.{Step, Run};
ghost use Rattle.tcmu_model.specs.Drain.{drain_event, Drains};
ghost use Rattle.tcmu_model.specs.Sound.{IsSound, times_logged};
ghost use Rattle.tcmu_model.specs.Work.{work, HasOutcomes, DrainGoesOn, DrainEnds};

use crate::Answering;

/// The work falls at each event that a drain chooses, whatever the handler answers. So where the handler can answer each request, each
/// drain ends.
pub fn drain_ends<H: Answering>()
    ensures falls { (d d' : Device) (e : EntryData) → IsSound d.state → drain_event d.state ≡ Some e.event → Step H.relation d e d' → work d'.state < work d.state }
    ensures ends { (device : ℕ) (d : Device) → HasOutcomes H.relation → IsSound d.state → DrainEnds H.relation device d }
{}

/// A drain goes on by one event, and its entries are a run.
pub fn drain_goes_on<H: Answering>()
    ensures first { (device : ℕ) (start : Device) → DrainGoesOn H.relation device start [] start }
    ensures more { (device : ℕ) (start d d' : Device) (sofar : List EntryData) (e : EntryData) → e.device ≡ device → drain_event d.state ≡ Some e.event → Step H.relation d e d' → DrainGoesOn H.relation device start sofar d → DrainGoesOn H.relation device start (sofar ++ e ∷ []) d' }
    ensures run { (device : ℕ) (d d' : Device) (es : List EntryData) → Drains H.relation device d es d' → Run H.relation d es d' }
{}

/// After the drain of an attached device no command is unfinished or delayed, and each accepted one is once in the log.
pub fn drain_empties<H: Answering>()
    ensures unfinished { (device : ℕ) (d d' : Device) (es : List EntryData) → IsSound d.state → d.state.attached ≡ true → Drains H.relation device d es d' → d'.state.unfinished ≡ [] }
    ensures delayed { (device : ℕ) (d d' : Device) (es : List EntryData) → IsSound d.state → d.state.attached ≡ true → Drains H.relation device d es d' → d'.state.delayed ≡ [] }
    ensures complete { (device : ℕ) (d d' : Device) (es : List EntryData) (s : ℕ) → IsSound d.state → d.state.attached ≡ true → Drains H.relation device d es d' → 1 ≤ s → s ≤ d'.state.accepted → times_logged d'.state.log s ≡ 1 }
    ensures at_rest { (d : DeviceState) → IsSound d → d.attached ≡ true → drain_event d ≡ None → (d.unfinished ≡ []) × (d.delayed ≡ []) }
{}
