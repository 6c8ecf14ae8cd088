//! Laws of live schedules.
ghost use Rattle.std.specs.Prelude.{◌≡◌, ℕ, ◌<◌, true, List, [], ◌∷◌, ◌++◌, length, slice_get, Some};
ghost use Rattle.tcmu_types.specs.Events.{EntryData};
ghost use Rattle.tcmu_types.specs.Lists.{Every};
ghost use Rattle.tcmu_model.specs.Device.{Device};
ghost use Rattle.tcmu_model.specs.Sound.{IsSound};
ghost use Rattle.tcmu_model.specs.Steps.{Run};
ghost use Rattle.tcmu_model.specs.Work.{HasOutcomes};
ghost use Rattle.text_model.specs.Journals.{Journaled, entries_of, IsLegalEach};
ghost use Rattle.text_model.specs.Replay.{lines_of, Plays};
ghost use Rattle.text_model.specs.ScenarioData.{ScenarioData};
ghost use Rattle.text_model.specs.ScenarioRules.{IsScript};
ghost use Rattle.text_model.specs.Schedule.{is_work, sent, admin_made, IsSchedule, HasSchedule, StandsAttached, AreSchedules};
ghost use Rattle.text_model.specs.Script.{InitLineData, ScriptData};
ghost use Rattle.text_model.specs.Several.{ReplaysEach};

use tcmu_model::Answering;

/// Each script has a schedule from each sound device, where the handler can answer each request. A schedule is a legal journal: under the
/// name of each initiator just its commands are sent, in order, and the administration's events are made in order; and wherever the target
/// or the user side works, the device is attached.
pub fn schedule_law<H: Answering>()
    ensures exists { (device : ℕ) (x : ScriptData) (d : Device) → IsScript x → IsSound d.state → HasOutcomes H.relation → HasSchedule H.relation device x d }
    ensures legal { (device : ℕ) (x : ScriptData) (d d' : Device) (es : List EntryData) → IsSchedule H.relation device x d es d' → Run H.relation d es d' }
    ensures sends { (device : ℕ) (x : ScriptData) (d d' : Device) (es : List EntryData) (k : ℕ) (i : InitLineData) → IsScript x → IsSchedule H.relation device x d es d' → slice_get x.inits k ≡ Some i → sent i.name es ≡ i.commands }
    ensures admin { (device : ℕ) (x : ScriptData) (d d' : Device) (es : List EntryData) → IsSchedule H.relation device x d es d' → admin_made es ≡ x.admin }
    ensures attached { (device : ℕ) (x : ScriptData) (d d' : Device) (before later : List EntryData) (e : EntryData) → IsSchedule H.relation device x d (before ++ e ∷ later) d' → is_work e.event ≡ true → StandsAttached H.relation d before }
{}

/// The events of a schedule, as lines on its own device and with the drain behind them, make that schedule again; and so do those of
/// several devices, in whichever order their entries stand.
pub fn schedule_again_law<H: Answering>()
    ensures one { (x : ScriptData) (d d' : Device) (es : List EntryData) → IsSchedule H.relation 0 x d es d' → ReplaysEach (Plays H.relation) (d ∷ []) (lines_of es) es (d' ∷ []) }
    ensures each { (s : ScenarioData) (opened ends : List Device) (js : List Journaled) → length ends ≡ length opened → Every (λ j. j.entry.device < length opened) js → IsLegalEach H.relation opened js ends → AreSchedules H.relation s opened js ends → ReplaysEach (Plays H.relation) opened (lines_of (entries_of js)) (entries_of js) ends }
{}
