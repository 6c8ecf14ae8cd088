//! What the completions of a device, and the requests to its handler, owe to its journal.
ghost use Rattle.std.specs.Prelude.{◌≡◌, ℕ, List, ◌++◌};
ghost use Rattle.tcmu_types.specs.Data.{CommandData, ReplyData, DoneData, SettingsData};
ghost use Rattle.tcmu_types.specs.Events.{EntryData};
ghost use Rattle.tcmu_types.specs.Events as ev;
ghost use Rattle.tcmu_types.specs.declared.answer.Handle.TheVariants as handle;
ghost use Rattle.tcmu_model.specs.MediumState.{MediumState};
ghost use Rattle.tcmu_model.specs.Device.{Device, opening};
ghost use Rattle.tcmu_model.specs.Steps.{Step, Run};
ghost use Rattle.tcmu_types.specs.Lists.{Every};
ghost use Rattle.tcmu_model.specs.Journals.{WasAccepted, moment, IsExplainedAt, IsOfJournal, WasAsked};

use crate::Answering;

/// After each run, every completion is of a command that the journal accepted under its serial, for that command's initiator and tag, and
/// an entry of the journal is its cause. Each command that is unfinished or delayed is one that was accepted so, and none of them is
/// overdue. The clock is the sum of the ticks. A serial names one command.
pub fn journal_law<H: Answering>()
    ensures explained { (s : SettingsData) (name : List ℕ) (medium : MediumState) (es : List EntryData) (d : Device) → Run H.relation (opening s name medium) es d → IsOfJournal es d.state }
    ensures clock { (s : SettingsData) (name : List ℕ) (medium : MediumState) (es : List EntryData) (d : Device) → Run H.relation (opening s name medium) es d → d.state.now ≡ moment es }
    ensures sender { (s : SettingsData) (name : List ℕ) (medium : MediumState) (es : List EntryData) (d : Device) → Run H.relation (opening s name medium) es d →
        Every (λ e. (c : CommandData) × WasAccepted es e.serial c × (e.init ≡ c.init) × (e.tag ≡ c.tag)) d.state.log }
    ensures one { (s : SettingsData) (name : List ℕ) (medium : MediumState) (es : List EntryData) (d : Device) (serial : ℕ) (c c' : CommandData) → Run H.relation (opening s name medium) es d →
        WasAccepted es serial c → WasAccepted es serial c' → c ≡ c' }
{}

/// The entry that logs a completion is its cause: a clean or a reset that finds the reply of the command's own handler, the tick by
/// which the clock comes to its deadline or to the end of its wait, or a reset that ends it.
pub fn cause_law<H: Answering>()
    ensures { (s : SettingsData) (name : List ℕ) (medium : MediumState) (es : List EntryData) (d d' : Device) (e : EntryData) (cs : List DoneData) →
        Run H.relation (opening s name medium) es d → Step H.relation d e d' → d'.state.log ≡ d.state.log ++ cs → Every (IsExplainedAt s es e) cs }
{}

/// A handler is asked for what the initiator of the command sent, no more and no less, at the device's name and medium.
pub fn asked_law<H: Answering>()
    ensures { (s : SettingsData) (name : List ℕ) (medium : MediumState) (es : List EntryData) (d d' : Device) (e : EntryData) (serial : ℕ) (reply : ReplyData) →
        Run H.relation (opening s name medium) es d → Step H.relation d e d' → e.event ≡ ev.Handle serial → e.answer ≡ ev.Answered (handle.Done reply) →
        WasAsked H.relation es name d.medium serial reply d'.medium }
{}
