//! What holds of every device that its events lead to, from its opening on.
ghost use Rattle.std.specs.Prelude.{◌≡◌, ℕ, List, [], ◌∷◌, ◌++◌, Bool, Some};
ghost use Rattle.tcmu_types.specs.Data.{CommandData, ReplyData, SettingsData};
ghost use Rattle.tcmu_types.specs.Rules.{IsCommand, IsSettings};
ghost use Rattle.tcmu_types.specs.Events.{EntryData};
ghost use Rattle.tcmu_model.specs.MediumState.{MediumState};
ghost use Rattle.tcmu_model.specs.Device.{Unfinished, DeviceState, Device, opening_state, opening};
ghost use Rattle.tcmu_model.specs.Events.{submit_answer, after_submit, enter_answer, after_enter, after_dispatch, command_out, after_handle, after_respond, after_publish, after_clean, after_tick, after_block, after_reset, after_restart, tmr_answer, after_tmr};
ghost use Rattle.tcmu_model.specs.Steps.{Asked, Step, Run};
ghost use Rattle.tcmu_model.specs.Sound.{IsSound, ReplyFits};

/// What a handler may answer, as a type's own relation: from a device's name, the medium before and what is asked, to the reply and
/// the medium after. The laws of runs are generic in it.
pub trait Answering {
    ghost relation: { List ℕ → MediumState → Asked → ReplyData → MediumState → Type 0 };
}

/// A device is sound as it opens.
pub fn opening_is_sound()
    ensures { (s : SettingsData) → IsSettings s → IsSound (opening_state s) }
{}

/// Every event keeps a device sound.
pub fn events_keep_sound()
    ensures submit { (d : DeviceState) (c : CommandData) → IsSound d → IsCommand c → IsSound (after_submit d c (submit_answer d c)) }
    ensures enter { (d : DeviceState) → IsSound d → IsSound (after_enter d (enter_answer d)) }
    ensures dispatch { (d : DeviceState) → IsSound d → IsSound (after_dispatch d) }
    ensures handle { (d : DeviceState) (s : ℕ) (reply : ReplyData) (u : Unfinished) → IsSound d → command_out d s ≡ Some u → ReplyFits u.command reply → IsSound (after_handle d s reply) }
    ensures respond { (d : DeviceState) (s : ℕ) → IsSound d → IsSound (after_respond d s) }
    ensures publish { (d : DeviceState) → IsSound d → IsSound (after_publish d) }
    ensures clean { (d : DeviceState) → IsSound d → IsSound (after_clean d) }
    ensures tick { (d : DeviceState) (n : ℕ) → IsSound d → IsSound (after_tick d n) }
    ensures block { (d : DeviceState) (b : Bool) → IsSound d → IsSound (after_block d b) }
    ensures reset { (d : DeviceState) (level : ℕ) → IsSound d → IsSound (after_reset d level) }
    ensures restart { (d : DeviceState) → IsSound d → IsSound (after_restart d) }
    ensures tmr { (d : DeviceState) (kind : ℕ) (ss : List ℕ) → IsSound d → IsSound (after_tmr d kind ss (tmr_answer d ss)) }
{}

/// So every run does, whatever its handler may answer; and a run goes on by one step.
pub fn runs_keep_sound<H: Answering>()
    ensures sound { (s : SettingsData) (name : List ℕ) (medium : MediumState) (es : List EntryData) (d : Device) → IsSettings s → Run H.relation (opening s name medium) es d → IsSound d.state }
    ensures more { (d m d' : Device) (es : List EntryData) (e : EntryData) → Run H.relation d es m → Step H.relation m e d' → Run H.relation d (es ++ e ∷ []) d' }
{}
