//! What the list of items laid in the ring is behind each event.
ghost use Rattle.std.specs.Prelude.{◌≡◌, ℕ, Bool, List, [], ◌∷◌};
ghost use Rattle.tcmu_types.specs.Data.{CommandData, ReplyData};
ghost use Rattle.tcmu_types.specs.declared.answer.Enter.TheVariants.{Entered};
ghost use Rattle.tcmu_types.specs.declared.answer.Reset.TheVariants.{Reset};
ghost use Rattle.tcmu_types.specs.declared.answer.Submit.TheVariants.{Delayed, Queued};
ghost use Rattle.tcmu_types.specs.declared.answer.Tmr.TheVariants.{Noted};
ghost use Rattle.tcmu_model.specs.Device as device;
ghost use Rattle.tcmu_model.specs.Device.{DeviceState};
ghost use Rattle.tcmu_model.specs.Events.{after_block, after_clean, after_dispatch, after_enter, after_handle, after_publish, after_reset, after_respond, after_restart, after_submit, after_tick, after_tmr, entry_length_in, reset_answer, tmr_length_of};
ghost use Rattle.tcmu_model.specs.RingState.{Cmd, Tmr, with_item};

/// A command's item is laid as it is queued or enters, a note's as it is noted, each behind padding where it would pass the ring's end; a
/// reset forgets all items; and no other event adds or takes one. Of answers that leave the device as it was, other laws say that.
pub fn laid_law()
    ensures queued { (d : DeviceState) (c : CommandData) (s : ℕ) →
        (after_submit d c (Queued s)).ring.laid ≡ (with_item d.ring (record { len = entry_length_in d c; laid = Cmd s c })).laid }
    ensures delayed { (d : DeviceState) (c : CommandData) (s : ℕ) → (after_submit d c (Delayed s)).ring.laid ≡ d.ring.laid }
    ensures entered { (d : DeviceState) (w : device.Delayed) (ws : List device.Delayed) (s : ℕ) → d.delayed ≡ w ∷ ws →
        (after_enter d (Entered s)).ring.laid ≡ (with_item d.ring (record { len = entry_length_in d w.command; laid = Cmd w.serial w.command })).laid }
    ensures noted { (d : DeviceState) (type_ : ℕ) (ss : List ℕ) →
        (after_tmr d type_ ss Noted).ring.laid ≡ (with_item d.ring (record { len = tmr_length_of ss; laid = Tmr type_ ss })).laid }
    ensures dispatch { (d : DeviceState) → (after_dispatch d).ring.laid ≡ d.ring.laid }
    ensures handle { (d : DeviceState) (s : ℕ) (reply : ReplyData) → (after_handle d s reply).ring.laid ≡ d.ring.laid }
    ensures respond { (d : DeviceState) (s : ℕ) → (after_respond d s).ring.laid ≡ d.ring.laid }
    ensures publish { (d : DeviceState) → (after_publish d).ring.laid ≡ d.ring.laid }
    ensures clean { (d : DeviceState) → (after_clean d).ring.laid ≡ d.ring.laid }
    ensures tick { (d : DeviceState) (n : ℕ) → (after_tick d n).ring.laid ≡ d.ring.laid }
    ensures block { (d : DeviceState) (b : Bool) → (after_block d b).ring.laid ≡ d.ring.laid }
    ensures restart { (d : DeviceState) → (after_restart d).ring.laid ≡ d.ring.laid }
    ensures reset { (d : DeviceState) (level n : ℕ) → reset_answer d level ≡ Reset n → (after_reset d level).ring.laid ≡ [] }
{}
