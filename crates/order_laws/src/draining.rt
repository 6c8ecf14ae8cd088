//! Which event a drain makes where several apply.
ghost use Rattle.std.specs.Prelude.{◌≡◌, ℕ, ◌≤◌, Some, true};
ghost use Rattle.tcmu_types.specs.Events.{EventData};
ghost use Rattle.tcmu_types.specs.Events as ev;
ghost use Rattle.tcmu_model.specs.Device.{DeviceState};
ghost use Rattle.tcmu_model.specs.Drain.{drain_event};
ghost use Rattle.tcmu_model.specs.Sound.{IsSound};
ghost use Rattle.order_laws.specs.Turns.{Applies, turn};

/// On an attached device, and on no other, a drain makes an event where one applies, and it makes one that applies. Where several do, it
/// handles before it responds, responds before it publishes, publishes before it cleans, cleans before a command enters, and dispatches
/// last. Of several commands it takes the one of the least serial.
pub fn drain_order()
    ensures applies { (d : DeviceState) (e : EventData) → drain_event d ≡ Some e → (d.attached ≡ true) × Applies d e }
    ensures goes_on { (d : DeviceState) (e : EventData) → d.attached ≡ true → Applies d e → (f : EventData) × (drain_event d ≡ Some f) }
    ensures first { (d : DeviceState) (e f : EventData) → drain_event d ≡ Some e → Applies d f → turn e ≤ turn f }
    ensures least_out { (d : DeviceState) (s t : ℕ) → IsSound d → drain_event d ≡ Some (ev.Handle s) → Applies d (ev.Handle t) → s ≤ t }
    ensures least_handled { (d : DeviceState) (s t : ℕ) → IsSound d → drain_event d ≡ Some (ev.Respond s) → Applies d (ev.Respond t) → s ≤ t }
{}
