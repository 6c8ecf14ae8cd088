//! In which order a tick logs what ends with it.
ghost use Rattle.std.specs.Prelude.{◌≡◌, ℕ, List, ◌∷◌, ◌++◌, map};
ghost use Rattle.tcmu_types.specs.Data.{DoneData};
ghost use Rattle.tcmu_types.specs.Lists.{Every};
ghost use Rattle.tcmu_types.specs.Numbers.{Rise};
ghost use Rattle.tcmu_model.specs.Device.{DeviceState};
ghost use Rattle.tcmu_model.specs.Events.{after_tick};
ghost use Rattle.tcmu_model.specs.Sound.{IsSound};

/// A tick logs expiries (CHECK CONDITION) before departures (TASK SET FULL), and so all of them in rising serial, since a command that
/// waits for room is younger than each that has it.
pub fn tick_order()
    ensures departs_last { (d : DeviceState) (n : ℕ) (front back : List DoneData) (e : DoneData) →
        (after_tick d n).log ≡ d.log ++ (front ++ e ∷ back) → e.status ≡ 0x28 → Every (λ f. f.status ≡ 0x28) back }
    ensures expires_first { (d : DeviceState) (n : ℕ) (front back : List DoneData) (e : DoneData) →
        (after_tick d n).log ≡ d.log ++ (front ++ e ∷ back) → e.status ≡ 0x02 → Every (λ f. f.status ≡ 0x02) front }
    ensures rise { (d : DeviceState) (n : ℕ) (es : List DoneData) → IsSound d → (after_tick d n).log ≡ d.log ++ es → Rise 0 (map (λ e. e.serial) es) d.accepted }
{}
