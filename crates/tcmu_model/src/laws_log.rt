//! What soundness says of serials and of the log of completions.
ghost use Rattle.std.specs.Prelude.{◌≡◌, ℕ, ◌+◌, ◌≤◌, ◌<◌, true, length, map};
ghost use Rattle.tcmu_model.specs.RingState.{serials_in};
ghost use Rattle.tcmu_model.specs.Device.{DeviceState};
ghost use Rattle.tcmu_model.specs.Sound.{open_count, times_logged, times_open, IsSound};
ghost use Rattle.tcmu_types.specs.Numbers.{Differ};
ghost use Rattle.tcmu_types.specs.Lists.{Every};

/// No serial stands twice in the log, and each that stands there was accepted. Each accepted serial is once in the log or once open,
/// that is delayed, or unfinished and not expired; an expired command that is unfinished is in the log.
pub fn log_law()
    ensures differs { (d : DeviceState) → IsSound d → Differ (map (λ e. e.serial) d.log) }
    ensures accepted { (d : DeviceState) → IsSound d → Every (λ e. (1 ≤ e.serial) × (e.serial ≤ d.accepted)) d.log }
    ensures once { (d : DeviceState) (s : ℕ) → IsSound d → 1 ≤ s → s ≤ d.accepted → times_logged d.log s + times_open d s ≡ 1 }
    ensures expired { (d : DeviceState) → IsSound d → Every (λ u. u.expired ≡ true → times_logged d.log u.serial ≡ 1) d.unfinished }
{}

/// A delayed command has a serial above every laid one.
pub fn delayed_law()
    ensures { (d : DeviceState) → IsSound d → Every (λ w. Every (λ s. s < w.serial) (serials_in d.ring.laid)) d.delayed }
{}

/// The completions that are logged and the commands that are open are together as many as were accepted.
pub fn open_law()
    ensures { (d : DeviceState) → IsSound d → length d.log + open_count d ≡ d.accepted }
{}
