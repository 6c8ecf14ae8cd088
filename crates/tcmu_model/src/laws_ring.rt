//! What soundness says of the ring: how many commands it holds, and what it has room for.
ghost use Rattle.std.specs.Prelude.{◌≡◌, ℕ, ◌+◌, ◌*◌, ◌≤◌, ◌<◌, length, take, true};
ghost use Rattle.tcmu_model.specs.RingState.{RingState, used, fits, commands_in, cleared_commands, published_commands, dispatched_commands};
ghost use Rattle.tcmu_model.specs.Device.{DeviceState};
ghost use Rattle.tcmu_model.specs.Events.{publishable};
ghost use Rattle.tcmu_model.specs.Sound.{EndsInAnItem, IsSound};

/// Each command in the ring is finished or unfinished, so that the bytes used bound how many are unfinished; and the last item is no
/// padding, so that the ring's next item is there where one is laid.
pub fn ring_law()
    ensures count { (d : DeviceState) → IsSound d → length d.unfinished + cleared_commands d.ring ≡ commands_in d.ring.laid }
    ensures bound { (d : DeviceState) → IsSound d → 112 * length d.unfinished ≤ used d.ring }
    ensures ends { (d : DeviceState) → IsSound d → EndsInAnItem d.ring.laid }
{}

/// An empty ring takes every entry that is not over half of it, at every head.
pub fn room_law()
    ensures { (r : RingState) (n : ℕ) → used r ≡ 0 → 0 < n → 2 * n ≤ r.size → fits r n ≡ true }
{}

/// `publishable` is the greatest number of dispatched items that hold no more commands than answers are placed.
pub fn publish_law()
    ensures dispatched { (d : DeviceState) → IsSound d → publishable d ≤ d.ring.dispatched }
    ensures answered { (d : DeviceState) → IsSound d → commands_in (take (publishable d) d.ring.laid) ≤ length d.placed }
    ensures greatest { (d : DeviceState) (n : ℕ) → IsSound d → n ≤ d.ring.dispatched → commands_in (take n d.ring.laid) ≤ length d.placed → n ≤ publishable d }
{}

/// Answers are placed for no more commands than are dispatched, and published for no more than are placed: so an entry that is not
/// dispatched is never overwritten.
pub fn answers_law()
    ensures published { (d : DeviceState) → IsSound d → published_commands d.ring ≤ length d.placed }
    ensures placed { (d : DeviceState) → IsSound d → length d.placed ≤ dispatched_commands d.ring }
{}
