//! What soundness says of the states of unfinished commands.
ghost use Rattle.std.specs.Prelude.{◌≡◌, ℕ, ◌+◌, ◌||◌, ◌&&◌, not, true, false, length, take, drop, map, if◌then◌else◌};
ghost use Rattle.std.specs.List.{list_any, filter, count_by};
ghost use Rattle.std.specs.Option.{is_some};
ghost use Rattle.tcmu_model.specs.declared.state.CommandState.TheVariants.{Waiting, Placed, Lost};
ghost use Rattle.tcmu_model.specs.RingState.{serials_in, cleared_commands, dispatched_commands};
ghost use Rattle.tcmu_model.specs.Device.{DeviceState, has_serial, has_state};
ghost use Rattle.tcmu_model.specs.Events.{answered, is_in_hand};
ghost use Rattle.tcmu_types.specs.Numbers.{is_among, Begins};
ghost use Rattle.tcmu_model.specs.Sound.{finished, dispatched_serials, awaits_answer, IsSound};
ghost use Rattle.tcmu_types.specs.Lists.{Every};

/// The commands that are Waiting are those that are not dispatched, in the order of laying.
pub fn waiting_law()
    ensures states { (d : DeviceState) → IsSound d → Every (λ u. has_state Waiting u ≡ not (is_among (dispatched_serials d.ring) u.serial)) d.unfinished }
    ensures order { (d : DeviceState) → IsSound d → map (λ u. u.serial) (filter (has_state Waiting) d.unfinished) ≡ serials_in (drop d.ring.dispatched d.ring.laid) }
{}

/// Of the answers placed, those that are cleared are of commands that are finished, and the others of commands that are unfinished:
/// Placed on an attached device, or where they are published; else Lost, with their replies. Without the flag for completions out of
/// order, answers are placed in the order in which their commands were laid.
pub fn placed_law()
    ensures finished { (d : DeviceState) → IsSound d → Every (λ s. list_any (has_serial s) d.unfinished ≡ false) (finished d) }
    ensures unfinished { (d : DeviceState) → IsSound d → Every (λ s. list_any (has_serial s) d.unfinished ≡ true) (drop (cleared_commands d.ring) d.placed) }
    ensures states { (d : DeviceState) → IsSound d → Every (λ u. is_among d.placed u.serial ≡ true → (u.state ≡ (if d.attached || is_among (answered d) u.serial then Placed else Lost)) × (is_some u.reply ≡ true)) d.unfinished }
    ensures in_order { (d : DeviceState) → IsSound d → d.settings.flags.ooo ≡ false → Begins d.placed (serials_in d.ring.laid) }
{}

/// A dispatched command whose answer is not placed is Out, Handled or Parked on an attached device, and Lost without a reply on a
/// detached one. With the answers placed these are all that are dispatched.
pub fn in_hand_law()
    ensures states { (d : DeviceState) → IsSound d → Every (λ u. is_among (dispatched_serials d.ring) u.serial ≡ true → is_among d.placed u.serial ≡ false → (if d.attached then is_in_hand u else has_state Lost u && not (is_some u.reply)) ≡ true) d.unfinished }
    ensures owed { (d : DeviceState) → IsSound d → count_by awaits_answer d.unfinished + length d.placed ≡ dispatched_commands d.ring }
{}
