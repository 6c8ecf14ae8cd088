//! Which refusal is answered where several apply.
ghost use Rattle.std.specs.Prelude.{◌≡◌, ◌≢◌, ℕ, ◌<◌, ◌≤◌, ◌*◌, ◌+◌, ◌/◌, List, [], ◌∷◌, ◌++◌, true, false};
ghost use Rattle.std.specs.List.{list_any};
ghost use Rattle.tcmu_types.specs.Data.{CommandData};
ghost use Rattle.tcmu_types.specs.Events.{Detached};
ghost use Rattle.tcmu_types.specs.Lists.{Every};
ghost use Rattle.tcmu_types.specs.declared.answer.Enter.TheVariants as enter;
ghost use Rattle.tcmu_types.specs.declared.answer.Reset.TheVariants as reset;
ghost use Rattle.tcmu_types.specs.declared.answer.Submit.TheVariants as submit;
ghost use Rattle.tcmu_types.specs.declared.answer.Tmr.TheVariants as tmr;
ghost use Rattle.tcmu_model.specs.RingState.{free, need};
ghost use Rattle.tcmu_model.specs.Device.{Delayed, DeviceState, has_serial};
ghost use Rattle.tcmu_model.specs.Events.{dispatch_answer, enter_answer, entry_length_in, fits_ring, reset_answer, submit_answer, tmr_answer};
ghost use Rattle.tcmu_model.specs.Sound.{IsSound};
ghost use Rattle.order_laws.specs.Rooms.{LooksForRoom};

/// A blocked device is busy, whatever it is sent. Of one that is not, a command that is too long for the ring is refused for that, also
/// where it has too many blocks, and one that finds no place in the ring is refused for the ring, also where it finds no blocks. A device
/// that lets commands wait lets one wait behind another, also where it finds room.
pub fn submit_order()
    ensures busy_first { (d : DeviceState) (c : CommandData) → d.blocked ≡ true → submit_answer d c ≡ submit.Busy }
    ensures length_first { (d : DeviceState) (c : CommandData) → d.blocked ≡ false → d.ring.size < 2 * entry_length_in d c → submit_answer d c ≡ submit.TooBig (entry_length_in d c) (d.ring.size / 2) }
    ensures ring_first { (d : DeviceState) (c : CommandData) →
        LooksForRoom d c → d.settings.qfull ≡ 0 → fits_ring d c ≡ false → submit_answer d c ≡ submit.FullRing (need d.ring (entry_length_in d c)) (free d.ring) }
    ensures waiting_first { (d : DeviceState) (c : CommandData) → LooksForRoom d c → d.settings.qfull ≢ 0 → d.delayed ≢ [] → submit_answer d c ≡ submit.Delayed (d.accepted + 1) }
{}

/// The command that enters is the oldest of those that wait, and where it finds no place in the ring it is refused for the ring, also where
/// it finds no blocks.
pub fn enter_order()
    ensures oldest_first { (d : DeviceState) (s : ℕ) → IsSound d → enter_answer d ≡ enter.Entered s → Every (λ w. s ≤ w.serial) d.delayed }
    ensures ring_first { (d : DeviceState) (w : Delayed) (ws : List Delayed) →
        d.delayed ≡ w ∷ ws → fits_ring d w.command ≡ false → enter_answer d ≡ enter.FullRing (need d.ring (entry_length_in d w.command)) (free d.ring) }
{}

/// Where notes are off, they are; then a blocked device is busy, also where a serial is unknown; then the first serial that is unknown is
/// named, also where the ring has no room.
pub fn note_order()
    ensures off_first { (d : DeviceState) (serials : List ℕ) → d.settings.flags.tmr ≡ false → tmr_answer d serials ≡ tmr.Off }
    ensures busy_first { (d : DeviceState) (serials : List ℕ) → d.settings.flags.tmr ≡ true → d.blocked ≡ true → tmr_answer d serials ≡ tmr.Busy }
    ensures unknown_first { (d : DeviceState) (front back : List ℕ) (s : ℕ) → d.settings.flags.tmr ≡ true → d.blocked ≡ false →
        Every (λ k. list_any (has_serial k) d.unfinished ≡ true) front → list_any (has_serial s) d.unfinished ≡ false → tmr_answer d (front ++ s ∷ back) ≡ tmr.Unknown s }
{}

/// A device that is not blocked is not reset for that, also where handlers have commands.
pub fn reset_order()
    ensures blocked_first { (d : DeviceState) (level : ℕ) → d.blocked ≡ false → reset_answer d level ≡ reset.NotBlocked }
{}

/// A detached device dispatches nothing for that, also where nothing is laid.
pub fn dispatch_order()
    ensures detached_first { (d : DeviceState) → d.attached ≡ false → dispatch_answer d ≡ Detached }
{}
