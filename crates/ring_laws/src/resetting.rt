//! What a reset leaves: an empty ring and area, a target with its log, and a user side that is attached anew.
ghost use Rattle.std.specs.Prelude.{◌≡◌, ℕ, List, [], Ok};
ghost use Rattle.tcmu_types.specs.declared.answer.Reset.TheVariants.{HandlersOut, NotBlocked, Reset};
ghost use Rattle.tcmu_model.specs.Device.{DeviceState};
ghost use Rattle.tcmu_model.specs.Events.{after_reset, reset_answer};
ghost use Rattle.tcmu_model.specs.BlockLists.{Taken, kept_lists};
ghost use Rattle.region_model.specs.Regions.{RegionState};
ghost use Rattle.tcmu_model.specs.Sound.{IsSound};
ghost use Rattle.region_model.specs.Sides.{InHand, PendingRow, TargetState, UserState};
ghost use Rattle.region_model.specs.Represents.{BlocksStand, IdsStand, JobsStand, NotesStand, RingStands, TargetKeeps, UserKeeps};
ghost use Rattle.region_model.specs.TargetCleans.{region_reset, target_reset, target_reset_answer};
ghost use Rattle.region_model.specs.UserSteps.{opening_user, region_reattached, user_attached};
ghost use Rattle.tcmu_model.specs.Owned.{ListsSound};
ghost use Rattle.ring_laws.specs.Cleaned.{CanClean};
ghost use Rattle.ring_laws.specs.Emptied.{reset_answered};

/// Both sides answer what the device answers: a reset is made where the target is blocked and no job is in hand or parked. The target then
/// logs what a clean logs, after it what was open, and last what was delayed, as the device does. No block list is left, so none of the
/// points rests on one. The user side is attached as when the device opened, and no block goes back at that.
pub fn reset_law()
    ensures answer { (r : RegionState) (t : TargetState) (user : UserState) (hand : List InHand) (d : DeviceState) (lists : List Taken) (level : ℕ) →
        CanClean r t d lists → JobsStand user hand t.rows d lists → reset_answered r t hand user level ≡ reset_answer d level }
    ensures logged { (r : RegionState) (t : TargetState) (d : DeviceState) (lists : List Taken) (level n : ℕ) →
        CanClean r t d lists → reset_answer d level ≡ Reset n → target_reset_answer r t level ≡ n }
    ensures ring { (r : RegionState) (t : TargetState) (d : DeviceState) (lists : List Taken) (level n : ℕ) →
        IsSound d → RingStands r.front t.items d lists → reset_answer d level ≡ Reset n →
        RingStands (region_reset r).front (target_reset r t level).items (after_reset d level) [] }
    ensures ids { (r : RegionState) (t : TargetState) (d : DeviceState) (level n : ℕ) →
        reset_answer d level ≡ Reset n → IdsStand (region_reset r).front (target_reset r t level).rows (after_reset d level) }
    ensures notes { (r : RegionState) (t : TargetState) (d : DeviceState) (level n : ℕ) →
        reset_answer d level ≡ Reset n → NotesStand (region_reset r).front (target_reset r t level).rows (after_reset d level) }
    ensures blocks { (r : RegionState) (d : DeviceState) (level n : ℕ) → reset_answer d level ≡ Reset n → BlocksStand (region_reset r).blocks (after_reset d level) [] }
    ensures jobs { (r : RegionState) (t : TargetState) (d : DeviceState) (level n : ℕ) →
        reset_answer d level ≡ Reset n → JobsStand (opening_user d.settings) [] (target_reset r t level).rows (after_reset d level) [] }
    ensures hand { (user : UserState) (hand : List InHand) (rows : List PendingRow) (d : DeviceState) (lists : List Taken) (level n : ℕ) →
        reset_answer d level ≡ Reset n → JobsStand user hand rows d lists → hand ≡ [] }
    ensures target { (r : RegionState) (t : TargetState) (d : DeviceState) (lists : List Taken) (level n : ℕ) →
        CanClean r t d lists → reset_answer d level ≡ Reset n → TargetKeeps (target_reset r t level) (after_reset d level) [] }
    ensures side { (d : DeviceState) (level n : ℕ) → IsSound d → reset_answer d level ≡ Reset n → UserKeeps (opening_user d.settings) (after_reset d level) }
    ensures lists { (d : DeviceState) (level n : ℕ) → reset_answer d level ≡ Reset n → ListsSound (after_reset d level) [] }
    ensures kept { (d : DeviceState) (lists : List Taken) (level n : ℕ) → reset_answer d level ≡ Reset n → kept_lists (after_reset d level) lists ≡ [] }
    ensures pages { (r : RegionState) (d : DeviceState) (level n : ℕ) →
        r.pages ≡ d.settings.pages → reset_answer d level ≡ Reset n → (region_reset r).pages ≡ (after_reset d level).settings.pages }
    ensures attached { (r : RegionState) (t : TargetState) (d : DeviceState) (lists : List Taken) (level n : ℕ) →
        IsSound d → RingStands r.front t.items d lists → r.pages ≡ d.settings.pages → reset_answer d level ≡ Reset n →
        user_attached (region_reset r) ≡ Ok (opening_user d.settings) }
    ensures reattached { (r : RegionState) (t : TargetState) (user : UserState) (hand : List InHand) (rows : List PendingRow) (d : DeviceState) (lists : List Taken) (level n : ℕ) →
        IsSound d → RingStands r.front t.items d lists → r.pages ≡ d.settings.pages → JobsStand user hand rows d lists → reset_answer d level ≡ Reset n →
        region_reattached (region_reset r) user ≡ region_reset r }
    ensures not_blocked { (d : DeviceState) (level : ℕ) → reset_answer d level ≡ NotBlocked → after_reset d level ≡ d }
    ensures handlers_out { (d : DeviceState) (level n : ℕ) → reset_answer d level ≡ HandlersOut n → after_reset d level ≡ d }
{}
