//! What a restart keeps: every job goes back, and the user side is gone.
ghost use Rattle.std.specs.Prelude.{◌≡◌, ℕ, List, [], Option};
ghost use Rattle.tcmu_model.specs.Device.{DeviceState};
ghost use Rattle.tcmu_model.specs.Events.{after_restart, restart_answer};
ghost use Rattle.tcmu_model.specs.BlockLists.{Taken};
ghost use Rattle.region_model.specs.Regions.{RegionState};
ghost use Rattle.tcmu_model.specs.Sound.{IsSound};
ghost use Rattle.region_model.specs.Sides.{InHand, PendingRow, Recorded, TargetState, UserState};
ghost use Rattle.region_model.specs.Represents.{BlocksStand, IdsStand, JobsStand, NotesStand, RingStands, TargetKeeps, UserKeeps};
ghost use Rattle.region_model.specs.UserSteps.{user_abandoned};
ghost use Rattle.tcmu_model.specs.Owned.{ListsSound};
ghost use Rattle.ring_laws.specs.Restarted.{region_restarted, restarted_answer};
ghost use Rattle.ring_laws.specs.Sizes.{IsSized};

/// The jobs in hand and the parked ones go back with their blocks as they are, so every block is at home again, with the payload that it
/// had in its job; no command is in hand any more. Entries and ids stay, and with them the answers that are placed, which their commands
/// keep as they turn Lost. The target does not notice. How many commands turn Lost follows from what the user side counts and from the
/// jobs.
pub fn restart_law()
    ensures answer { (user : UserState) (hand : List InHand) (rows : List PendingRow) (d : DeviceState) (lists : List Taken) →
        IsSound d → JobsStand user hand rows d lists → UserKeeps user d → restarted_answer d.attached hand user ≡ restart_answer d }
    ensures ring { (r : RegionState) (user : UserState) (hand : List InHand) (items : List Recorded) (d : DeviceState) (lists : List Taken) →
        IsSound d → RingStands r.front items d lists → RingStands (region_restarted r hand user).front items (after_restart d) lists }
    ensures ids { (r : RegionState) (user : UserState) (hand : List InHand) (rows : List PendingRow) (d : DeviceState) →
        IdsStand r.front rows d → IdsStand (region_restarted r hand user).front rows (after_restart d) }
    ensures notes { (r : RegionState) (user : UserState) (hand : List InHand) (rows : List PendingRow) (d : DeviceState) →
        NotesStand r.front rows d → NotesStand (region_restarted r hand user).front rows (after_restart d) }
    ensures blocks { (r : RegionState) (user : UserState) (hand : List InHand) (items : List Recorded) (rows : List PendingRow) (d : DeviceState) (lists : List Taken) →
        IsSound d → ListsSound d lists → RingStands r.front items d lists → r.pages ≡ d.settings.pages → BlocksStand r.blocks d lists → JobsStand user hand rows d lists →
        BlocksStand (region_restarted r hand user).blocks (after_restart d) lists }
    ensures jobs { (user : UserState) (hand : List InHand) (rows : List PendingRow) (d : DeviceState) (lists : List Taken) →
        JobsStand user hand rows d lists → JobsStand (user_abandoned user) [] rows (after_restart d) lists }
    ensures target { (t : TargetState) (d : DeviceState) (lists : List Taken) → TargetKeeps t d lists → TargetKeeps t (after_restart d) lists }
    ensures side { (user : UserState) (d : DeviceState) → UserKeeps user d → UserKeeps (user_abandoned user) (after_restart d) }
    ensures lists { (d : DeviceState) (lists : List Taken) → ListsSound d lists → ListsSound (after_restart d) lists }
    ensures pages { (r : RegionState) (user : UserState) (hand : List InHand) (d : DeviceState) →
        r.pages ≡ d.settings.pages → (region_restarted r hand user).pages ≡ (after_restart d).settings.pages }
    ensures sized { (r : RegionState) (user : UserState) (hand : List InHand) (rows : List PendingRow) (d : DeviceState) (lists : List Taken) →
        r.pages ≡ d.settings.pages → JobsStand user hand rows d lists → IsSized r → IsSized (region_restarted r hand user) }
{}
