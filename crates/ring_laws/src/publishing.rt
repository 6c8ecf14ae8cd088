//! What publishing keeps: the tail moves over the answers that are placed.
ghost use Rattle.std.specs.Prelude.{◌≡◌, ℕ, true, List};
ghost use Rattle.tcmu_model.specs.Device.{DeviceState};
ghost use Rattle.tcmu_model.specs.Events.{after_publish, publish_answer};
ghost use Rattle.tcmu_model.specs.BlockLists.{Taken};
ghost use Rattle.region_model.specs.Regions.{RegionState};
ghost use Rattle.tcmu_model.specs.Sound.{IsSound};
ghost use Rattle.region_model.specs.Sides.{InHand, PendingRow, Recorded, TargetState, UserState};
ghost use Rattle.region_model.specs.Represents.{RingStands, IdsStand, NotesStand, BlocksStand, JobsStand, TargetKeeps, UserKeeps};
ghost use Rattle.tcmu_model.specs.Owned.{ListsSound};
ghost use Rattle.region_model.specs.UserSteps.{region_published, user_publish_answer, user_published};

/// The user side of an attached device moves the tail just as far as the device does, and answers the same. The ring stands with the new
/// tail in its mailbox; ids, notes, blocks, jobs, both sides' records and the block lists are kept.
pub fn publishing_law()
    ensures answer { (user : UserState) (d : DeviceState) → IsSound d → d.attached ≡ true → UserKeeps user d → user_publish_answer user ≡ publish_answer d }
    ensures ring { (r : RegionState) (user : UserState) (items : List Recorded) (d : DeviceState) (lists : List Taken) →
        IsSound d → d.attached ≡ true → RingStands r.front items d lists → UserKeeps user d → RingStands (region_published r user).front items (after_publish d) lists }
    ensures ids { (r : RegionState) (user : UserState) (items : List Recorded) (rows : List PendingRow) (d : DeviceState) (lists : List Taken) →
        IsSound d → d.attached ≡ true → RingStands r.front items d lists → IdsStand r.front rows d → UserKeeps user d →
        IdsStand (region_published r user).front rows (after_publish d) }
    ensures notes { (r : RegionState) (user : UserState) (items : List Recorded) (rows : List PendingRow) (d : DeviceState) (lists : List Taken) →
        IsSound d → d.attached ≡ true → RingStands r.front items d lists → NotesStand r.front rows d → UserKeeps user d →
        NotesStand (region_published r user).front rows (after_publish d) }
    ensures blocks { (r : RegionState) (user : UserState) (d : DeviceState) (lists : List Taken) →
        IsSound d → d.attached ≡ true → BlocksStand r.blocks d lists → UserKeeps user d → BlocksStand (region_published r user).blocks (after_publish d) lists }
    ensures jobs { (user : UserState) (hand : List InHand) (rows : List PendingRow) (d : DeviceState) (lists : List Taken) →
        IsSound d → d.attached ≡ true → JobsStand user hand rows d lists → UserKeeps user d → JobsStand (user_published user) hand rows (after_publish d) lists }
    ensures target { (t : TargetState) (user : UserState) (d : DeviceState) (lists : List Taken) →
        IsSound d → d.attached ≡ true → TargetKeeps t d lists → UserKeeps user d → TargetKeeps t (after_publish d) lists }
    ensures side { (user : UserState) (d : DeviceState) → IsSound d → d.attached ≡ true → UserKeeps user d → UserKeeps (user_published user) (after_publish d) }
    ensures lists { (d : DeviceState) (lists : List Taken) → ListsSound d lists → ListsSound (after_publish d) lists }
    ensures pages { (r : RegionState) (user : UserState) (d : DeviceState) → r.pages ≡ d.settings.pages → (region_published r user).pages ≡ (after_publish d).settings.pages }
{}
