//! Block lists that go: of a command that is finished and whose item is cleared.
ghost use Rattle.std.specs.Prelude.{ℕ, List, Option};
ghost use Rattle.tcmu_model.specs.Device.{DeviceState};
ghost use Rattle.tcmu_model.specs.BlockLists.{Taken, kept_lists};
ghost use Rattle.region_model.specs.Sides.{InHand, PendingRow, Recorded, TargetState, UserState};
ghost use Rattle.region_model.specs.Represents.{RingStands, BlocksStand, JobsStand, TargetKeeps};
ghost use Rattle.tcmu_model.specs.Owned.{ListsSound};

/// No point looks at a list that goes, so what holds with all lists holds with those that an event keeps.
pub fn kept_law()
    ensures ring { (front : List ℕ) (items : List Recorded) (d : DeviceState) (lists : List Taken) → RingStands front items d lists → RingStands front items d (kept_lists d lists) }
    ensures blocks { (area : List (Option (List ℕ))) (d : DeviceState) (lists : List Taken) → BlocksStand area d lists → BlocksStand area d (kept_lists d lists) }
    ensures jobs { (user : UserState) (hand : List InHand) (rows : List PendingRow) (d : DeviceState) (lists : List Taken) →
        JobsStand user hand rows d lists → JobsStand user hand rows d (kept_lists d lists) }
    ensures target { (t : TargetState) (d : DeviceState) (lists : List Taken) → TargetKeeps t d lists → TargetKeeps t d (kept_lists d lists) }
    ensures lists { (d : DeviceState) (lists : List Taken) → ListsSound d lists → ListsSound d (kept_lists d lists) }
{}
