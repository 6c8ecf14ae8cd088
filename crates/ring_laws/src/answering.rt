//! The answers of the target to submit, enter, block and unblock.
ghost use Rattle.std.specs.Prelude.{◌≡◌, ℕ, Bool, List};
ghost use Rattle.tcmu_types.specs.Data.{CommandData};
ghost use Rattle.tcmu_model.specs.Device.{DeviceState};
ghost use Rattle.tcmu_model.specs.Events.{block_answer, enter_answer, submit_answer};
ghost use Rattle.tcmu_model.specs.BlockLists.{Taken};
ghost use Rattle.tcmu_model.specs.Sound.{IsSound};
ghost use Rattle.region_model.specs.Sides.{TargetState};
ghost use Rattle.region_model.specs.TargetSteps.{target_block_answer, target_enter_answer, target_submit_answer};
ghost use Rattle.tcmu_model.specs.Owned.{ListsSound};
ghost use Rattle.region_model.specs.Represents.{RingStands, TargetKeeps};

/// The target answers as the device does: to a command, to the first delayed one that would enter, and to block and unblock. The answers of
/// other events stand in the laws of those events.
pub fn answering_law()
    ensures submit { (front : List ℕ) (t : TargetState) (d : DeviceState) (lists : List Taken) (c : CommandData) →
        IsSound d → ListsSound d lists → RingStands front t.items d lists → TargetKeeps t d lists → target_submit_answer t c ≡ submit_answer d c }
    ensures enter { (front : List ℕ) (t : TargetState) (d : DeviceState) (lists : List Taken) →
        IsSound d → ListsSound d lists → RingStands front t.items d lists → TargetKeeps t d lists → target_enter_answer t ≡ enter_answer d }
    ensures block { (t : TargetState) (d : DeviceState) (lists : List Taken) (b : Bool) → TargetKeeps t d lists → target_block_answer t b ≡ block_answer d b }
{}
