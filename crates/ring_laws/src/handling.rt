//! What the answer of a handler keeps: the region and both sides' records stay as they are, and the job in hand has its reply.
ghost use Rattle.std.specs.Prelude.{◌≡◌, ℕ, List, Option, Some};
ghost use Rattle.tcmu_types.specs.Data.{ReplyData};
ghost use Rattle.tcmu_model.specs.Device.{Unfinished, DeviceState};
ghost use Rattle.tcmu_model.specs.Events.{after_handle, command_out};
ghost use Rattle.tcmu_model.specs.BlockLists.{Taken};
ghost use Rattle.region_model.specs.Regions.{RegionState};
ghost use Rattle.tcmu_model.specs.Sound.{IsSound};
ghost use Rattle.region_model.specs.Sides.{InHand, PendingRow, Recorded, TargetState, UserState};
ghost use Rattle.region_model.specs.Represents.{RingStands, IdsStand, NotesStand, BlocksStand, JobsStand, TargetKeeps, UserKeeps};
ghost use Rattle.region_model.specs.HandSteps.{hand_answered};
ghost use Rattle.tcmu_model.specs.Owned.{ListsSound};

/// A command that is out gets its reply, which stands in no entry yet; its blocks stay lent. The job in hand under its serial has the
/// reply.
pub fn handle_law()
    ensures ring { (front : List ℕ) (items : List Recorded) (d : DeviceState) (lists : List Taken) (s : ℕ) (u : Unfinished) (reply : ReplyData) →
        IsSound d → command_out d s ≡ Some u → RingStands front items d lists → RingStands front items (after_handle d s reply) lists }
    ensures ids { (front : List ℕ) (rows : List PendingRow) (d : DeviceState) (s : ℕ) (reply : ReplyData) → IdsStand front rows d → IdsStand front rows (after_handle d s reply) }
    ensures notes { (front : List ℕ) (rows : List PendingRow) (d : DeviceState) (s : ℕ) (reply : ReplyData) → NotesStand front rows d → NotesStand front rows (after_handle d s reply) }
    ensures blocks { (area : List (Option (List ℕ))) (d : DeviceState) (lists : List Taken) (s : ℕ) (reply : ReplyData) →
        BlocksStand area d lists → BlocksStand area (after_handle d s reply) lists }
    ensures jobs { (user : UserState) (hand : List InHand) (rows : List PendingRow) (d : DeviceState) (lists : List Taken) (s : ℕ) (u : Unfinished) (reply : ReplyData) →
        IsSound d → command_out d s ≡ Some u → JobsStand user hand rows d lists → JobsStand user (hand_answered hand s reply) rows (after_handle d s reply) lists }
    ensures target { (t : TargetState) (d : DeviceState) (lists : List Taken) (s : ℕ) (reply : ReplyData) → TargetKeeps t d lists → TargetKeeps t (after_handle d s reply) lists }
    ensures side { (user : UserState) (d : DeviceState) (s : ℕ) (reply : ReplyData) → UserKeeps user d → UserKeeps user (after_handle d s reply) }
    ensures lists { (d : DeviceState) (lists : List Taken) (s : ℕ) (reply : ReplyData) → ListsSound d lists → ListsSound (after_handle d s reply) lists }
    ensures pages { (r : RegionState) (d : DeviceState) (s : ℕ) (reply : ReplyData) → r.pages ≡ d.settings.pages → r.pages ≡ (after_handle d s reply).settings.pages }
{}
