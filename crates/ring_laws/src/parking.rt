//! What a device keeps as a handled command is parked, before answers are placed.
ghost use Rattle.std.specs.Prelude.{◌≡◌, ℕ, List, Option, Some};
ghost use Rattle.tcmu_model.specs.declared.state.CommandState.TheVariants.{Handled, Parked};
ghost use Rattle.tcmu_types.specs.Lists.{first_of, with_first};
ghost use Rattle.tcmu_model.specs.Device.{DeviceState, Unfinished, is_at};
ghost use Rattle.tcmu_model.specs.Events.{in_state};
ghost use Rattle.tcmu_model.specs.BlockLists.{Taken};
ghost use Rattle.tcmu_model.specs.Sound.{IsSound};
ghost use Rattle.region_model.specs.Sides.{InHand, PendingRow, Recorded, TargetState, UserState};
ghost use Rattle.region_model.specs.Sides as sides;
ghost use Rattle.region_model.specs.HandSteps.{hand_responded};
ghost use Rattle.region_model.specs.UserSteps.{is_open_job, with_jobs, with_parked};
ghost use Rattle.region_model.specs.Represents.{BlocksStand, IdsStand, IsJobOf, JobsStand, NotesStand, RingStands, TargetKeeps, UserKeeps};
ghost use Rattle.tcmu_model.specs.Owned.{ListsSound};
ghost use Rattle.ring_laws.specs.Placed.{CanAnswer, CanFill, parked_in};

/// A command that is handled is parked: nothing is written, and its blocks stay lent. The user side has the job with its reply, and it is
/// out of hand. After it answers can be placed, and the command is found among the parked ones.
pub fn parking_law()
    ensures ring { (front : List ℕ) (items : List Recorded) (d : DeviceState) (lists : List Taken) (s : ℕ) → RingStands front items d lists → RingStands front items (parked_in d s) lists }
    ensures ids { (front : List ℕ) (rows : List PendingRow) (d : DeviceState) (s : ℕ) → IdsStand front rows d → IdsStand front rows (parked_in d s) }
    ensures notes { (front : List ℕ) (rows : List PendingRow) (d : DeviceState) (s : ℕ) → NotesStand front rows d → NotesStand front rows (parked_in d s) }
    ensures blocks { (area : List (Option (List ℕ))) (d : DeviceState) (lists : List Taken) (s : ℕ) → BlocksStand area d lists → BlocksStand area (parked_in d s) lists }
    ensures jobs { (front : List ℕ) (user : UserState) (hand : List InHand) (rows : List PendingRow) (d : DeviceState) (lists : List Taken) (s : ℕ) (u : Unfinished)
        (p : sides.Parked) (parts : List (List ℕ)) →
        IsSound d → first_of (is_at s Handled) d.unfinished ≡ Some u → u.reply ≡ Some p.reply → IsJobOf d.settings rows lists u p.job parts →
        IdsStand front rows d → JobsStand user hand rows d lists →
        JobsStand (with_jobs user (with_first (is_open_job p.job.id) (with_parked p) user.jobs)) (hand_responded hand s) rows (parked_in d s) lists }
    ensures target { (t : TargetState) (d : DeviceState) (lists : List Taken) (s : ℕ) → TargetKeeps t d lists → TargetKeeps t (parked_in d s) lists }
    ensures side { (user : UserState) (d : DeviceState) (s : ℕ) → UserKeeps user d → UserKeeps user (parked_in d s) }
    ensures lists { (d : DeviceState) (lists : List Taken) (s : ℕ) → ListsSound d lists → ListsSound (parked_in d s) lists }
    ensures answering { (d : DeviceState) (s : ℕ) → IsSound d → CanAnswer (parked_in d s) }
    ensures filling { (d : DeviceState) (lists : List Taken) (s : ℕ) → IsSound d → ListsSound d lists → CanFill (parked_in d s) lists }
    ensures found { (d : DeviceState) (s : ℕ) (u : Unfinished) → IsSound d → first_of (is_at s Handled) d.unfinished ≡ Some u →
        first_of (is_at s Parked) (parked_in d s).unfinished ≡ Some (in_state Parked u) }
{}
