//! What a dispatch keeps: the user side goes to its next entry, and answers the job, the note, or nothing.
ghost use Rattle.std.specs.Prelude.{◌≡◌, ℕ, List, Ok};
ghost use Rattle.tcmu_model.specs.Device.{DeviceState};
ghost use Rattle.tcmu_model.specs.Events.{after_dispatch, dispatch_answer};
ghost use Rattle.tcmu_model.specs.BlockLists.{Taken};
ghost use Rattle.region_model.specs.Regions.{RegionState};
ghost use Rattle.tcmu_model.specs.Sound.{IsSound};
ghost use Rattle.region_model.specs.Sides.{InHand, TargetState, UserState};
ghost use Rattle.region_model.specs.Represents.{BlocksStand, IdsStand, JobsStand, NotesStand, RingStands, TargetKeeps, UserKeeps};
ghost use Rattle.region_model.specs.declared.mailbox.Mailbox.{Mailbox};
ghost use Rattle.region_model.specs.UserNext.{Nothing, next_within, nexted};
ghost use Rattle.region_model.specs.UserSteps.{user_mailbox};
ghost use Rattle.tcmu_model.specs.Owned.{ListsSound};
ghost use Rattle.ring_laws.specs.Dispatched.{AnswersDispatch, CanDispatch, hand_dispatched};

/// The user side of an attached device passes the padding in front of the next item and reads that item, so no fault is answered, and
/// nothing exactly where the device answers nothing. A command's blocks are at home, so its job has them: just they are lent then. The job
/// is the last given and the last in hand, and the offset of its entry is kept. A note is answered with its type and with the ids, in its
/// order, of those of its commands that are running. Where a next comes through some entries to nothing, the region is as it was.
pub fn dispatch_law()
    ensures answer { (r : RegionState) (t : TargetState) (user : UserState) (hand : List InHand) (d : DeviceState) (lists : List Taken) →
        CanDispatch r t user hand d lists → AnswersDispatch t.rows d lists (dispatch_answer d) (nexted r user).answer }
    ensures ring { (r : RegionState) (t : TargetState) (user : UserState) (hand : List InHand) (d : DeviceState) (lists : List Taken) →
        CanDispatch r t user hand d lists → RingStands (nexted r user).region.front t.items (after_dispatch d) lists }
    ensures ids { (r : RegionState) (t : TargetState) (user : UserState) (hand : List InHand) (d : DeviceState) (lists : List Taken) →
        CanDispatch r t user hand d lists → IdsStand (nexted r user).region.front t.rows (after_dispatch d) }
    ensures notes { (r : RegionState) (t : TargetState) (user : UserState) (hand : List InHand) (d : DeviceState) (lists : List Taken) →
        CanDispatch r t user hand d lists → NotesStand (nexted r user).region.front t.rows (after_dispatch d) }
    ensures blocks { (r : RegionState) (t : TargetState) (user : UserState) (hand : List InHand) (d : DeviceState) (lists : List Taken) →
        CanDispatch r t user hand d lists → BlocksStand (nexted r user).region.blocks (after_dispatch d) lists }
    ensures jobs { (r : RegionState) (t : TargetState) (user : UserState) (hand : List InHand) (d : DeviceState) (lists : List Taken) →
        CanDispatch r t user hand d lists → JobsStand (nexted r user).user (hand_dispatched hand (dispatch_answer d) (nexted r user).answer) t.rows (after_dispatch d) lists }
    ensures target { (t : TargetState) (d : DeviceState) (lists : List Taken) → TargetKeeps t d lists → TargetKeeps t (after_dispatch d) lists }
    ensures side { (r : RegionState) (t : TargetState) (user : UserState) (hand : List InHand) (d : DeviceState) (lists : List Taken) →
        CanDispatch r t user hand d lists → UserKeeps (nexted r user).user (after_dispatch d) }
    ensures lists { (d : DeviceState) (lists : List Taken) → ListsSound d lists → ListsSound (after_dispatch d) lists }
    ensures pages { (r : RegionState) (t : TargetState) (user : UserState) (hand : List InHand) (d : DeviceState) (lists : List Taken) →
        CanDispatch r t user hand d lists → (nexted r user).region.pages ≡ (after_dispatch d).settings.pages }
    ensures passing { (r : RegionState) (t : TargetState) (user : UserState) (hand : List InHand) (d : DeviceState) (lists : List Taken) (m : Mailbox) (before : UserState) (n : ℕ) →
        CanDispatch r t user hand d lists → user_mailbox r ≡ Ok m → (next_within n m before r user).answer ≡ Nothing → (next_within n m before r user).region ≡ r }
{}
