//! What a respond keeps, whether answers are placed in order or out of it.
ghost use Rattle.std.specs.Prelude.{◌≡◌, ℕ, true, List};
ghost use Rattle.std.specs.List.{list_any};
ghost use Rattle.tcmu_model.specs.Device.{DeviceState, Unfinished};
ghost use Rattle.tcmu_model.specs.Events.{after_respond, respond_answer};
ghost use Rattle.tcmu_model.specs.BlockLists.{Taken};
ghost use Rattle.region_model.specs.Regions.{RegionState};
ghost use Rattle.region_model.specs.Sides.{InHand, Parked, PendingRow, Recorded, TargetState, UserState};
ghost use Rattle.region_model.specs.Represents.{BlocksStand, IdsStand, JobsStand, NotesStand, RingStands, TargetKeeps, UserKeeps};
ghost use Rattle.region_model.specs.UserSteps.{is_open_job, user_respond_answer, user_responded};
ghost use Rattle.region_model.specs.HandSteps.{hand_responded};
ghost use Rattle.tcmu_model.specs.Owned.{ListsSound};
ghost use Rattle.ring_laws.specs.Responded.{CanRespond};
ghost use Rattle.ring_laws.specs.UserKept.{IsWholeJob};

/// A handled command's job comes back with its reply. Out of order the user side writes the answer into the first entry that is not yet
/// used. In order it keeps the job, and then answers the longest front of its jobs that have their replies; the device goes along the
/// serials laid, and both place the same answers. An entry is always left, since more commands are dispatched than answers are placed.
/// Both sides answer the same, and the job is out of hand. What a respond asks for over any bytes holds here: the job was given and has no
/// reply, and its blocks are as many as its iovecs name, each of a block's size.
pub fn respond_law()
    ensures answer { (user : UserState) (rows : List PendingRow) (d : DeviceState) (lists : List Taken) (s : ℕ) (u : Unfinished) (p : Parked) (parts : List (List ℕ)) →
        CanRespond user rows d lists s u p parts → user_respond_answer user p.job.id ≡ respond_answer d s }
    ensures ring { (r : RegionState) (user : UserState) (items : List Recorded) (rows : List PendingRow) (d : DeviceState) (lists : List Taken) (s : ℕ) (u : Unfinished)
        (p : Parked) (parts : List (List ℕ)) →
        CanRespond user rows d lists s u p parts → RingStands r.front items d lists → IdsStand r.front rows d →
        RingStands (user_responded r user p).region.front items (after_respond d s) lists }
    ensures ids { (r : RegionState) (user : UserState) (items : List Recorded) (rows : List PendingRow) (d : DeviceState) (lists : List Taken) (s : ℕ) (u : Unfinished)
        (p : Parked) (parts : List (List ℕ)) →
        CanRespond user rows d lists s u p parts → RingStands r.front items d lists → IdsStand r.front rows d →
        IdsStand (user_responded r user p).region.front rows (after_respond d s) }
    ensures notes { (r : RegionState) (user : UserState) (items : List Recorded) (rows : List PendingRow) (d : DeviceState) (lists : List Taken) (s : ℕ) (u : Unfinished)
        (p : Parked) (parts : List (List ℕ)) →
        CanRespond user rows d lists s u p parts → RingStands r.front items d lists → IdsStand r.front rows d → NotesStand r.front rows d →
        NotesStand (user_responded r user p).region.front rows (after_respond d s) }
    ensures blocks { (r : RegionState) (user : UserState) (items : List Recorded) (rows : List PendingRow) (d : DeviceState) (lists : List Taken) (s : ℕ) (u : Unfinished)
        (p : Parked) (parts : List (List ℕ)) →
        CanRespond user rows d lists s u p parts → RingStands r.front items d lists → IdsStand r.front rows d → r.pages ≡ d.settings.pages → BlocksStand r.blocks d lists →
        BlocksStand (user_responded r user p).region.blocks (after_respond d s) lists }
    ensures jobs { (r : RegionState) (user : UserState) (hand : List InHand) (rows : List PendingRow) (d : DeviceState) (lists : List Taken) (s : ℕ) (u : Unfinished)
        (p : Parked) (parts : List (List ℕ)) →
        CanRespond user rows d lists s u p parts → IdsStand r.front rows d → JobsStand user hand rows d lists →
        JobsStand (user_responded r user p).user (hand_responded hand s) rows (after_respond d s) lists }
    ensures target { (user : UserState) (t : TargetState) (rows : List PendingRow) (d : DeviceState) (lists : List Taken) (s : ℕ) (u : Unfinished) (p : Parked) (parts : List (List ℕ)) →
        CanRespond user rows d lists s u p parts → TargetKeeps t d lists → TargetKeeps t (after_respond d s) lists }
    ensures side { (r : RegionState) (user : UserState) (rows : List PendingRow) (d : DeviceState) (lists : List Taken) (s : ℕ) (u : Unfinished) (p : Parked) (parts : List (List ℕ)) →
        CanRespond user rows d lists s u p parts → UserKeeps user d → UserKeeps (user_responded r user p).user (after_respond d s) }
    ensures lists { (user : UserState) (rows : List PendingRow) (d : DeviceState) (lists : List Taken) (s : ℕ) (u : Unfinished) (p : Parked) (parts : List (List ℕ)) →
        CanRespond user rows d lists s u p parts → ListsSound (after_respond d s) lists }
    ensures pages { (r : RegionState) (user : UserState) (rows : List PendingRow) (d : DeviceState) (lists : List Taken) (s : ℕ) (u : Unfinished) (p : Parked) (parts : List (List ℕ)) →
        CanRespond user rows d lists s u p parts → r.pages ≡ d.settings.pages → (user_responded r user p).region.pages ≡ (after_respond d s).settings.pages }
    ensures is_open { (user : UserState) (rows : List PendingRow) (d : DeviceState) (lists : List Taken) (s : ℕ) (u : Unfinished) (p : Parked) (parts : List (List ℕ)) →
        CanRespond user rows d lists s u p parts → list_any (is_open_job p.job.id) user.jobs ≡ true }
    ensures whole { (user : UserState) (rows : List PendingRow) (d : DeviceState) (lists : List Taken) (s : ℕ) (u : Unfinished) (p : Parked) (parts : List (List ℕ)) →
        CanRespond user rows d lists s u p parts → UserKeeps user d → IsWholeJob user p.job }
{}
