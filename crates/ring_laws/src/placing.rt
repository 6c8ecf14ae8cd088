//! What an answer keeps that the user side places: the ring with the answer in it, the ids, the blocks, and what both sides keep.
ghost use Rattle.std.specs.Prelude.{◌≡◌, ℕ, List, length, take, drop};
ghost use Rattle.tcmu_model.specs.Device.{Unfinished, DeviceState};
ghost use Rattle.tcmu_model.specs.BlockLists.{Taken};
ghost use Rattle.region_model.specs.Regions.{RegionState};
ghost use Rattle.tcmu_model.specs.Sound.{IsSound};
ghost use Rattle.region_model.specs.Sides.{Parked, Recorded, PendingRow, GivenJob, TargetState, UserState};
ghost use Rattle.region_model.specs.Represents.{RingStands, IdsStand, NotesStand, BlocksStand, TargetKeeps, UserKeeps, command_places};
ghost use Rattle.tcmu_model.specs.Owned.{ListsSound};
ghost use Rattle.ring_laws.specs.Placed.{CanAnswer, CanFill, CanPlace, placed_in, answer_placed};

/// The answer of a parked command is placed in the first entry that is not yet used, whosever it is, before its turn or in it. The ring
/// stands with the answer in it, and so do the ids, of which that entry now has the answer's, and the blocks, which the job gives back
/// with the payload in them. The offsets that are left are those of the entries that are left, and each side keeps its records. What
/// placing rests on holds of each sound device, and of the device after it, so that one respond places any number.
pub fn placing_law()
    ensures ring { (r : RegionState) (user : UserState) (items : List Recorded) (rows : List PendingRow) (d : DeviceState) (lists : List Taken) (s : ℕ) (u : Unfinished)
        (p : Parked) (parts : List (List ℕ)) (rest : List GivenJob) →
        CanAnswer d → RingStands r.front items d lists → IdsStand r.front rows d → CanPlace user rows d lists s u p parts →
        RingStands (answer_placed r user p rest).region.front items (placed_in d s) lists }
    ensures ids { (r : RegionState) (user : UserState) (items : List Recorded) (rows : List PendingRow) (d : DeviceState) (lists : List Taken) (s : ℕ) (u : Unfinished)
        (p : Parked) (parts : List (List ℕ)) (rest : List GivenJob) →
        CanAnswer d → RingStands r.front items d lists → IdsStand r.front rows d → CanPlace user rows d lists s u p parts →
        IdsStand (answer_placed r user p rest).region.front rows (placed_in d s) }
    ensures notes { (r : RegionState) (user : UserState) (items : List Recorded) (rows : List PendingRow) (d : DeviceState) (lists : List Taken) (s : ℕ) (u : Unfinished)
        (p : Parked) (parts : List (List ℕ)) (rest : List GivenJob) →
        CanAnswer d → RingStands r.front items d lists → CanPlace user rows d lists s u p parts → NotesStand r.front rows d →
        NotesStand (answer_placed r user p rest).region.front rows (placed_in d s) }
    ensures blocks { (r : RegionState) (user : UserState) (items : List Recorded) (rows : List PendingRow) (d : DeviceState) (lists : List Taken) (s : ℕ) (u : Unfinished)
        (p : Parked) (parts : List (List ℕ)) (rest : List GivenJob) →
        CanAnswer d → CanFill d lists → RingStands r.front items d lists → r.pages ≡ d.settings.pages → BlocksStand r.blocks d lists → CanPlace user rows d lists s u p parts →
        BlocksStand (answer_placed r user p rest).region.blocks (placed_in d s) lists }
    ensures offsets { (r : RegionState) (user : UserState) (rows : List PendingRow) (d : DeviceState) (lists : List Taken) (s : ℕ) (u : Unfinished) (p : Parked)
        (parts : List (List ℕ)) (rest : List GivenJob) →
        CanAnswer d → CanPlace user rows d lists s u p parts →
        (answer_placed r user p rest).user.offsets ≡ drop (length (placed_in d s).placed) (command_places d.ring.size 0 (take d.ring.dispatched d.ring.laid)) }
    ensures target { (t : TargetState) (d : DeviceState) (lists : List Taken) (s : ℕ) → TargetKeeps t d lists → TargetKeeps t (placed_in d s) lists }
    ensures side { (r : RegionState) (user : UserState) (rows : List PendingRow) (d : DeviceState) (lists : List Taken) (s : ℕ) (u : Unfinished) (p : Parked)
        (parts : List (List ℕ)) (rest : List GivenJob) →
        CanAnswer d → UserKeeps user d → CanPlace user rows d lists s u p parts → UserKeeps (answer_placed r user p rest).user (placed_in d s) }
    ensures answering { (d : DeviceState) → IsSound d → CanAnswer d }
    ensures answering_again { (d : DeviceState) (s : ℕ) → CanAnswer d → CanAnswer (placed_in d s) }
    ensures filling { (d : DeviceState) (lists : List Taken) → IsSound d → ListsSound d lists → CanFill d lists }
    ensures filling_again { (d : DeviceState) (lists : List Taken) (s : ℕ) → CanFill d lists → CanFill (placed_in d s) lists }
{}
