//! What a submit keeps whose command is delayed, until there is room for it.
ghost use Rattle.std.specs.Prelude.{◌≡◌, ℕ, List, Option};
ghost use Rattle.tcmu_types.specs.Data.{CommandData};
ghost use Rattle.tcmu_types.specs.declared.answer.Submit.TheVariants.{Delayed};
ghost use Rattle.tcmu_model.specs.Device.{DeviceState};
ghost use Rattle.tcmu_model.specs.Events.{after_submit};
ghost use Rattle.tcmu_model.specs.BlockLists.{Taken};
ghost use Rattle.region_model.specs.Regions.{RegionState};
ghost use Rattle.region_model.specs.Sides.{InHand, PendingRow, Recorded, TargetState, UserState};
ghost use Rattle.region_model.specs.Represents.{RingStands, IdsStand, NotesStand, BlocksStand, JobsStand, TargetKeeps, UserKeeps};
ghost use Rattle.region_model.specs.TargetSteps.{region_submitted, target_submitted};
ghost use Rattle.tcmu_model.specs.Owned.{ListsSound};

/// A submit that delays its command writes nothing into the region; the target has the command behind those that are delayed, and every
/// point stands.
pub fn delaying_law()
    ensures ring { (front : List ℕ) (items : List Recorded) (d : DeviceState) (lists : List Taken) (c : CommandData) (s : ℕ) →
        RingStands front items d lists → RingStands front items (after_submit d c (Delayed s)) lists }
    ensures ids { (front : List ℕ) (rows : List PendingRow) (d : DeviceState) (c : CommandData) (s : ℕ) → IdsStand front rows d → IdsStand front rows (after_submit d c (Delayed s)) }
    ensures notes { (front : List ℕ) (rows : List PendingRow) (d : DeviceState) (c : CommandData) (s : ℕ) → NotesStand front rows d → NotesStand front rows (after_submit d c (Delayed s)) }
    ensures blocks { (area : List (Option (List ℕ))) (d : DeviceState) (lists : List Taken) (c : CommandData) (s : ℕ) →
        BlocksStand area d lists → BlocksStand area (after_submit d c (Delayed s)) lists }
    ensures jobs { (user : UserState) (hand : List InHand) (rows : List PendingRow) (d : DeviceState) (lists : List Taken) (c : CommandData) (s : ℕ) →
        JobsStand user hand rows d lists → JobsStand user hand rows (after_submit d c (Delayed s)) lists }
    ensures target { (t : TargetState) (d : DeviceState) (lists : List Taken) (c : CommandData) (s id : ℕ) →
        TargetKeeps t d lists → TargetKeeps (target_submitted t c id (Delayed s)) (after_submit d c (Delayed s)) lists }
    ensures side { (user : UserState) (d : DeviceState) (c : CommandData) (s : ℕ) → UserKeeps user d → UserKeeps user (after_submit d c (Delayed s)) }
    ensures lists { (d : DeviceState) (lists : List Taken) (c : CommandData) (s : ℕ) → ListsSound d lists → ListsSound (after_submit d c (Delayed s)) lists }
    ensures pages { (r : RegionState) (d : DeviceState) (c : CommandData) (s : ℕ) → r.pages ≡ d.settings.pages → r.pages ≡ (after_submit d c (Delayed s)).settings.pages }
    ensures region { (r : RegionState) (t : TargetState) (c : CommandData) (id s : ℕ) → region_submitted r t c id (Delayed s) ≡ r }
{}
