//! What a tick, a block and an unblock keep: the region stays as it is.
ghost use Rattle.std.specs.Prelude.{◌≡◌, ℕ, Bool, List, Option, map};
ghost use Rattle.tcmu_model.specs.Device.{DeviceState};
ghost use Rattle.tcmu_model.specs.Events.{after_block, after_tick, later, tick_answer};
ghost use Rattle.tcmu_model.specs.BlockLists.{Taken};
ghost use Rattle.region_model.specs.Regions.{RegionState};
ghost use Rattle.region_model.specs.Sides.{InHand, PendingRow, Recorded, TargetState, UserState};
ghost use Rattle.region_model.specs.Represents.{RingStands, IdsStand, NotesStand, BlocksStand, JobsStand, TargetKeeps, UserKeeps};
ghost use Rattle.region_model.specs.TargetSteps.{expired_at, target_blocked, target_tick_answer, target_ticked};
ghost use Rattle.tcmu_model.specs.Owned.{ListsSound};

/// The target lets the same commands expire and leave, logs the same completions and answers the same. An expired command keeps its id,
/// its blocks and its job, so that all other points stand.
pub fn tick_law()
    ensures answer { (t : TargetState) (d : DeviceState) (lists : List Taken) (n : ℕ) → TargetKeeps t d lists → target_tick_answer t n ≡ tick_answer d n }
    ensures ring { (front : List ℕ) (items : List Recorded) (d : DeviceState) (lists : List Taken) (n : ℕ) → RingStands front items d lists → RingStands front items (after_tick d n) lists }
    ensures ids { (front : List ℕ) (rows : List PendingRow) (d : DeviceState) (n : ℕ) →
        IdsStand front rows d → IdsStand front (map (expired_at (later d.now n)) rows) (after_tick d n) }
    ensures notes { (front : List ℕ) (rows : List PendingRow) (d : DeviceState) (n : ℕ) →
        NotesStand front rows d → NotesStand front (map (expired_at (later d.now n)) rows) (after_tick d n) }
    ensures blocks { (area : List (Option (List ℕ))) (d : DeviceState) (lists : List Taken) (n : ℕ) → BlocksStand area d lists → BlocksStand area (after_tick d n) lists }
    ensures jobs { (user : UserState) (hand : List InHand) (rows : List PendingRow) (d : DeviceState) (lists : List Taken) (n : ℕ) →
        JobsStand user hand rows d lists → JobsStand user hand (map (expired_at (later d.now n)) rows) (after_tick d n) lists }
    ensures target { (t : TargetState) (d : DeviceState) (lists : List Taken) (n : ℕ) → TargetKeeps t d lists → TargetKeeps (target_ticked t n) (after_tick d n) lists }
    ensures side { (user : UserState) (d : DeviceState) (n : ℕ) → UserKeeps user d → UserKeeps user (after_tick d n) }
    ensures lists { (d : DeviceState) (lists : List Taken) (n : ℕ) → ListsSound d lists → ListsSound (after_tick d n) lists }
    ensures pages { (r : RegionState) (d : DeviceState) (n : ℕ) → r.pages ≡ d.settings.pages → r.pages ≡ (after_tick d n).settings.pages }
{}

/// A block and an unblock turn the target's bit and leave every point as it is.
pub fn block_law()
    ensures ring { (front : List ℕ) (items : List Recorded) (d : DeviceState) (lists : List Taken) (b : Bool) → RingStands front items d lists → RingStands front items (after_block d b) lists }
    ensures ids { (front : List ℕ) (rows : List PendingRow) (d : DeviceState) (b : Bool) → IdsStand front rows d → IdsStand front rows (after_block d b) }
    ensures notes { (front : List ℕ) (rows : List PendingRow) (d : DeviceState) (b : Bool) → NotesStand front rows d → NotesStand front rows (after_block d b) }
    ensures blocks { (area : List (Option (List ℕ))) (d : DeviceState) (lists : List Taken) (b : Bool) → BlocksStand area d lists → BlocksStand area (after_block d b) lists }
    ensures jobs { (user : UserState) (hand : List InHand) (rows : List PendingRow) (d : DeviceState) (lists : List Taken) (b : Bool) →
        JobsStand user hand rows d lists → JobsStand user hand rows (after_block d b) lists }
    ensures target { (t : TargetState) (d : DeviceState) (lists : List Taken) (b : Bool) → TargetKeeps t d lists → TargetKeeps (target_blocked t b) (after_block d b) lists }
    ensures side { (user : UserState) (d : DeviceState) (b : Bool) → UserKeeps user d → UserKeeps user (after_block d b) }
    ensures lists { (d : DeviceState) (lists : List Taken) (b : Bool) → ListsSound d lists → ListsSound (after_block d b) lists }
    ensures pages { (r : RegionState) (d : DeviceState) (b : Bool) → r.pages ≡ d.settings.pages → r.pages ≡ (after_block d b).settings.pages }
{}
