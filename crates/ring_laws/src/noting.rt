//! What a task management note keeps, and the target's answer to it.
ghost use Rattle.std.specs.Prelude.{◌≡◌, ◌<◌, ℕ, true, List};
ghost use Rattle.tcmu_types.specs.declared.answer.Tmr.{Tmr};
ghost use Rattle.tcmu_types.specs.declared.answer.Tmr.TheVariants.{Noted};
ghost use Rattle.tcmu_model.specs.Device.{DeviceState};
ghost use Rattle.tcmu_model.specs.Events.{after_tmr, tmr_answer};
ghost use Rattle.tcmu_model.specs.BlockLists.{Taken};
ghost use Rattle.region_model.specs.Regions.{RegionState};
ghost use Rattle.tcmu_model.specs.Sound.{IsSound};
ghost use Rattle.region_model.specs.Sides.{InHand, TargetState, UserState};
ghost use Rattle.region_model.specs.Represents.{BlocksStand, IdsStand, JobsStand, NotesStand, RingStands, TargetKeeps, UserKeeps};
ghost use Rattle.region_model.specs.TargetSteps.{region_noted, target_noted, target_tmr_answer};
ghost use Rattle.tcmu_model.specs.Owned.{ListsSound};
ghost use Rattle.ring_laws.specs.Refused.{is_unnoted};
ghost use Rattle.ring_laws.specs.Sizes.{IsSized};

/// The target answers as the device. A note that is laid stands in the ring, and names each of its commands, all laid before it, by that
/// command's id; its type is a byte. No command's id, block or job is touched, and both sides' records and the soundness of the block lists
/// are kept. At any other answer nothing changes.
pub fn tmr_law()
    ensures answer { (front : List ℕ) (t : TargetState) (d : DeviceState) (lists : List Taken) (ss : List ℕ) →
        IsSound d → ListsSound d lists → RingStands front t.items d lists → TargetKeeps t d lists → target_tmr_answer t ss ≡ tmr_answer d ss }
    ensures ring { (r : RegionState) (t : TargetState) (d : DeviceState) (lists : List Taken) (type_ : ℕ) (ss : List ℕ) →
        IsSound d → RingStands r.front t.items d lists → IdsStand r.front t.rows d → TargetKeeps t d lists → tmr_answer d ss ≡ Noted →
        RingStands (region_noted r t type_ ss Noted).front (target_noted t ss Noted).items (after_tmr d type_ ss Noted) lists }
    ensures ids { (r : RegionState) (t : TargetState) (d : DeviceState) (lists : List Taken) (type_ : ℕ) (ss : List ℕ) →
        IsSound d → RingStands r.front t.items d lists → IdsStand r.front t.rows d → TargetKeeps t d lists → tmr_answer d ss ≡ Noted →
        IdsStand (region_noted r t type_ ss Noted).front (target_noted t ss Noted).rows (after_tmr d type_ ss Noted) }
    ensures notes { (r : RegionState) (t : TargetState) (d : DeviceState) (lists : List Taken) (type_ : ℕ) (ss : List ℕ) →
        IsSound d → RingStands r.front t.items d lists → IdsStand r.front t.rows d → NotesStand r.front t.rows d → TargetKeeps t d lists →
        type_ < 256 → tmr_answer d ss ≡ Noted → NotesStand (region_noted r t type_ ss Noted).front (target_noted t ss Noted).rows (after_tmr d type_ ss Noted) }
    ensures blocks { (r : RegionState) (t : TargetState) (d : DeviceState) (lists : List Taken) (type_ : ℕ) (ss : List ℕ) →
        BlocksStand r.blocks d lists → BlocksStand (region_noted r t type_ ss Noted).blocks (after_tmr d type_ ss Noted) lists }
    ensures jobs { (user : UserState) (hand : List InHand) (t : TargetState) (d : DeviceState) (lists : List Taken) (type_ : ℕ) (ss : List ℕ) →
        IsSound d → JobsStand user hand t.rows d lists → JobsStand user hand (target_noted t ss Noted).rows (after_tmr d type_ ss Noted) lists }
    ensures target { (t : TargetState) (d : DeviceState) (lists : List Taken) (type_ : ℕ) (ss : List ℕ) →
        IsSound d → TargetKeeps t d lists → TargetKeeps (target_noted t ss Noted) (after_tmr d type_ ss Noted) lists }
    ensures side { (user : UserState) (d : DeviceState) (type_ : ℕ) (ss : List ℕ) → IsSound d → UserKeeps user d → UserKeeps user (after_tmr d type_ ss Noted) }
    ensures lists { (d : DeviceState) (lists : List Taken) (type_ : ℕ) (ss : List ℕ) → ListsSound d lists → ListsSound (after_tmr d type_ ss Noted) lists }
    ensures pages { (r : RegionState) (t : TargetState) (d : DeviceState) (type_ : ℕ) (ss : List ℕ) →
        r.pages ≡ d.settings.pages → (region_noted r t type_ ss Noted).pages ≡ (after_tmr d type_ ss Noted).settings.pages }
    ensures sized { (r : RegionState) (t : TargetState) (type_ : ℕ) (ss : List ℕ) → IsSized r → IsSized (region_noted r t type_ ss Noted) }
    ensures refused { (r : RegionState) (t : TargetState) (d : DeviceState) (type_ : ℕ) (ss : List ℕ) (a : Tmr) →
        is_unnoted a ≡ true → (after_tmr d type_ ss a ≡ d) × (target_noted t ss a ≡ t) × (region_noted r t type_ ss a ≡ r) }
{}
