//! What a submit that queues a command keeps.
ghost use Rattle.std.specs.Prelude.{◌≡◌, ℕ, false, List, map};
ghost use Rattle.tcmu_types.specs.Data.{CommandData};
ghost use Rattle.tcmu_types.specs.declared.answer.Submit.TheVariants.{Queued};
ghost use Rattle.tcmu_model.specs.Device.{DeviceState};
ghost use Rattle.tcmu_model.specs.Events.{after_submit, submit_answer};
ghost use Rattle.tcmu_types.specs.Numbers.{is_among};
ghost use Rattle.tcmu_model.specs.BlockLists.{Taken, with_taken};
ghost use Rattle.region_model.specs.Regions.{RegionState};
ghost use Rattle.tcmu_model.specs.Sound.{IsSound};
ghost use Rattle.region_model.specs.Sides.{InHand, TargetState, UserState};
ghost use Rattle.region_model.specs.TargetSteps.{region_submitted, target_submitted};
ghost use Rattle.tcmu_model.specs.Owned.{ListsSound};
ghost use Rattle.region_model.specs.Represents.{BlocksStand, IdsStand, IsId, JobsStand, NotesStand, RingStands, TargetKeeps, UserKeeps};
ghost use Rattle.ring_laws.specs.Sizes.{IsSized};

/// A submit that queues a command keeps every point, as laying does.
pub fn submit_law()
    ensures ring { (r : RegionState) (t : TargetState) (d : DeviceState) (lists : List Taken) (s : ℕ) (c : CommandData) (id : ℕ) →
        IsSound d → ListsSound d lists → RingStands r.front t.items d lists → TargetKeeps t d lists → IsId id → submit_answer d c ≡ Queued s →
        RingStands (region_submitted r t c id (Queued s)).front (target_submitted t c id (Queued s)).items (after_submit d c (Queued s)) (with_taken d lists s c) }
    ensures ids { (r : RegionState) (t : TargetState) (d : DeviceState) (lists : List Taken) (s : ℕ) (c : CommandData) (id : ℕ) →
        IsSound d → ListsSound d lists → RingStands r.front t.items d lists → IdsStand r.front t.rows d → TargetKeeps t d lists → IsId id →
        is_among (map (λ e. e.id) t.rows) id ≡ false → submit_answer d c ≡ Queued s →
        IdsStand (region_submitted r t c id (Queued s)).front (target_submitted t c id (Queued s)).rows (after_submit d c (Queued s)) }
    ensures notes { (r : RegionState) (t : TargetState) (d : DeviceState) (lists : List Taken) (s : ℕ) (c : CommandData) (id : ℕ) →
        IsSound d → ListsSound d lists → RingStands r.front t.items d lists → NotesStand r.front t.rows d → TargetKeeps t d lists → IsId id →
        submit_answer d c ≡ Queued s →
        NotesStand (region_submitted r t c id (Queued s)).front (target_submitted t c id (Queued s)).rows (after_submit d c (Queued s)) }
    ensures blocks { (r : RegionState) (t : TargetState) (d : DeviceState) (lists : List Taken) (s : ℕ) (c : CommandData) (id : ℕ) →
        IsSound d → ListsSound d lists → IsSized r → r.pages ≡ d.settings.pages → BlocksStand r.blocks d lists →
        TargetKeeps t d lists → submit_answer d c ≡ Queued s →
        BlocksStand (region_submitted r t c id (Queued s)).blocks (after_submit d c (Queued s)) (with_taken d lists s c) }
    ensures jobs { (user : UserState) (hand : List InHand) (t : TargetState) (d : DeviceState) (lists : List Taken) (s : ℕ) (c : CommandData) (id : ℕ) →
        IsSound d → ListsSound d lists → JobsStand user hand t.rows d lists → submit_answer d c ≡ Queued s →
        JobsStand user hand (target_submitted t c id (Queued s)).rows (after_submit d c (Queued s)) (with_taken d lists s c) }
    ensures target { (t : TargetState) (d : DeviceState) (lists : List Taken) (s : ℕ) (c : CommandData) (id : ℕ) →
        IsSound d → ListsSound d lists → TargetKeeps t d lists → submit_answer d c ≡ Queued s →
        TargetKeeps (target_submitted t c id (Queued s)) (after_submit d c (Queued s)) (with_taken d lists s c) }
    ensures side { (user : UserState) (d : DeviceState) (s : ℕ) (c : CommandData) → IsSound d → UserKeeps user d → UserKeeps user (after_submit d c (Queued s)) }
    ensures lists { (d : DeviceState) (lists : List Taken) (s : ℕ) (c : CommandData) →
        IsSound d → ListsSound d lists → submit_answer d c ≡ Queued s → ListsSound (after_submit d c (Queued s)) (with_taken d lists s c) }
    ensures pages { (r : RegionState) (t : TargetState) (d : DeviceState) (s : ℕ) (c : CommandData) (id : ℕ) →
        r.pages ≡ d.settings.pages → (region_submitted r t c id (Queued s)).pages ≡ (after_submit d c (Queued s)).settings.pages }
    ensures sized { (r : RegionState) (t : TargetState) (s : ℕ) (c : CommandData) (id : ℕ) → IsSized r → IsSized (region_submitted r t c id (Queued s)) }
{}
