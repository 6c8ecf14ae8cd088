//! What a delayed command that enters keeps.
ghost use Rattle.std.specs.Prelude.{◌≡◌, ℕ, false, List, ◌∷◌, map};
ghost use Rattle.tcmu_types.specs.declared.answer.Enter.TheVariants.{Entered};
ghost use Rattle.tcmu_model.specs.Device.{Delayed, DeviceState};
ghost use Rattle.tcmu_model.specs.Events.{after_enter, enter_answer};
ghost use Rattle.tcmu_types.specs.Numbers.{is_among};
ghost use Rattle.tcmu_model.specs.BlockLists.{Taken, with_taken};
ghost use Rattle.region_model.specs.Regions.{RegionState};
ghost use Rattle.tcmu_model.specs.Sound.{IsSound};
ghost use Rattle.region_model.specs.Sides.{InHand, TargetState, UserState};
ghost use Rattle.region_model.specs.TargetSteps.{region_entered, target_entered};
ghost use Rattle.tcmu_model.specs.Owned.{ListsSound};
ghost use Rattle.region_model.specs.Represents.{BlocksStand, IdsStand, IsId, JobsStand, NotesStand, RingStands, TargetKeeps, UserKeeps};
ghost use Rattle.ring_laws.specs.Sizes.{IsSized};

/// The first delayed command enters: the serial of the answer is its own, and every point is kept, as laying does.
pub fn enter_law()
    ensures serial { (d : DeviceState) (w : Delayed) (ws : List Delayed) (s : ℕ) → IsSound d → d.delayed ≡ w ∷ ws → enter_answer d ≡ Entered s → s ≡ w.serial }
    ensures ring { (r : RegionState) (t : TargetState) (d : DeviceState) (lists : List Taken) (w : Delayed) (ws : List Delayed) (s id : ℕ) →
        IsSound d → ListsSound d lists → RingStands r.front t.items d lists → TargetKeeps t d lists → IsId id → d.delayed ≡ w ∷ ws →
        enter_answer d ≡ Entered s →
        RingStands (region_entered r t id (Entered s)).front (target_entered t id (Entered s)).items (after_enter d (Entered s)) (with_taken d lists w.serial w.command) }
    ensures ids { (r : RegionState) (t : TargetState) (d : DeviceState) (lists : List Taken) (w : Delayed) (ws : List Delayed) (s id : ℕ) →
        IsSound d → ListsSound d lists → RingStands r.front t.items d lists → IdsStand r.front t.rows d → TargetKeeps t d lists → IsId id →
        is_among (map (λ e. e.id) t.rows) id ≡ false → d.delayed ≡ w ∷ ws → enter_answer d ≡ Entered s →
        IdsStand (region_entered r t id (Entered s)).front (target_entered t id (Entered s)).rows (after_enter d (Entered s)) }
    ensures notes { (r : RegionState) (t : TargetState) (d : DeviceState) (lists : List Taken) (w : Delayed) (ws : List Delayed) (s id : ℕ) →
        IsSound d → ListsSound d lists → RingStands r.front t.items d lists → NotesStand r.front t.rows d → TargetKeeps t d lists → IsId id →
        d.delayed ≡ w ∷ ws → enter_answer d ≡ Entered s →
        NotesStand (region_entered r t id (Entered s)).front (target_entered t id (Entered s)).rows (after_enter d (Entered s)) }
    ensures blocks { (r : RegionState) (t : TargetState) (d : DeviceState) (lists : List Taken) (w : Delayed) (ws : List Delayed) (s id : ℕ) →
        IsSound d → ListsSound d lists → IsSized r → r.pages ≡ d.settings.pages → BlocksStand r.blocks d lists →
        TargetKeeps t d lists → d.delayed ≡ w ∷ ws → enter_answer d ≡ Entered s →
        BlocksStand (region_entered r t id (Entered s)).blocks (after_enter d (Entered s)) (with_taken d lists w.serial w.command) }
    ensures jobs { (user : UserState) (hand : List InHand) (t : TargetState) (d : DeviceState) (lists : List Taken) (w : Delayed) (ws : List Delayed) (s id : ℕ) →
        IsSound d → ListsSound d lists → JobsStand user hand t.rows d lists → TargetKeeps t d lists → d.delayed ≡ w ∷ ws → enter_answer d ≡ Entered s →
        JobsStand user hand (target_entered t id (Entered s)).rows (after_enter d (Entered s)) (with_taken d lists w.serial w.command) }
    ensures target { (t : TargetState) (d : DeviceState) (lists : List Taken) (w : Delayed) (ws : List Delayed) (s id : ℕ) →
        IsSound d → ListsSound d lists → TargetKeeps t d lists → d.delayed ≡ w ∷ ws → enter_answer d ≡ Entered s →
        TargetKeeps (target_entered t id (Entered s)) (after_enter d (Entered s)) (with_taken d lists w.serial w.command) }
    ensures side { (user : UserState) (d : DeviceState) (w : Delayed) (ws : List Delayed) (s : ℕ) →
        IsSound d → UserKeeps user d → d.delayed ≡ w ∷ ws → UserKeeps user (after_enter d (Entered s)) }
    ensures lists { (d : DeviceState) (lists : List Taken) (w : Delayed) (ws : List Delayed) (s : ℕ) →
        IsSound d → ListsSound d lists → d.delayed ≡ w ∷ ws → enter_answer d ≡ Entered s → ListsSound (after_enter d (Entered s)) (with_taken d lists w.serial w.command) }
    ensures pages { (r : RegionState) (t : TargetState) (d : DeviceState) (lists : List Taken) (w : Delayed) (ws : List Delayed) (s id : ℕ) →
        TargetKeeps t d lists → d.delayed ≡ w ∷ ws → r.pages ≡ d.settings.pages → (region_entered r t id (Entered s)).pages ≡ (after_enter d (Entered s)).settings.pages }
    ensures sized { (r : RegionState) (t : TargetState) (s id : ℕ) → IsSized r → IsSized (region_entered r t id (Entered s)) }
{}
