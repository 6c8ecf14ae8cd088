//! What laying a command keeps, at a submit or when it enters.
ghost use Rattle.std.specs.Prelude.{◌≡◌, ◌<◌, ℕ, false, List, map};
ghost use Rattle.tcmu_types.specs.Data.{CommandData};
ghost use Rattle.region_model.specs.Areas.{IsHome};
ghost use Rattle.tcmu_types.specs.Numbers.{above_all, is_among};
ghost use Rattle.tcmu_model.specs.RingState.{serials_in};
ghost use Rattle.tcmu_model.specs.Device.{DeviceState};
ghost use Rattle.tcmu_model.specs.Events.{with_command};
ghost use Rattle.tcmu_model.specs.BlockLists.{Taken, with_taken};
ghost use Rattle.region_model.specs.Regions.{RegionState, grown_to, size_of};
ghost use Rattle.tcmu_model.specs.Sound.{IsSound};
ghost use Rattle.tcmu_types.specs.Lists.{Every};
ghost use Rattle.region_model.specs.Sides.{InHand, TargetState, UserState};
ghost use Rattle.region_model.specs.TargetSteps.{blocks_given, region_laid, target_laid};
ghost use Rattle.tcmu_model.specs.Owned.{HasRoom, ListsSound};
ghost use Rattle.region_model.specs.Represents.{BlocksStand, IdsStand, IsId, JobsStand, NotesStand, RingStands, TargetKeeps, UserKeeps};
ghost use Rattle.ring_laws.specs.Sizes.{IsSized};

/// A command is laid, at a submit or when it enters, under an id that none has. The ring stands, with the ids in it; a note's id that is
/// left over may be the new command's, which is laid behind the note. The blocks stand with their data, where the new ones are cleared or
/// have the payload, and keep their size; each of them is at home once the area has grown, so none that is lent is written. No job is
/// given, both sides' records follow, and the block lists stay sound.
pub fn laying_law()
    ensures ring { (r : RegionState) (t : TargetState) (d : DeviceState) (lists : List Taken) (s : ℕ) (c : CommandData) (id : ℕ) →
        IsSound d → ListsSound d lists → RingStands r.front t.items d lists → TargetKeeps t d lists → HasRoom d c → IsId id →
        Every (λ k. k < s) (serials_in d.ring.laid) →
        RingStands (region_laid r t c id).front (target_laid t s c id).items (with_command d s c) (with_taken d lists s c) }
    ensures ids { (r : RegionState) (t : TargetState) (d : DeviceState) (lists : List Taken) (s : ℕ) (c : CommandData) (id : ℕ) →
        IsSound d → ListsSound d lists → RingStands r.front t.items d lists → IdsStand r.front t.rows d → TargetKeeps t d lists → HasRoom d c →
        IsId id → is_among (map (λ e. e.id) t.rows) id ≡ false → Every (λ k. k < s) (serials_in d.ring.laid) →
        IdsStand (region_laid r t c id).front (target_laid t s c id).rows (with_command d s c) }
    ensures notes { (r : RegionState) (t : TargetState) (d : DeviceState) (lists : List Taken) (s : ℕ) (c : CommandData) (id : ℕ) →
        IsSound d → ListsSound d lists → RingStands r.front t.items d lists → NotesStand r.front t.rows d → TargetKeeps t d lists → HasRoom d c →
        IsId id → Every (λ k. k < s) (serials_in d.ring.laid) →
        NotesStand (region_laid r t c id).front (target_laid t s c id).rows (with_command d s c) }
    ensures blocks { (r : RegionState) (t : TargetState) (d : DeviceState) (lists : List Taken) (s : ℕ) (c : CommandData) (id : ℕ) →
        IsSound d → ListsSound d lists → IsSized r → r.pages ≡ d.settings.pages → BlocksStand r.blocks d lists →
        TargetKeeps t d lists → HasRoom d c → Every (λ k. k < s) (serials_in d.ring.laid) →
        BlocksStand (region_laid r t c id).blocks (with_command d s c) (with_taken d lists s c) }
    ensures home { (r : RegionState) (t : TargetState) (d : DeviceState) (lists : List Taken) (c : CommandData) →
        IsSound d → ListsSound d lists → IsSized r → r.pages ≡ d.settings.pages → BlocksStand r.blocks d lists → TargetKeeps t d lists → HasRoom d c →
        Every (IsHome (size_of r) (grown_to r (above_all (blocks_given t c))).blocks) (blocks_given t c) }
    ensures jobs { (user : UserState) (hand : List InHand) (t : TargetState) (d : DeviceState) (lists : List Taken) (s : ℕ) (c : CommandData) (id : ℕ) →
        IsSound d → ListsSound d lists → JobsStand user hand t.rows d lists → Every (λ k. k < s) (serials_in d.ring.laid) →
        JobsStand user hand (target_laid t s c id).rows (with_command d s c) (with_taken d lists s c) }
    ensures target { (t : TargetState) (d : DeviceState) (lists : List Taken) (s : ℕ) (c : CommandData) (id : ℕ) →
        IsSound d → ListsSound d lists → TargetKeeps t d lists → Every (λ k. k < s) (serials_in d.ring.laid) →
        TargetKeeps (target_laid t s c id) (with_command d s c) (with_taken d lists s c) }
    ensures side { (user : UserState) (d : DeviceState) (s : ℕ) (c : CommandData) → IsSound d → UserKeeps user d → UserKeeps user (with_command d s c) }
    ensures lists { (d : DeviceState) (lists : List Taken) (s : ℕ) (c : CommandData) → IsSound d → ListsSound d lists → HasRoom d c →
        Every (λ k. k < s) (serials_in d.ring.laid) → ListsSound (with_command d s c) (with_taken d lists s c) }
    ensures pages { (r : RegionState) (t : TargetState) (d : DeviceState) (s : ℕ) (c : CommandData) (id : ℕ) →
        r.pages ≡ d.settings.pages → (region_laid r t c id).pages ≡ (with_command d s c).settings.pages }
    ensures sized { (r : RegionState) (t : TargetState) (c : CommandData) (id : ℕ) → IsSized r → IsSized (region_laid r t c id) }
{}
