//! What the target reads of an answer that stands in an entry, what it logs, and what a clean as a whole keeps.
ghost use Rattle.std.specs.Prelude.{◌≡◌, ◌≤◌, ◌<◌, ◌+◌, ◌^◌, ℕ, Bool, List, Option, Some, length, unwrap_or};
ghost use Rattle.tcmu_types.specs.Data.{ReplyData};
ghost use Rattle.tcmu_types.specs.Rules.{IsCommand};
ghost use Rattle.tcmu_model.specs.declared.state.CommandState.TheVariants.{Placed};
ghost use Rattle.tcmu_model.specs.Device.{DeviceState, Unfinished};
ghost use Rattle.tcmu_model.specs.Events.{after_clean, clean_answer, completions};
ghost use Rattle.region_model.specs.Regions.{RegionState};
ghost use Rattle.tcmu_model.specs.Sound.{IsSound, ReplyFits};
ghost use Rattle.tcmu_model.specs.BlockLists.{Taken, list_of};
ghost use Rattle.region_model.specs.Layout.{ring_start};
ghost use Rattle.region_model.specs.EntryReading.{response_at};
ghost use Rattle.region_model.specs.Picture.{answered_entry, payload_of, told_length};
ghost use Rattle.region_model.specs.Represents.{BlocksStand, HaveData, IdsStand, JobsStand, NotesStand, RingStands, TargetKeeps, UserKeeps, entry_at, pending_of};
ghost use Rattle.region_model.specs.TargetCleans.{Logged, completions_read, region_cleaned, target_clean_answer, target_cleaned};
ghost use Rattle.ring_laws.specs.Cleaned.{CanClean, response_of};
ghost use Rattle.region_model.specs.Sides.{InHand, TargetState, UserState};
ghost use Rattle.tcmu_model.specs.Owned.{ListsSound};

/// The response in an entry is read from its first 112 bytes, and reads as it was written, where its status is a byte and its length a
/// number of 32 bits. From it, the target's record and the blocks, the target logs the completion that the device logs.
pub fn completion_law()
    ensures entry { (front : List ℕ) (at len : ℕ) → 112 ≤ len → ring_start + at + len ≤ length front → response_at front (ring_start + at) ≡ response_at (entry_at front at len) 0 }
    ensures read { (entry : List ℕ) (id : ℕ) (reply : ReplyData) (told : Option ℕ) →
        112 ≤ length entry → id < 2 ^ 16 → reply.status < 256 → unwrap_or told 0 < 2 ^ 32 →
        response_at (answered_entry entry id reply told) 0 ≡ response_of id reply told }
    ensures logged { (size : ℕ) (area : List (Option (List ℕ))) (lists : List Taken) (u : Unfinished) (reply : ReplyData) (read_len : Bool) (id : ℕ) →
        u.state ≡ Placed → u.reply ≡ Some reply → IsCommand u.command → ReplyFits u.command reply → HaveData size area (list_of lists u.serial) (payload_of u) →
        completions_read size area (pending_of lists u) (response_of id reply (told_length read_len u.command.cdb reply)) ≡ completions read_len u }
{}

/// The target finds neither a tail that is no item's end nor an id without a command, and logs as many completions as the device, the same
/// ones in the same order. The ring stands with its items cleared, the ids and the notes with the rows that are left (the id of a
/// command that is finished is left over in a note), the blocks in an area that may end earlier; the jobs, both sides' records and the
/// soundness of the block lists are kept.
pub fn clean_law()
    ensures answer { (r : RegionState) (t : TargetState) (d : DeviceState) (lists : List Taken) → CanClean r t d lists → target_clean_answer r t ≡ Logged (clean_answer d) }
    ensures ring { (r : RegionState) (t : TargetState) (d : DeviceState) (lists : List Taken) →
        CanClean r t d lists → RingStands (region_cleaned r t).front (target_cleaned r t).items (after_clean d) lists }
    ensures ids { (r : RegionState) (t : TargetState) (d : DeviceState) (lists : List Taken) → CanClean r t d lists → IdsStand (region_cleaned r t).front (target_cleaned r t).rows (after_clean d) }
    ensures notes { (r : RegionState) (t : TargetState) (d : DeviceState) (lists : List Taken) → CanClean r t d lists → NotesStand r.front t.rows d →
        NotesStand (region_cleaned r t).front (target_cleaned r t).rows (after_clean d) }
    ensures blocks { (r : RegionState) (t : TargetState) (d : DeviceState) (lists : List Taken) → CanClean r t d lists → BlocksStand (region_cleaned r t).blocks (after_clean d) lists }
    ensures jobs { (r : RegionState) (t : TargetState) (user : UserState) (hand : List InHand) (d : DeviceState) (lists : List Taken) →
        CanClean r t d lists → JobsStand user hand t.rows d lists → JobsStand user hand (target_cleaned r t).rows (after_clean d) lists }
    ensures target { (r : RegionState) (t : TargetState) (d : DeviceState) (lists : List Taken) → CanClean r t d lists → TargetKeeps (target_cleaned r t) (after_clean d) lists }
    ensures side { (user : UserState) (d : DeviceState) → UserKeeps user d → UserKeeps user (after_clean d) }
    ensures lists { (d : DeviceState) (lists : List Taken) → IsSound d → ListsSound d lists → ListsSound (after_clean d) lists }
    ensures pages { (r : RegionState) (t : TargetState) (d : DeviceState) → r.pages ≡ d.settings.pages → (region_cleaned r t).pages ≡ (after_clean d).settings.pages }
{}
