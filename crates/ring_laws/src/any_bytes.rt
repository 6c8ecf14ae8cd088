//! What the target keeps over any bytes that the user side leaves in the region between its calls.
ghost use Rattle.std.specs.Prelude.{◌≡◌, ◌≤◌, ◌<◌, ◌+◌, ℕ, Bool, true, false, List, Some, None, length, map, if◌then◌else◌};
ghost use Rattle.tcmu_types.specs.Data.{SettingsData};
ghost use Rattle.tcmu_types.specs.Rules.{IsSettings};
ghost use Rattle.region_model.specs.Layout.{data_start};
ghost use Rattle.region_model.specs.Regions.{RegionState, opening_region};
ghost use Rattle.region_model.specs.Sides.{TargetState};
ghost use Rattle.tcmu_model.specs.Sound.{times_logged};
ghost use Rattle.tcmu_types.specs.Numbers.{Differ};
ghost use Rattle.tcmu_types.specs.Lists.{Every};
ghost use Rattle.region_model.specs.Represents.{IsId};
ghost use Rattle.region_model.specs.TargetSteps.{blocks_held, fits_in, head_in, opening_target, pad_in, place_in};
ghost use Rattle.region_model.specs.TargetCleans.{BadTail, Broken, Logged, tail_read, target_clean_answer, target_cleaned, target_reset};
ghost use Rattle.ring_laws.specs.CalledOn.{CalledOn, region_called};
ghost use Rattle.ring_laws.specs.DatesKept.{DatesKept};
ghost use Rattle.ring_laws.specs.RingKept.{RingKept, RowsKept};
ghost use Rattle.ring_laws.specs.Calls.{CallLogs, CallMade, Called, CanCall, CleanLogs, ClearsFirst, Emptied, HasSerial, IsDoneOf, IsRowOf, StopsAt, TargetCall, TargetSound, Unchanged, accepted_along, is_given, is_reset, target_called, times_delayed, times_pending};

/// The target is sound as it opens, and each of its calls keeps it so, on a region of any bytes and any area; so it is after any list of
/// calls. No call takes a completion back, and the bytes of each new one are the first along its own command's blocks in the region at that
/// call.
pub fn calls_law()
    ensures opening { (s : SettingsData) → TargetSound (opening_target s) }
    ensures each { (r : RegionState) (t : TargetState) (call : TargetCall) → TargetSound t → CanCall t call → TargetSound (target_called r t call) }
    ensures all { (s : SettingsData) (calls : List CallMade) (t : TargetState) → Called (opening_target s) calls t → TargetSound t }
    ensures logs { (r : RegionState) (t : TargetState) (call : TargetCall) → TargetSound t → CallLogs r t (target_called r t call) }
{}

/// Over any list of calls, and any bytes written between them: no serial is logged twice, and each accepted one is once logged, or once
/// pending and not expired, or once delayed, and no other is. A pending command that expired is in the log.
pub fn serials_law()
    ensures once { (s : SettingsData) (calls : List CallMade) (t : TargetState) → Called (opening_target s) calls t → Differ (map (λ e. e.serial) t.log) }
    ensures given { (s : SettingsData) (calls : List CallMade) (t : TargetState) → Called (opening_target s) calls t → Every (λ e. (1 ≤ e.serial) × (e.serial ≤ t.accepted)) t.log }
    ensures accounted { (s : SettingsData) (calls : List CallMade) (t : TargetState) (k : ℕ) → Called (opening_target s) calls t →
        times_logged t.log k + times_pending t.rows k + times_delayed t.delayed k ≡ (if is_given t.accepted k then 1 else 0) }
    ensures expired { (s : SettingsData) (calls : List CallMade) (t : TargetState) → Called (opening_target s) calls t →
        Every (λ e. e.pending.expired ≡ true → times_logged t.log e.pending.serial ≡ 1) t.rows }
{}

/// Over the same, no two commands have one id, no block is held twice, and each held block is below the limit.
pub fn held_law()
    ensures range { (s : SettingsData) (calls : List CallMade) (t : TargetState) → Called (opening_target s) calls t → Every (λ e. IsId e.id) t.rows }
    ensures ids { (s : SettingsData) (calls : List CallMade) (t : TargetState) → Called (opening_target s) calls t → Differ (map (λ e. e.id) t.rows) }
    ensures blocks { (s : SettingsData) (calls : List CallMade) (t : TargetState) → Called (opening_target s) calls t → Differ (blocks_held t.rows) }
    ensures below { (s : SettingsData) (calls : List CallMade) (t : TargetState) → Called (opening_target s) calls t → Every (λ n. n < s.blocks) (blocks_held t.rows) }
{}

/// Over the same, the serial of the k-th command that was accepted is k. Each pending command has its command's initiator, tag and data-in
/// length, and as many blocks as its command needs; each that waits is as it was accepted; and each completion is for its command's
/// initiator and tag, with no more bytes than its command asked for, sense data exactly with CHECK CONDITION, and bytes only with GOOD.
pub fn commands_law()
    ensures count { (s : SettingsData) (calls : List CallMade) (t : TargetState) → Called (opening_target s) calls t → length (accepted_along (opening_target s) calls) ≡ t.accepted }
    ensures rows { (s : SettingsData) (calls : List CallMade) (t : TargetState) → Called (opening_target s) calls t →
        Every (λ e. IsRowOf (accepted_along (opening_target s) calls) s.pages e.pending) t.rows }
    ensures delayed { (s : SettingsData) (calls : List CallMade) (t : TargetState) → Called (opening_target s) calls t →
        Every (λ w. HasSerial (accepted_along (opening_target s) calls) w.serial w.command) t.delayed }
    ensures log { (s : SettingsData) (calls : List CallMade) (t : TargetState) → Called (opening_target s) calls t → Every (IsDoneOf (accepted_along (opening_target s) calls)) t.log }
{}

/// On the one region that was made with the target's settings, whose area the target alone grows and shrinks, the area has all blocks that
/// are held and at most as many as the settings allow, and the bytes before it stay as many, whatever the user side writes and lends
/// between two calls. All other laws here hold of these calls too.
pub fn area_law()
    ensures called { (r : RegionState) (t : TargetState) (calls : List CallMade) (left : RegionState) (after : TargetState) → CalledOn r t calls left after → Called t calls after }
    ensures held { (s : SettingsData) (calls : List CallMade) (r : RegionState) (t : TargetState) → CalledOn (opening_region s) (opening_target s) calls r t →
        Every (λ n. n < length r.blocks) (blocks_held t.rows) }
    ensures most { (s : SettingsData) (calls : List CallMade) (r : RegionState) (t : TargetState) → CalledOn (opening_region s) (opening_target s) calls r t → length r.blocks ≤ s.blocks }
    ensures pages { (s : SettingsData) (calls : List CallMade) (r : RegionState) (t : TargetState) → CalledOn (opening_region s) (opening_target s) calls r t → r.pages ≡ s.pages }
    ensures front { (s : SettingsData) (calls : List CallMade) (r : RegionState) (t : TargetState) →
        IsSettings s → CalledOn (opening_region s) (opening_target s) calls r t → length r.front ≡ data_start s.ring }
{}

/// The target's record of its items leaves a byte of the ring and begins at a place of it, over any list of calls. So an item that is laid,
/// with the padding before it, stands whole in the ring, and the bytes before the data area stay as many.
pub fn any_ring_law()
    ensures all { (s : SettingsData) (calls : List CallMade) (t : TargetState) → IsSettings s → Called (opening_target s) calls t → RingKept t }
    ensures each { (r : RegionState) (t : TargetState) (call : TargetCall) → IsSettings t.settings → TargetSound t → RingKept t → RingKept (target_called r t call) }
    ensures pad_room { (t : TargetState) (n : ℕ) → IsSettings t.settings → RingKept t → fits_in t n ≡ true → head_in t + pad_in t n ≤ t.settings.ring }
    ensures whole { (t : TargetState) (n : ℕ) → IsSettings t.settings → RingKept t → fits_in t n ≡ true → place_in t n + n ≤ t.settings.ring }
    ensures front { (r : RegionState) (t : TargetState) (call : TargetCall) → IsSettings t.settings → TargetSound t → RingKept t → length r.front ≡ data_start t.settings.ring →
        length (region_called r t call).front ≡ length r.front }
{}

/// The target's items and its rows are of the same commands, over any list of calls, so there are fewer of them than ids.
pub fn any_rows_law()
    ensures all { (s : SettingsData) (calls : List CallMade) (t : TargetState) → Called (opening_target s) calls t → RowsKept t }
    ensures each { (r : RegionState) (t : TargetState) (call : TargetCall) → RowsKept t → RowsKept (target_called r t call) }
    ensures few { (t : TargetState) → IsSettings t.settings → RingKept t → RowsKept t → length t.rows < 65535 }
    ensures few_of_all { (s : SettingsData) (calls : List CallMade) (t : TargetState) → IsSettings s → Called (opening_target s) calls t → length t.rows < 65535 }
{}

/// The target's moment stops at 2^63, and no pending command is due behind one that is laid now, over any list of calls: so commands are
/// due in the order of their serials.
pub fn any_dates_law()
    ensures opening { (s : SettingsData) → DatesKept (opening_target s) }
    ensures all { (s : SettingsData) (calls : List CallMade) (t : TargetState) → Called (opening_target s) calls t → DatesKept t }
    ensures each { (r : RegionState) (t : TargetState) (call : TargetCall) → DatesKept t → DatesKept (target_called r t call) }
{}

/// Whatever the region holds, a clean logs completions of commands that it takes out, each with the first bytes along its own blocks, and
/// no others. It clears the first items, up to the tail where it comes to no fault. With a kept id, which stays up to a reset, or with a
/// tail that is no item's end, it changes nothing. An id that it stops at is no command's, and stands in the entry of the first item that
/// stays.
pub fn any_clean_law()
    ensures logs { (r : RegionState) (t : TargetState) → TargetSound t → CleanLogs r t (target_cleaned r t) }
    ensures kept { (r : RegionState) (t : TargetState) (id : ℕ) → t.broken ≡ Some id → (target_clean_answer r t ≡ Broken id) × Unchanged r t }
    ensures stays { (r : RegionState) (t : TargetState) (call : TargetCall) (id : ℕ) → t.broken ≡ Some id → is_reset call ≡ false → (target_called r t call).broken ≡ Some id }
    ensures bad_tail { (r : RegionState) (t : TargetState) (tail : ℕ) → target_clean_answer r t ≡ BadTail tail → Unchanged r t }
    ensures stops { (r : RegionState) (t : TargetState) (id : ℕ) → t.broken ≡ None → target_clean_answer r t ≡ Broken id → StopsAt r id (target_cleaned r t) }
    ensures front { (r : RegionState) (t : TargetState) → t.cleaned < t.settings.ring → (k : ℕ) × ClearsFirst t (target_cleaned r t) k }
    ensures to_tail { (r : RegionState) (t : TargetState) (n : ℕ) → target_clean_answer r t ≡ Logged n → (target_cleaned r t).cleaned ≡ tail_read r }
{}

/// A reset empties the target, whatever the region holds: after what a clean would log, all that is left is logged. Its record of the ring
/// begins at place 0 again, and the moment stays.
pub fn any_reset_law()
    ensures empties { (r : RegionState) (t : TargetState) (level : ℕ) → Emptied (target_cleaned r t) level (target_reset r t level) }
{}
