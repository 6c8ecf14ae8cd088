//! What the ring's numbers have to do with the ring's state.
ghost use Rattle.std.specs.Prelude.{◌≡◌, ℕ, ◌+◌, ◌≤◌, List, length};
ghost use Rattle.tcmu_model.specs.RingState.{RingState, Item, empty_ring, with_item};
ghost use Rattle.tcmu_model.specs.RingState as ring;
ghost use Rattle.cmd_ring.specs.Places.{free, pad, need, fits, opened, placed, advanced, places_of};
ghost use Rattle.tcmu_types.specs.Rules.{IsRingSize};
ghost use Rattle.cmd_ring.specs.Calls.{RingCall, AllAllowed, Follows, oldest};

/// The numbers of a `Ring` are those of the ring's state, for every list of calls behind `new` in which each item is laid where
/// it fits and each clean is given the lengths of the oldest items; and each call's conditions are met on the way.
pub fn places_law()
    ensures room { (r : RingState) (n : ℕ) →
        (free (places_of r) ≡ ring.free r) × (pad (places_of r) n ≡ ring.pad r n) × (need (places_of r) n ≡ ring.need r n) ×
        (fits (places_of r) n ≡ ring.fits r n) }
    ensures opening { (size : ℕ) → IsRingSize size → places_of (empty_ring size) ≡ opened size }
    ensures laying { (r : RingState) (i : Item) → r.cleared ≤ length r.laid → places_of (with_item r i) ≡ placed (places_of r) i.len }
    ensures clearing { (r : RingState) (k : ℕ) → r.cleared + k ≤ length r.laid →
        places_of (record r { cleared = r.cleared + k }) ≡ advanced (places_of r) (oldest r k) }
    ensures calls { (size : ℕ) (calls : List RingCall) → IsRingSize size → AllAllowed (empty_ring size) calls →
        Follows (opened size) (empty_ring size) calls }
{}
