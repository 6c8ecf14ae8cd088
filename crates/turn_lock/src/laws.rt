//! What follows from the definitions alone.
ghost use Rattle.turn_lock.specs.Receipts.{ReceiptsLast};

use crate::stepped::Stepped;

/// What a receipt says of a history stays true while the history grows. It does nothing when it runs.
pub fn receipts_last<K: Stepped>()
    ensures { ReceiptsLast K.makes_entry K.fits }
{}
