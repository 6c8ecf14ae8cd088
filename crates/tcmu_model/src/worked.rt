//! Worked examples of the device: what the definitions give for events that engineers know.
ghost use Rattle.tcmu_model.specs.Examples.{RingFills, ExactlyFull, BlocksFill, BlocksFree, TooLong, LongEnough, TooManyBlocks, OutOfOrder, LoggedAsPlaced, InOrder, LoggedAsLaid, Expires, ExpiredSense, LoggedOnce, NotDue, NeverDue, ResetAnswers, ResetStatus, LostReset, LostLog, LostLogTarget, LostCount, DoesNothingDetached, NoteAnswers, NotesPass, NotesOff, Waits, LeavesFull, StaysDelayed, WaitsReset, WaitsBusy, WaitsDrained, ExpiresInTime, ExpiresNotEarly, ExpiresNotLate, CleanExpiresNone, LeavesInTime, LeavesNotEarly, LeavesNotLate};

/// The ring and the data area fill exactly, and what no empty one takes is too big.
pub fn room_examples()
    ensures ring_fills { RingFills }
    ensures exactly_full { ExactlyFull }
    ensures blocks_fill { BlocksFill }
    ensures blocks_free { BlocksFree }
    ensures too_long { TooLong }
    ensures long_enough { LongEnough }
    ensures too_many_blocks { TooManyBlocks }
{}

/// Out of order answers are placed as they come; in order each waits for those of earlier commands.
pub fn order_examples()
    ensures out_of_order { OutOfOrder }
    ensures logged_as_placed { LoggedAsPlaced }
    ensures in_order { InOrder }
    ensures logged_as_laid { LoggedAsLaid }
{}

/// A command expires at its deadline, is logged once, and stays in the ring until the drain.
pub fn expiry_examples()
    ensures expires { Expires }
    ensures expired_sense { ExpiredSense }
    ensures logged_once { LoggedOnce }
    ensures not_due { NotDue }
    ensures never_due { NeverDue }
{}

/// A reset wants a blocked device with nothing in hand; a restart loses what the user side had.
pub fn reset_examples()
    ensures resets { ResetAnswers }
    ensures reset_status { ResetStatus }
    ensures lost_reset { LostReset }
    ensures lost_log { LostLog }
    ensures lost_log_target { LostLogTarget }
    ensures lost_count { LostCount }
    ensures detached { DoesNothingDetached }
{}

/// A note names unfinished commands, and tells the user side of those that run.
pub fn note_examples()
    ensures notes { NoteAnswers }
    ensures notes_pass { NotesPass }
    ensures notes_off { NotesOff }
{}

/// A command for which room lacks waits, enters where there is room, and leaves at its moment.
pub fn waiting_examples()
    ensures waits { Waits }
    ensures leaves { LeavesFull }
    ensures stays { StaysDelayed }
    ensures waits_reset { WaitsReset }
    ensures waits_busy { WaitsBusy }
    ensures waits_drained { WaitsDrained }
{}

/// The tick that comes to a command's deadline, or to the end of its wait, is the cause of its completion; no tick before or behind it
/// is, and no clean.
pub fn cause_examples()
    ensures expires { ExpiresInTime }
    ensures expires_not_early { ExpiresNotEarly }
    ensures expires_not_late { ExpiresNotLate }
    ensures clean_expires_none { CleanExpiresNone }
    ensures leaves { LeavesInTime }
    ensures leaves_not_early { LeavesNotEarly }
    ensures leaves_not_late { LeavesNotLate }
{}
