//! What follows for a medium from its calls.
ghost use Rattle.scsi_model.specs.Runs.{RunsKeep, RunsCount, SyncsReach, RunsStayLossless, RunsShowFile, HoldsOne, RunsLeave};

/// Behind any run of its calls a medium has its blocks, its protected bit and its layer, the store below it has its length, and as much
/// is told of both as before.
pub fn runs_keep()
    ensures { RunsKeep }
{}

/// A medium counts each of its calls, those that fail too.
pub fn runs_count()
    ensures { RunsCount }
{}

/// A sync of a medium that did not fail asked its store for one sync more, where syncs go to a store: over a file, and in write-back.
pub fn syncs_reach()
    ensures { SyncsReach }
{}

/// A medium in memory, and one in a file whose store lists no failing call, loses nothing where nothing of it is lost.
pub fn runs_stay_lossless()
    ensures { RunsStayLossless }
{}

/// A medium over a file shows what its store holds, but for the lost range, and each free block of the store lies in that range.
pub fn runs_show_file()
    ensures { RunsShowFile }
{}

/// What the store below such a medium may hold is determined by what the medium shows, but for the bytes of the lost range.
pub fn holds_one()
    ensures { HoldsOne }
{}

/// A byte of a file that lies in the range of no write or fill, a failed one too, stays as it was.
pub fn runs_leave()
    ensures { RunsLeave }
{}
