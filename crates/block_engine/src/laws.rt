//! What follows from the engine's relation.
ghost use Rattle.block_engine.specs.Determined.{SomeReply, WholeReply, OneReply, StaysTold, OneKnownReply, ReadsNothingLost, OneReplyInMemory, StaysInMemory, OneReplyWithoutLoss, KnowsWithoutLoss, RequestRuns};

/// Every request has a reply, over every medium.
pub fn some_reply()
    ensures { SomeReply }
{}

/// Each reply that a request may have is whole, and has no more bytes than may be answered: it is GOOD or CHECK CONDITION, and no other
/// status.
pub fn whole_reply()
    ensures { WholeReply }
{}

/// Over a medium that tells its bytes and its failing calls a request has one reply and leaves one medium, as long as it reads
/// and compares nothing that is lost. Calls of the medium that fail change nothing of that.
pub fn one_reply()
    ensures { OneReply }
{}

/// Such a medium tells its bytes and its failing calls after each request.
pub fn stays_told()
    ensures { StaysTold }
{}

/// One request of such a medium that reads and compares nothing that is lost settles what any serving of it gives and leaves.
pub fn one_known_reply()
    ensures { OneKnownReply }
{}

/// Where nothing is lost, no request reads what is lost.
pub fn reads_nothing_lost()
    ensures { ReadsNothingLost }
{}

/// Over a medium in memory the meaning of a request is a function: nothing of it is ever lost.
pub fn one_reply_in_memory()
    ensures { OneReplyInMemory }
{}

/// A medium in memory of which nothing is lost stays one after each request, and the request has one reply.
pub fn stays_in_memory()
    ensures { StaysInMemory }
{}

/// Over a medium in memory, or in a file whose store lists no failing call, the meaning of a request is a function: where nothing is
/// lost, nothing gets lost.
pub fn one_reply_without_loss()
    ensures { OneReplyWithoutLoss }
{}

/// Over such a medium no request reads or compares what is lost, and it stays such a medium.
pub fn knows_without_loss()
    ensures { KnowsWithoutLoss }
{}

/// What a request leaves of a medium is what some calls of it leave, each within the medium: so all that holds of runs of calls holds of
/// requests.
pub fn request_runs()
    ensures { RequestRuns }
{}
