//! Laws of the entries' bytes: what was written is read again.
ghost use Rattle.entry_codec.specs.Again.{RequestsAgain, PadsAgain, TmrsAgain, ResponsesAgain};

/// A request that was written reads as what was to be written, and its slots hold the iovecs.
pub fn requests_again()
    ensures { RequestsAgain }
{}

/// Padding that was written reads as padding of its length.
pub fn pads_again()
    ensures { PadsAgain }
{}

/// A task management entry that was written reads as one of its type, and names the ids.
pub fn tmrs_again()
    ensures { TmrsAgain }
{}

/// A response that was written over any bytes reads as what was to be written.
pub fn responses_again()
    ensures { ResponsesAgain }
{}
