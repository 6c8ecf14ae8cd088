//! Laws of the mailbox's bytes.
ghost use Rattle.region_model.specs.MailboxReading.{MailboxReadsAgain};

/// What was written over any bytes has the fields that were to be written, and reads as them or as their first fault.
pub fn mailbox_reads_again()
    ensures { MailboxReadsAgain }
{}
