//! The mailbox as the first 128 bytes of a region.
#![tactic(auto)]

mod laws;
mod mailbox;

pub use laws::mailbox_reads_again;
pub use mailbox::{HEAD, MAILBOX_LEN, TAIL, read, write};
pub use region_model::{Mailbox, MailboxFault};
