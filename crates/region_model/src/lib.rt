//! The shared region: its bytes, what its two sides keep and what each of their calls does over any bytes, and what a region stands for.
//! The definitions stand in specs/; here are the code types that they cite, and worked examples.
#![tactic(auto)]

mod entry;
mod mailbox;
mod worked;

pub use entry::{EntryFault, EntryRef, Response};
pub use mailbox::{Mailbox, MailboxFault};
pub use worked::{picture_examples, side_examples, target_examples, user_examples, way_examples};
