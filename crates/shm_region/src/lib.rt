//! The memory that the target and the user side of one device share: the mailbox, the command ring, and the data area, whose blocks
//! may be lent.
#![tactic(auto)]

mod along;
mod copying;
mod laws;
mod lending;
mod region;

pub use laws::{area_begins_at_page, copies_back, lends_and_takes_back, lends_few};
pub use region::Region;
