//! The entries of the command ring as bytes: what may be read from bytes that anyone wrote, and what the target and the user side
//! write.
#![tactic(auto)]

mod fields;
mod laws;
mod reading;
mod writing;

pub use laws::{pads_again, requests_again, responses_again, tmrs_again};
pub use reading::{read_entry, read_iov, read_response, read_tmr_id};
pub use region_model::{EntryFault, EntryRef, Response};
pub use writing::{write_pad, write_request, write_response, write_tmr};
