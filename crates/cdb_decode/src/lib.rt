//! Command descriptor blocks, decoded into operations (SPC-4, SBC-3).
#![tactic(auto)]

mod table;

pub use scsi_model::{CdbFault, Op};
pub use table::decode;
