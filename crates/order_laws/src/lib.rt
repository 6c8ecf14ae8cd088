//! Laws of one sentence each, over the definitions of tcmu_model and scsi_model: what a drain makes first, what a tick logs first, which of
//! several refusals is answered, and which way the data of an operation code goes.
#![tactic(auto)]

mod directing;
mod draining;
mod refusing;
mod ticking;

pub use directing::directions_law;
pub use draining::drain_order;
pub use refusing::{dispatch_order, enter_order, note_order, reset_order, submit_order};
pub use ticking::tick_order;
