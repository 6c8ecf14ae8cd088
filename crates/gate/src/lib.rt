//! Gates: where a worker passes before it handles a job.
#![tactic(auto)]

mod holding;
mod passing;

pub use holding::HoldGate;
pub use passing::{Gate, OpenGate};
