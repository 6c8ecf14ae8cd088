//! A turn: one value that many threads ask, one at a time and in the order in which they came, and the one history of
//! what they made. It is a ticket lock whose passes know what they were told.
#![tactic(auto)]

mod laws;
mod rule;
mod stepped;
mod turn;

pub use laws::receipts_last;
pub use rule::Receipt;
pub use stepped::Stepped;
pub use turn::{Pass, Turn};
