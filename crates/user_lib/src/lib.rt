//! The user side of a region: it takes entries out of the ring as jobs and notes, and writes their answers.
#![tactic(auto)]

mod books;
mod carrying;
mod job;
mod jobs;
mod leaving;
mod next;
mod numbers;
mod order;
mod passed;
mod past;
mod publishing;
mod responding;
mod rows;
mod user;

pub use job::{Job, JobData};
pub use next::{Next, UserFault};
pub use numbers::UserNumbers;
pub use user::{AttachFault, User};
