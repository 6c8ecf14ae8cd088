//! A device as its events, whichever way it is kept, and one that keeps plain lists.
#![tactic(auto)]

mod books;
mod count;
mod dispatching;
mod events;
mod path;
mod placing;
mod plain;
mod ring;
mod row;
mod rows;
mod state;
mod tally;

pub use count::open_count;
pub use events::{make_event, next_event};
pub use path::Path;
pub use plain::PlainPath;
