//! What each event of a device keeps of the region that represents it, point by point, and what each side keeps over any bytes: laws over
//! definitions of tcmu_model, for the contracts of the target, the user side and the ring path, which are to come.
//! The clauses of a law come in one order: the answer; what stands, point by point (ring, ids, notes, blocks, jobs, target, side); the
//! block lists, the pages and the sizes of blocks; then what is the event's own, but for what stands beside the point that it is about.
#![tactic(auto)]

mod answering;
mod any_bytes;
mod any_region;
mod attaching;
mod cleaning;
mod delaying;
mod dispatching;
mod entering;
mod handling;
mod in_hand;
mod kept_lists;
mod laying;
mod noting;
mod opening;
mod parking;
mod placing;
mod publishing;
mod refusing;
mod resetting;
mod responding;
mod restarting;
mod showing;
mod sizes;
mod submitting;
mod ticking;

pub use answering::answering_law;
pub use any_bytes::{
    any_clean_law, any_dates_law, any_reset_law, any_ring_law, any_rows_law, area_law, calls_law,
    commands_law, held_law, serials_law,
};
pub use any_region::{any_publish_law, any_respond_law, attach_law, next_law, reattach_law};
pub use attaching::attaching_law;
pub use cleaning::{clean_law, completion_law};
pub use delaying::delaying_law;
pub use dispatching::dispatch_law;
pub use entering::enter_law;
pub use handling::handle_law;
pub use in_hand::hand_law;
pub use kept_lists::kept_law;
pub use laying::laying_law;
pub use noting::tmr_law;
pub use opening::opening_law;
pub use parking::parking_law;
pub use placing::placing_law;
pub use publishing::publishing_law;
pub use refusing::refused_law;
pub use resetting::reset_law;
pub use responding::respond_law;
pub use restarting::restart_law;
pub use showing::{picture_law, stat_law, todo_law};
pub use sizes::sizes_law;
pub use submitting::submit_law;
pub use ticking::{block_law, tick_law};
