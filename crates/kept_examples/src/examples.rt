//! Examples of kept devices: scenarios, each with orders in which its device is asked, and the journal that each order makes.
pub mod any_order;
pub mod waits_for_reset;
pub mod waits_for_room;
pub mod write_and_read;

use journal_kept::Ask;

/// What an order shows, the asks that are made before the device is finished, and the lines of its journal.
pub type Example = (&'static str, &'static [Ask], &'static str);
