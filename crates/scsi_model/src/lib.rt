//! What SCSI commands mean: their decoding, their replies over a medium, the pages that describe a device, and the calls of a medium. The
//! definitions stand in specs/; here are the code types that they cite.
#![tactic(auto)]

pub mod laws;
mod op;
pub mod pages;
pub mod senses;
pub mod worked;

pub use op::{
    CdbFault, Extent, MAXIMUM_UNMAP_DESCRIPTOR_COUNT, MAXIMUM_UNMAP_LBA_COUNT,
    MAXIMUM_WRITE_SAME_LENGTH, Op,
};
