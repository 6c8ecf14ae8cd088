//! The worked examples of a device's events, held over the bytes of a region, and beside the device that keeps plain lists.
#![tactic(auto)]

#[cfg(test)]
mod tests;
