//! Worked examples of media as configs make them: by their own calls, and by SCSI commands below an engine.
#![tactic(auto)]

#[cfg(test)]
mod config_disks;
pub mod config_media;
#[cfg(test)]
mod file_medium;
#[cfg(test)]
mod medium_calls;
