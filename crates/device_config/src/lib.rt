//! Config texts of devices, `tcm-user/<hba_num>/<device_name>/<subtype>/<path>`, and the fields that config texts and scenario lines
//! are made of.
#![tactic(auto)]

mod config;
pub mod fields;

pub use config::{Config, MediumKind, config_of_bytes, parse_config};
pub use text_model::ConfigFault;
