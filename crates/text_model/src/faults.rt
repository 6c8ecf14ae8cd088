//! Why texts are refused.
ghost use Rattle.std.specs.Prelude.{◌≡◌, ◌≤◌, length};
ghost use Rattle.text_model.specs.Words.{why_word};
ghost use Rattle.text_model.specs.declared.faults.ConfigFault.TheVariants as fault;

use std::marker::Model;
use thiserror::Error;

/// Why a text is no config: the first part of `tcm-user/<hba_num>/<device_name>/<subtype>/<path>` that is broken. A colon anywhere
/// in the text comes before all of them; `Colon` names its first place, in bytes from 0.
#[derive(Clone, Copy, Debug, PartialEq, Eq, Error)]
pub enum ConfigFault {
    /// An offset in bytes, below the text's length.
    #[error("a colon at byte {0}")]
    Colon(u64),
    #[error("no tcm-user/ in front")]
    Prefix,
    #[error("no number of a host bus adapter")]
    Hba,
    #[error("no name of a device")]
    Name,
    #[error("no known subtype")]
    Subtype,
    #[error("no path of this subtype")]
    Path,
    #[error("no memory")]
    NoMemory,
}

/// Why a line of a scenario is refused. The variants stand in the order of the rules; a line's fault is the first rule that it
/// breaks, where the rules from `Name` to `Runs` go over its fields from left to right. `NotYet` is for lines that break no rule
/// and whose serving is not built yet.
#[derive(Clone, Copy, Debug, Drop, PartialEq, Eq)]
pub enum Why {
    /// The text has more than 4,194,304 bytes; it has line 0.
    TooLong,
    /// A byte before the `#` is no blank, tab or carriage return, and not from 21h to 7Eh.
    Byte,
    /// The first field is no verb.
    Verb,
    /// The number of fields, or a field's prefix, is wrong.
    Fields,
    /// A device line's name is no name, or one that is there; another line's is of no device.
    Name,
    /// No config text, or one with another name, or with the file of another device.
    Config,
    /// No number within its limits, or no list of serials.
    Number,
    /// No list of flags.
    Flags,
    /// No name of an initiator.
    Init,
    /// No command descriptor block.
    Cdb,
    /// No runs of bytes.
    Runs,
    /// A device line after another line.
    Order,
    /// Data in the direction that the operation code has not.
    Direction,
    /// The 17th dump, or one of a device that is too large for it.
    Dump,
    /// More devices, initiators of a device, lines or bytes than a scenario may have.
    Many,
    /// A dump: it breaks no rule, and is not served yet.
    NotYet,
}

impl From<tcmu_types::NoMemory> for ConfigFault {
    ghost from_gives = { λ _ e. e ≡ fault.NoMemory };

    fn from(_: tcmu_types::NoMemory) -> ConfigFault {
        ConfigFault::NoMemory
    }
}

impl Why {
    /// The word that stands for it, as in `line 2: name`.
    pub fn text(&self) -> &'static str
        ensures value { result.now ≡ why_word self.now }
        ensures short { length result.now ≤ 9 }
    {
        match self {
            Why::TooLong => "toolong",
            Why::Byte => "byte",
            Why::Verb => "verb",
            Why::Fields => "fields",
            Why::Name => "name",
            Why::Config => "config",
            Why::Number => "number",
            Why::Flags => "flags",
            Why::Init => "init",
            Why::Cdb => "cdb",
            Why::Runs => "runs",
            Why::Order => "order",
            Why::Direction => "direction",
            Why::Dump => "dump",
            Why::Many => "many",
            Why::NotYet => "notyet",
        }
    }
}
