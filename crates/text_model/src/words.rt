//! The words of scenarios: the verbs that lines begin with, and the subtypes of config texts.

/// The first field of a line.
#[derive(Clone, Copy, Debug, Drop, PartialEq, Eq)]
pub enum Verb {
    Device,
    Submit,
    Dispatch,
    Handle,
    Respond,
    Publish,
    Clean,
    Enter,
    Tick,
    Block,
    Unblock,
    Reset,
    Restart,
    Tmr,
    Stat,
    Dump,
    Drain,
}

/// What a config text says of its medium: memory, a file, either of them protected from writes, or either of them with calls that
/// fail.
#[derive(Clone, Copy, Debug, Drop, PartialEq, Eq)]
pub enum Subtype {
    Mem,
    File,
    Ro,
    Fail,
}
