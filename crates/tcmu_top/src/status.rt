//! The status of a run, and its exit code.
ghost use Rattle.std.specs.Prelude.{◌≡◌};
ghost use Rattle.tcmu_top.specs.Top.{code_of};

use text_model::Why;

/// How a run ends.
#[derive(Clone, Copy, Debug, PartialEq, Eq)]
pub enum Status {
    /// The whole journal, or the line of a load, is written.
    Ok,
    /// The source failed; nothing is written.
    ReadFault,
    /// The sink failed; nothing, or a front of the text, is written.
    WriteFault,
    /// Memory was wanting; nothing, or a front of the text, is written.
    NoMemory,
    /// The bytes are no scenario: the first bad line, counted from 1, and the first rule that it breaks. Line 0 where they are too long.
    BadScenario { line: u32, why: Why },
    /// The words are none that the program knows.
    BadWords,
    /// The file of a device could not be opened; nothing is written.
    OpenFault,
}

impl Status {
    /// The exit status of the program.
    pub fn code(&self) -> u8
        ensures { result ≡ code_of self.now }
    {
        match self {
            Status::Ok => 0,
            Status::ReadFault => 1,
            Status::WriteFault => 2,
            Status::NoMemory => 3,
            Status::BadScenario { .. } => 4,
            Status::BadWords => 5,
            Status::OpenFault => 6,
        }
    }
}
