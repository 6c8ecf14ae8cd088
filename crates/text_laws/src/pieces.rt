//! The pieces of a line: what is written of each is read again.
ghost use Rattle.text_laws.specs.Pieces.{NumbersAgain, HexAgain, CdbsAgain, RunsAgain, RisingAgain, SerialsAgain, FlagsAgain};

/// A number is read from its decimal digits, within any limits below 2^60.
pub fn numbers_again()
    ensures { NumbersAgain }
{}

/// Bytes are read from their hexadecimal digits.
pub fn hex_again()
    ensures { HexAgain }
{}

/// A command descriptor block is read from its hexadecimal digits.
pub fn cdbs_again()
    ensures { CdbsAgain }
{}

/// Bytes are read from their maximal runs.
pub fn runs_again()
    ensures { RunsAgain }
{}

/// Rising numbers are read from their decimal digits with a separator between them.
pub fn rising_again()
    ensures { RisingAgain }
{}

/// Rising serials are read from their text, which is `none` where there is none.
pub fn serials_again()
    ensures { SerialsAgain }
{}

/// Flags are read from their words.
pub fn flags_again()
    ensures { FlagsAgain }
{}
