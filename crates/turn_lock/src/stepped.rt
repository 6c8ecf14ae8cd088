//! What lies behind a turn.
ghost use Rattle.std.specs.Prelude.{◌≡◌, List, length, Bool, IfOk, OnErr};
ghost use Rattle.turn_lock.specs.History.{Appends};

use tcmu_types::NoMemory;

/// A value that is asked one thing at a time and keeps a history of what was made. An ask leaves its script as it is, and
/// appends at most one entry to its history.
pub trait Stepped: Drop {
    /// What may be asked.
    type Ask;

    /// What an ask is told.
    type Told;

    /// What no ask changes. It is a meaning, and takes part in no code.
    type Script;

    /// What a history is made of. It is a meaning, and takes part in no code.
    type Entry;

    ghost script: { Self → Self.Script };

    ghost history: { Self → List Self.Entry };

    // Whether what was told is that an entry was made.
    ghost makes_entry: { Self.Told → Bool };

    // Which answers and which appended entries fit an ask: under this script and after these entries, this ask may be told
    // this, and these entries are appended. The receipts of a pass are read by it.
    ghost fits: { Self.Script → List Self.Entry → Self.Ask → Self.Told → List Self.Entry → Type 0 };

    /// The number of entries in the history.
    fn length(&self) -> u64
        ensures { result ≡ length (history self.now) };

    /// Makes one ask. Want of memory appends nothing.
    fn ask(&mut self, ask: &Self::Ask) -> Result<Self::Told, NoMemory>
        ensures script { script self.new ≡ script self.old }
        ensures told { IfOk result (λ told.
            Appends makes_entry (fits (script self.old)) (history self.old) ask.now told (history self.new)) }
        ensures refused { OnErr result (history self.new ≡ history self.old) };
}
