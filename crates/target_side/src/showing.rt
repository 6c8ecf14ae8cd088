//! What the target shows of its books.
ghost use Rattle.std.specs.Prelude.{◌≡◌, option_copied};
ghost use Rattle.region_model.specs.Represents.{serial_with};
ghost use Rattle.region_model.specs.TargetSteps.{can_enter};
ghost use Rattle.target_side.specs.Showing.{numbers_of};

use crate::TargetNumbers;
use crate::books::Books;

impl Books {
    /// The serial of the command of an id.
    pub(crate) fn serial_of(&self, id: u16) -> Option<u64>
        ensures { result ≡ serial_with self.entry.now.rows id }
    {
        let pending = self.entries.commands.get(id)?;
        Some(pending.serial)
    }

    /// Whether the first command that waits has room now.
    fn enters(&self) -> bool
        ensures { result ≡ can_enter self.entry.now self.entry.now.delayed }
    {
        match self.delayed.first() {
            Some(first) => self.entries.has_room(&first.command),
            None => false,
        }
    }

    /// What it counts.
    pub(crate) fn numbers(&self) -> TargetNumbers
        ensures { result ≡ numbers_of self.entry.now }
    {
        let entries = &self.entries;
        TargetNumbers {
            now: self.now,
            blocked: self.blocked,
            accepted: self.accepted,
            head: entries.places.head(),
            used: entries.places.used(),
            cleaned: entries.places.cleaned(),
            laid: self.laid,
            cleared: self.cleared,
            pending: entries.commands.len(),
            expired: entries.commands.expired(),
            held: entries.commands.held(),
            delayed: self.delayed.len() as u64,
            enters: self.enters(),
        }
    }
}
