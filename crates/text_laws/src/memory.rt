//! The law of replay over media in memory.
ghost use Rattle.text_laws.specs.InMemory.{LawOfReplay, LawOfJournals, HasOneText, HasOneJournalInMemory};

/// A text of a replay over media in memory is a scenario, whose own replay has the same text, where it has at most 4,194,304 bytes and the
/// replay has at most 20,000 events. So is the text of every journal that leaves its devices nothing to do, where it keeps the limits of
/// scenarios.
pub fn replay_in_memory_law()
    ensures replays { LawOfReplay }
    ensures journals { LawOfJournals }
{}

/// A scenario over media in memory has one text, and this text is of one journal.
pub fn text_in_memory_law()
    ensures text { HasOneText }
    ensures journal { HasOneJournalInMemory }
{}
