//! The laws of texts: what holds of the text of every scenario over media in memory and over files, of the completions in the journal of every
//! scenario, and of the line of every load.
ghost use Rattle.tcmu_top.specs.Laws.{TextsAgree, HasOneJournal, HasOneKnownText, LeavesTheKnownFiles, AreKnown, LeavesTheSameFiles, CommandsComplete, DevicesStay, HasOneLine};
ghost use Rattle.text_laws.specs.InMemory.{LawOfReplay, LawOfJournals, HasOneText};

/// The law of replay. The text of a replay without dumps is a scenario where it has at most 4,194,304 bytes and the replay has at
/// most 20,000 events, and the text of that scenario's own replay is the same text. So is the text of every journal that leaves
/// its devices nothing to do, as a live run's, where it keeps the limits of scenarios.
pub fn replay_law()
    ensures replays { LawOfReplay }
    ensures journals { LawOfJournals }
{
    text_laws::replay_in_memory_law()
}

/// Over media in memory the text of a scenario's replay is a function of the scenario's bytes. Over all media, and whatever the files, it has
/// one reading: the device lines, and the journal with its answers and completions.
pub fn text_law()
    ensures text { HasOneText }
    ensures journal { HasOneJournal }
{
    text_laws::text_in_memory_law()
}

/// Where all media lie in memory, the texts that `run_replay` may write are those of which these laws speak, whatever the files.
pub fn memory_law()
    ensures { TextsAgree }
{}

/// Over files that tell, whose stores tell which of their calls fail, the text of a scenario's replay is a function of the scenario and of the
/// files, as long as no request of one replay reads or compares what failed calls have lost. So is what the files hold behind it, outside of
/// the ranges that are lost then. Where no store of a device line's file lists a failing call, no request ever does, and the whole files are. A
/// device line may be protected, or list failing calls of its own.
pub fn files_law()
    ensures text { HasOneKnownText }
    ensures files { LeavesTheKnownFiles }
    ensures lossless_text { AreKnown }
    ensures lossless_files { LeavesTheSameFiles }
{}

/// In the journal of a replay, whatever the files, each command that a device accepted completes once, or is open as the end line
/// counts it; none is open on a device that ends with its user side attached. A completion carries its own handler's reply, or a fixed
/// status that no handler answered, and the entry that logs it is its cause. A handler gets what its command's initiator sent.
pub fn completions_law()
    ensures completions { CommandsComplete }
    ensures devices { DevicesStay }
{}

/// A seed and a count have one line: the load at the same words writes the same.
pub fn load_law()
    ensures { HasOneLine }
{}
