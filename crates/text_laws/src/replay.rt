//! The law of replay, and that a text has one reading, over any handlers and media.
ghost use Rattle.text_laws.specs.Carried.{CarriedRead, SpelledRead};
ghost use Rattle.text_laws.specs.Readings.{HasOneReading, HasOneReadingOfAny};
ghost use Rattle.text_laws.specs.Replays.{IsReadBack, IsReplayedAgain, IsScenarioAgain};
ghost use Rattle.text_laws.specs.Settled.{OneKnownText, KnownWithoutLoss};

use handler_trait::Handler;

/// What a scenario carries are bytes, and tags of 32 bits.
pub fn carried_law()
    ensures { CarriedRead }
{}

/// Every device line of a scenario that is read has a spelling, by which it is read again.
pub fn spelled_law()
    ensures { SpelledRead }
{}

/// The text of a journal of devices that have lines is a scenario where it keeps the limits, that of the journal's events.
pub fn journal_text_law<H: Handler>()
    ensures { IsReadBack H.relation }
{}

/// The text of a journal that leaves its devices nothing to do is the text of a replay of its events.
pub fn replay_text_law<H: Handler>()
    ensures { IsReplayedAgain H.relation }
{}

/// The text of a replay of any scenario that is read is a scenario, and the text of a replay of that scenario on the same devices,
/// where it is at most 4,194,304 bytes and the replay has at most 20,000 events.
pub fn scenario_replay_law<H: Handler>()
    ensures { IsScenarioAgain H.relation }
{}

/// One text has one reading, whichever handlers served its devices: the devices, the entries with their answers, the completions of each,
/// and the dumps between them. Of what it tells nothing is asked but what the types of the code keep of every value, and where dumps are
/// pictures, this is asked of events alone.
pub fn reading_law<H: Handler, K: Handler>()
    ensures pictures { HasOneReading H.relation K.relation }
    ensures any { HasOneReadingOfAny H.relation K.relation }
{}

/// Over media that tell their bytes and their failing calls the same lines have one text, as long as no request of one of their replays reads
/// or compares what is lost. Over media in memory, and in files whose stores list no failing call, none ever does.
pub fn one_text_law()
    ensures known { OneKnownText }
    ensures lossless { KnownWithoutLoss }
{}
