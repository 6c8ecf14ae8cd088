//! Whole lines: what is written of each is read again.
ghost use Rattle.text_laws.specs.Configs.{ConfigsAgain};
ghost use Rattle.text_laws.specs.Devices.{DevicesAgain};
ghost use Rattle.text_laws.specs.Dumps.{DumpsTold, PicturesWhole};
ghost use Rattle.text_laws.specs.Lines.{EventsAgain, CommentsIgnored, CompletionsIgnored, EndsIgnored};

/// A config is read from its text.
pub fn configs_again()
    ensures { ConfigsAgain }
{}

/// The line of a device is read as the device's line.
pub fn devices_again()
    ensures { DevicesAgain }
{}

/// The line of each of the events with its answer is read as the event's line.
pub fn events_again()
    ensures { EventsAgain }
{}

/// A line that begins with `#` is ignored.
pub fn comments_ignored()
    ensures { CommentsIgnored }
{}

/// The line of a completion begins with `#`.
pub fn completions_ignored()
    ensures { CompletionsIgnored }
{}

/// An end line begins with `#`.
pub fn ends_ignored()
    ensures { EndsIgnored }
{}

/// The text of a dump has one reading: the device, the mailbox, the items and the commands that are held.
pub fn dumps_told()
    ensures { DumpsTold }
{}

/// A picture shows only numbers of 64 bits, and fewer than 2^64 bytes at once, so its text tells all of it.
pub fn pictures_whole()
    ensures { PicturesWhole }
{}
