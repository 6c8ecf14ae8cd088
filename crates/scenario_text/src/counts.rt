//! What the limits of a reading count: initiators, dumps, events, and bytes in each direction.
ghost use Rattle.std.specs.Prelude.{◌≡◌, ◌<◌, [], length, OnOk, slice_index_or};
ghost use Rattle.text_model.specs.Scenario.{is_dump, is_event, bytes_in, bytes_out};
ghost use Rattle.scenario_text.specs.Counts.{noted};

use crate::kinds::{Line, LineKind};
use crate::names::Names;
use tcmu_types::{Event, Name, NoMemory};

/// Notes the initiator of a line at its device.
pub fn note_initiator(initiators: &mut Vec<Names>, line: &Line) -> Result<(), NoMemory>
    requires { line.now.device < length initiators.old.items }
    ensures { OnOk result (initiators.new.items ≡ noted initiators.old.items line.now) }
{
    let LineKind::Event(Event::Submit(command)) = &line.what else {
        return Ok(());
    };
    initiators[line.device as usize].note(command.init())
}

/// The initiators of the device of this number.
pub fn names_at(initiators: &[Names], at: u32) -> &[Name]
    requires { at < length initiators.now }
    ensures { result.now ≡ slice_index_or initiators.now at [] }
{
    initiators[at as usize].as_slice()
}

/// Whether a line asks for a picture of a region.
pub fn is_dump(line: &Line) -> bool
    ensures { result ≡ is_dump line.now }
{
    match &line.what {
        LineKind::Dump => true,
        LineKind::Event(_) => false,
        LineKind::Drain => false,
    }
}

/// Whether a line asks for an event.
pub fn is_event(line: &Line) -> bool
    ensures { result ≡ is_event line.now }
{
    match &line.what {
        LineKind::Event(_) => true,
        LineKind::Drain => false,
        LineKind::Dump => false,
    }
}

/// How many bytes the command of a line asks for; none where it is no submit line.
pub fn bytes_in(line: &Line) -> u64
    ensures value { result ≡ bytes_in line.now }
    ensures most { result < 4294967296 }
{
    let LineKind::Event(Event::Submit(command)) = &line.what else {
        return 0;
    };
    command.in_len() as u64
}

/// How many bytes are sent with the command of a line; none where it is no submit line.
pub fn bytes_out(line: &Line) -> u64
    ensures value { result ≡ bytes_out line.now }
    ensures most { result < 9223372036854775808 }
{
    let LineKind::Event(Event::Submit(command)) = &line.what else {
        return 0;
    };
    command.sent().as_slice().len() as u64
}
