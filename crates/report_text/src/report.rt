//! Whole lines of a journal.
ghost use Rattle.std.specs.Prelude.{◌≡◌, ◌+◌, ◌≤◌, ◌++◌, length, IfOk, OnOk, OnErr};
ghost use Rattle.std.specs.List.{flat_map};
ghost use Rattle.tcmu_types.specs.Views.{event_data, answer_data};
ghost use Rattle.text_model.specs.Text.{payload_text, completion_text, event_line as event_spelling, entry_text as entry_spelling, end_text as end_spelling, dump_text as dump_spelling, device_text as device_spelling};

use crate::devices::push_device;
use crate::dumps::push_dump;
use crate::events::{push_answer, push_event};
use crate::pieces::{push_all, push_field, push_number_field, push_payload, push_result};
use scenario_text::DeviceLine;
use std::alloc::Global;
use tcmu_types::{Answer, Bytes, Done, Dump, Entry, Event, Name, NoMemory};

/// Appends bytes, or changes nothing.
fn append(into: &mut Bytes, text: &[u8]) -> Result<(), NoMemory>
    ensures ok { OnOk result (into.new.items ≡ into.old.items ++ text.now) }
    ensures err { OnErr result (into.new.items ≡ into.old.items) }
    ensures room { into.old.spare + length into.old.items ≤ into.new.spare + length into.new.items }
{
    into.reserve(text.len() as u64)?;
    into.extend(text);
    Ok(())
}

#[tactic(auto, unfolding(text_model::specs::Text::completion_text))]
fn push_completion(out: &mut Vec<u8>, name: &[u8], d: &Done) -> Result<(), NoMemory>
    ensures { OnOk result (out.new.items ≡ out.old.items ++ completion_text name.now d.now) }
{
    push_all(out, b"# done")?;
    push_field(out, name)?;
    push_number_field(out, d.serial)?;
    push_field(out, d.init.as_bytes())?;
    push_number_field(out, d.tag as u64)?;
    push_result(out, d.status.0, d.sense, d.payload.as_slice())?;
    push_all(out, b"\n")
}

#[tactic(auto, unfolding(text_model::specs::Text::event_line))]
fn push_line(
    out: &mut Vec<u8>,
    name: &[u8],
    qfull: u32,
    event: &Event,
    answer: &Answer,
) -> Result<(), NoMemory>
    ensures { OnOk result (out.new.items ≡ out.old.items ++ event_spelling name.now qfull (event_data event.now) (answer_data answer.now)) }
{
    push_event(out, name, event)?;
    push_all(out, b" # ")?;
    push_answer(out, qfull, event, answer)?;
    push_all(out, b"\n")
}

fn push_completions(out: &mut Vec<u8>, name: &[u8], logged: &[Done]) -> Result<(), NoMemory>
    ensures { OnOk result (out.new.items ≡ out.old.items ++ flat_map (completion_text name.now) logged.now) }
{
    for done in logged {
        push_completion(out, name, done)?;
    }
    Ok(())
}

#[tactic(auto, unfolding(text_model::specs::Text::entry_text))]
fn push_entry(
    out: &mut Vec<u8>,
    name: &[u8],
    qfull: u32,
    entry: &Entry,
    logged: &[Done],
) -> Result<(), NoMemory>
    ensures { OnOk result (out.new.items ≡ out.old.items ++ entry_spelling name.now qfull entry.now logged.now) }
{
    push_line(out, name, qfull, &entry.event, &entry.answer)?;
    push_completions(out, name, logged)
}

#[tactic(auto, unfolding(text_model::specs::Text::end_text))]
fn push_end(out: &mut Vec<u8>, name: &[u8], count: u64) -> Result<(), NoMemory>
    ensures { OnOk result (out.new.items ≡ out.old.items ++ end_spelling name.now count) }
{
    push_all(out, b"# open")?;
    push_field(out, name)?;
    push_number_field(out, count)?;
    push_all(out, b"\n")
}

/// Appends a payload: maximal runs, or `-` for no bytes. NoMemory changes nothing.
pub fn runs_text(alloc: Global, bytes: &[u8], into: &mut Bytes) -> Result<(), NoMemory>
    ensures ok { OnOk result (into.new.items ≡ into.old.items ++ payload_text bytes.now) }
    ensures err { OnErr result (into.new.items ≡ into.old.items) }
    ensures room { into.old.spare + length into.old.items ≤ into.new.spare + length into.new.items }
{
    let mut text = Vec::new(alloc);
    push_payload(&mut text, bytes)?;
    append(into, &text)
}

/// Appends the line of a device: its one spelling, whichever way it was spelled in a scenario. NoMemory changes nothing.
pub fn device_text(alloc: Global, device: &DeviceLine, into: &mut Bytes) -> Result<(), NoMemory>
    ensures ok { OnOk result (into.new.items ≡ into.old.items ++ device_spelling device.now) }
    ensures err { OnErr result (into.new.items ≡ into.old.items) }
    ensures room { into.old.spare + length into.old.items ≤ into.new.spare + length into.new.items }
{
    let mut text = Vec::new(alloc);
    push_device(&mut text, device)?;
    append(into, &text)
}

/// The line of an event of the device of this name, with its answer; on a device with a `qfull` above 0 a stat shows its delayed commands.
pub fn event_line(
    alloc: Global,
    name: &Name,
    qfull: u32,
    event: &Event,
    answer: &Answer,
) -> Result<Vec<u8>, NoMemory>
    ensures { IfOk result (λ text. text.items ≡ event_spelling name.now qfull (event_data event.now) (answer_data answer.now)) }
{
    let mut text = Vec::new(alloc);
    push_line(&mut text, name.as_bytes(), qfull, event, answer)?;
    Ok(text)
}

/// The line of a completion.
pub fn completion_line(alloc: Global, name: &Name, done: &Done) -> Result<Vec<u8>, NoMemory>
    ensures { IfOk result (λ text. text.items ≡ completion_text name.now done.now) }
{
    let mut text = Vec::new(alloc);
    push_completion(&mut text, name.as_bytes(), done)?;
    Ok(text)
}

/// Appends the line of an entry and those of the completions that it logged, as `event_line` and `completion_line` do. NoMemory changes
/// nothing.
pub fn entry_text(
    alloc: Global,
    name: &Name,
    qfull: u32,
    entry: &Entry,
    logged: &[Done],
    into: &mut Bytes,
) -> Result<(), NoMemory>
    ensures ok { OnOk result (into.new.items ≡ into.old.items ++ entry_spelling name.now qfull entry.now logged.now) }
    ensures err { OnErr result (into.new.items ≡ into.old.items) }
    ensures room { into.old.spare + length into.old.items ≤ into.new.spare + length into.new.items }
{
    let mut text = Vec::new(alloc);
    push_entry(&mut text, name.as_bytes(), qfull, entry, logged)?;
    append(into, &text)
}

/// Appends a device's last line: `# open`, and how many accepted commands have no completion. NoMemory changes nothing.
pub fn end_text(alloc: Global, name: &Name, count: u64, into: &mut Bytes) -> Result<(), NoMemory>
    ensures ok { OnOk result (into.new.items ≡ into.old.items ++ end_spelling name.now count) }
    ensures err { OnErr result (into.new.items ≡ into.old.items) }
    ensures room { into.old.spare + length into.old.items ≤ into.new.spare + length into.new.items }
{
    let mut text = Vec::new(alloc);
    push_end(&mut text, name.as_bytes(), count)?;
    append(into, &text)
}

/// Appends the lines of a dump: the mailbox, each item, and what each command holds. NoMemory changes nothing.
pub fn dump_text(alloc: Global, name: &Name, dump: &Dump, into: &mut Bytes) -> Result<(), NoMemory>
    ensures ok { OnOk result (into.new.items ≡ into.old.items ++ dump_spelling name.now dump.now) }
    ensures err { OnErr result (into.new.items ≡ into.old.items) }
    ensures room { into.old.spare + length into.old.items ≤ into.new.spare + length into.new.items }
{
    let mut text = Vec::new(alloc);
    push_dump(&mut text, name.as_bytes(), dump)?;
    append(into, &text)
}
