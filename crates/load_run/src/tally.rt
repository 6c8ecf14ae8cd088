//! The replay of a load: its lines are played on its device without a journal, and summed up after the last.
ghost use Rattle.std.specs.Prelude.{◌≡◌, ◌+◌, ◌^◌, ◌<◌, ◌++◌, [], ◌∷◌, length, OnOk};
ghost use Rattle.tcmu_types.specs.Views.{event_data, answer_data};
ghost use Rattle.tcmu_model.specs.Drain.{Drains};
ghost use Rattle.tcmu_model.specs.Sound.{IsSound};
ghost use Rattle.tcmu_types.specs.Lists.{Every};
ghost use Rattle.text_model.specs.Replay.{Plays};
ghost use Rattle.text_model.specs.Several.{ReplaysEach};
ghost use Rattle.tcmu_path.specs.Calls.{Accepts};
ghost use Rattle.tcmu_model.specs.Steps.{most_accepted};
ghost use Rattle.text_model.specs.ScenarioRules.{IsFit, IsFitFor};
ghost use Rattle.tcmu_path.specs.Tasks.{CanBeMade};
ghost use Rattle.load_run.specs.Tallies.{IsOf, Played, size_of, size_in};

use scenario_text::{Line, LineKind};
use std::alloc::Global;
use tcmu_path::{Path, make_event, next_event};
use tcmu_types::{Answer, Command, Done, Event, NoMemory, Submit, takes_payload};

/// How many bytes a command sends, where its operation code takes some.
fn size_of(command: &Command) -> Option<u32>
    ensures { result ≡ size_of command.now }
{
    if takes_payload(command.cdb()) {
        Some(command.payload_length())
    } else {
        None
    }
}

/// Notes the size of a command that was accepted.
fn note(sizes: &mut Vec<Option<u32>>, event: &Event, answer: &Answer) -> Result<(), NoMemory>
    ensures { OnOk result (sizes.new.items ≡ sizes.old.items ++ size_in (event_data event.now) (answer_data answer.now)) }
{
    let Event::Submit(command) = event else {
        return Ok(());
    };
    let Answer::Submit(answer) = answer else {
        return Ok(());
    };
    match answer {
        Submit::Queued(_) | Submit::Delayed(_) => sizes.push(size_of(command))?,
        Submit::Busy
        | Submit::TooBig { .. }
        | Submit::FullRing { .. }
        | Submit::FullBlocks { .. } => {}
    }
    Ok(())
}

/// Makes an event.
fn play<P: Path>(
    alloc: Global,
    path: &mut P,
    event: &Event,
    sizes: &mut Vec<Option<u32>>,
) -> Result<(), NoMemory>
    requires few { (P.device path.old).state.accepted < 2 ^ 63 }
    requires can { CanBeMade (event_data event.now) }
    ensures made { OnOk result (Played P.relation (IsOf 0 (event_data event.now)) (P.device path.old) (P.device path.new) sizes.old.items sizes.new.items) }
    ensures accepts { Accepts (most_accepted (event_data event.now)) (P.device path.old) (P.device path.new) }
{
    let answer = make_event(alloc, path, event)?;
    note(sizes, event, &answer)
}

/// Makes what a drain asks for.
fn drain<P: Path>(alloc: Global, path: &mut P, sizes: &mut Vec<Option<u32>>) -> Result<(), NoMemory>
    requires few { (P.device path.old).state.accepted < 2 ^ 63 }
    requires sound { IsSound (P.device path.old).state }
    ensures made { OnOk result (Played P.relation (λ es. Drains P.relation 0 (P.device path.old) es (P.device path.new)) (P.device path.old) (P.device path.new) sizes.old.items sizes.new.items) }
    ensures accepts { Accepts 0 (P.device path.old) (P.device path.new) }
{
    while let Some(event) = next_event(&path.todo()) {
        play(alloc, path, &event, sizes)?;
    }
    Ok(())
}

/// Makes what a line asks for.
fn play_line<P: Path>(
    alloc: Global,
    path: &mut P,
    line: &Line,
    sizes: &mut Vec<Option<u32>>,
) -> Result<(), NoMemory>
    requires few { (P.device path.old).state.accepted < 2 ^ 63 }
    requires sound { IsSound (P.device path.old).state }
    requires fit { IsFit line.now.what }
    ensures made { OnOk result (Played P.relation (λ es. Plays P.relation 0 (P.device path.old) line.now.what es (P.device path.new)) (P.device path.old) (P.device path.new) sizes.old.items sizes.new.items) }
    ensures accepts { Accepts 1 (P.device path.old) (P.device path.new) }
{
    match &line.what {
        LineKind::Event(event) => play(alloc, path, event, sizes),
        LineKind::Drain => drain(alloc, path, sizes),
        LineKind::Dump => unreachable!(),
    }
}

/// Makes what the lines ask for of their one device, and drains it after the last.
pub fn play_lines<P: Path>(
    alloc: Global,
    path: &mut P,
    lines: &[Line],
    sizes: &mut Vec<Option<u32>>,
) -> Result<(), NoMemory>
    requires few { (P.device path.old).state.accepted + length lines.now < 2 ^ 63 }
    requires sound { IsSound (P.device path.old).state }
    requires fit { Every (IsFitFor 1) lines.now }
    ensures made { OnOk result (Played P.relation (λ es. ReplaysEach (Plays P.relation) (P.device path.old ∷ []) lines.now es (P.device path.new ∷ [])) (P.device path.old) (P.device path.new) sizes.old.items sizes.new.items) }
    ensures accepts { OnOk result (Accepts (length lines.now) (P.device path.old) (P.device path.new)) }
{
    for line in lines {
        play_line(alloc, path, line, sizes)?;
    }
    drain(alloc, path, sizes)
}
