//! The script of a device.
ghost use Rattle.std.specs.Prelude.{◌≡◌, [], ◌∷◌, map, IfOk, OnOk, Some, None, if◌then◌else◌};
ghost use Rattle.std.specs.List.{flat_map};
ghost use Rattle.std.specs.Option.{option_map};
ghost use Rattle.tcmu_types.specs.Views.{event_data};
ghost use Rattle.text_model.specs.Scenario.{with_initiator, initiators};
ghost use Rattle.text_model.specs.ScenarioRules.{IsScenario, IsScript};
ghost use Rattle.text_model.specs.Script.{sent_by, is_admin, admin_of, init_line, script_of};
ghost use Rattle.scenario_text.specs.Views.{as_list};

use crate::kinds::{Commands, Events, InitLine, InitLines, Line, LineKind, Scenario, Script};
use crate::names::Names;
use std::alloc::Global;
use tcmu_types::{Command, Event, Name, NoMemory, Serials};

fn note_initiator_of(names: &mut Names, device: u32, line: &Line) -> Result<(), NoMemory>
    ensures { OnOk result (names.new ≡ with_initiator device names.old line.now) }
{
    let LineKind::Event(Event::Submit(command)) = &line.what else {
        return Ok(());
    };
    if line.device != device {
        return Ok(());
    }
    names.note(command.init())
}

/// The initiators of a device.
fn initiators(alloc: Global, device: u32, lines: &[Line]) -> Result<Names, NoMemory>
    ensures { IfOk result (λ names. names ≡ initiators device lines.now) }
{
    let mut names = Names::new(alloc);
    for line in lines {
        note_initiator_of(&mut names, device, line)?;
    }
    Ok(names)
}

fn sent_by(
    alloc: Global,
    device: u32,
    name: &[u8],
    line: &Line,
) -> Result<Option<Command>, NoMemory>
    ensures { IfOk result (λ o. as_list o ≡ sent_by device name.now line.now) }
{
    let LineKind::Event(Event::Submit(command)) = &line.what else {
        return Ok(None);
    };
    if line.device != device || command.init().as_bytes() != name {
        return Ok(None);
    }
    Ok(Some(command.try_clone(alloc)?))
}

/// The commands that an initiator sends to a device.
fn commands_of(
    alloc: Global,
    device: u32,
    name: &[u8],
    lines: &[Line],
) -> Result<Commands, NoMemory>
    ensures { IfOk result (λ v. v.items ≡ flat_map (sent_by device name.now) lines.now) }
{
    let mut commands = Commands::new(alloc);
    for line in lines {
        if let Some(command) = sent_by(alloc, device, name, line)? {
            commands.reserve(1)?;
            commands.push(command);
        }
    }
    Ok(commands)
}

/// A copy of an event that the administration makes.
fn admin_event(alloc: Global, event: &Event) -> Result<Option<Event>, NoMemory>
    ensures { IfOk result (λ o. as_list (option_map event_data o) ≡ (if is_admin (event_data event.now) then event_data event.now ∷ [] else [])) }
{
    match event {
        Event::Tick(n) => Ok(Some(Event::Tick(*n))),
        Event::Block => Ok(Some(Event::Block)),
        Event::Unblock => Ok(Some(Event::Unblock)),
        Event::Reset(n) => Ok(Some(Event::Reset(*n))),
        Event::Restart => Ok(Some(Event::Restart)),
        Event::Tmr { kind, serials } => Ok(Some(Event::Tmr {
            kind: *kind,
            serials: Serials::from_slice(alloc, serials.as_slice())?,
        })),
        Event::Stat => Ok(Some(Event::Stat)),
        Event::Submit(_)
        | Event::Dispatch
        | Event::Handle(_)
        | Event::Respond(_)
        | Event::Publish
        | Event::Clean
        | Event::Enter => Ok(None),
    }
}

fn admin_of(alloc: Global, device: u32, line: &Line) -> Result<Option<Event>, NoMemory>
    ensures { IfOk result (λ o. as_list (option_map event_data o) ≡ admin_of device line.now) }
{
    if line.device != device {
        return Ok(None);
    }
    match &line.what {
        LineKind::Event(event) => admin_event(alloc, event),
        LineKind::Drain => Ok(None),
        LineKind::Dump => Ok(None),
    }
}

/// What the administration of a device does.
fn all_admin(alloc: Global, device: u32, lines: &[Line]) -> Result<Events, NoMemory>
    ensures { IfOk result (λ v. map event_data v.items ≡ flat_map (admin_of device) lines.now) }
{
    let mut events = Events::new(alloc);
    for line in lines {
        if let Some(event) = admin_of(alloc, device, line)? {
            events.reserve(1)?;
            events.push(event);
        }
    }
    Ok(events)
}

fn init_line(alloc: Global, device: u32, lines: &[Line], name: &Name) -> Result<InitLine, NoMemory>
    ensures { IfOk result (λ x. x ≡ init_line device lines.now name.now) }
{
    let commands = commands_of(alloc, device, name.as_bytes(), lines)?;
    Ok(InitLine {
        name: name.copy(),
        commands,
    })
}

fn init_lines(
    alloc: Global,
    device: u32,
    lines: &[Line],
    names: &[Name],
) -> Result<InitLines, NoMemory>
    ensures { IfOk result (λ v. v.items ≡ map (init_line device lines.now) names.now) }
{
    let mut inits = InitLines::new(alloc);
    for name in names {
        let init = init_line(alloc, device, lines, name)?;
        inits.reserve(1)?;
        inits.push(init);
    }
    Ok(inits)
}

/// What the initiators of a device send, in the order of their first submits, and what its administration does. A device that is
/// not there has none of either. It goes over the lines once for each initiator.
#[tactic(auto, unfolding(text_model::specs::Script::script_of))]
pub fn script(alloc: Global, scenario: &Scenario, device: u32) -> Result<Script, NoMemory>
    ensures value { IfOk result (λ script. script ≡ script_of scenario.now device) }
    ensures limits { IsScenario scenario.now → IfOk result IsScript }
{
    let lines = scenario.lines.as_slice();
    let names = initiators(alloc, device, lines)?;
    let inits = init_lines(alloc, device, lines, names.as_slice())?;
    let admin = all_admin(alloc, device, lines)?;
    Ok(Script { inits, admin })
}
