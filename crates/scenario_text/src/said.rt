//! What a line says, by its fields from left to right.
ghost use Rattle.std.specs.Prelude.{◌≡◌, ◌%◌, ◌*◌, ◌≤◌, ◌<◌, Some, None, IfOk, IfSome, length};
ghost use Rattle.std.specs.Option.{option_map};
ghost use Rattle.tcmu_types.specs.Views.{event_data};
ghost use Rattle.tcmu_types.specs.Rules.{is_directed};
ghost use Rattle.tcmu_types.specs.Events as ev;
ghost use Rattle.tcmu_types.specs.Fields.{fields_of, only_if};
ghost use Rattle.tcmu_types.specs.Decimals.{number_of};
ghost use Rattle.text_model.specs.ScenarioData.{EventLine};
ghost use Rattle.text_model.specs.Said.{SaysLine, new_name, is_own, device_config, ring_of, qfull_of, pages_of, settings_of, payload_of, device_line, submit_line, plain_line, number_at, number_line, tmr_line, said_by};
ghost use Rattle.scenario_text.specs.Giving.{LineGives, said_data};
ghost use Rattle.scenario_text.specs.LineViews.{payload_data, device_data};
ghost use Rattle.scenario_text.specs.Views.{kind_data};

use crate::kinds::{DeviceLine, Line, LineFault, LineKind};
use crate::lines::{
    DeviceWords, Payload, device_fields, one_field, submit_fields, three_fields, two_fields,
};
use crate::so_far::SoFar;
use device_config::fields::{cdb_of, flags_of, name_of, number_of, runs_of, serials_of};
use device_config::{Config, config_of_bytes};
use std::alloc::Global;
use tcmu_types::{
    Bytes, Cdb, Command, Event, MOST_PAYLOAD, MOST_RING, Name, NoMemory, PAGE, Settings,
};
use text_model::{ConfigFault, Verb, Why};

/// What a line says: a device, or a line of a device.
#[derive(Debug, Drop)]
pub enum SaidLine {
    /// Of the verb `device`.
    Device(DeviceLine),
    /// Of every other verb.
    Line(Line),
}

/// Whether a config has this name and a file of its own.
fn is_own(so_far: &SoFar, name: &[u8], config: &Config) -> bool
    ensures { result ≡ is_own so_far.now name.now config.now }
{
    if config.name.as_bytes() != name {
        return false;
    }
    !so_far.has_file(&config.kind)
}

/// The config of a device of this name, in a file of its own.
#[tactic(auto, unfolding(text_model::specs::Said::device_config))]
fn device_config(
    alloc: Global,
    so_far: &SoFar,
    name: &[u8],
    text: &[u8],
) -> Result<Option<Config>, NoMemory>
    ensures { IfOk result (λ o. o ≡ device_config so_far.now name.now text.now) }
{
    match config_of_bytes(alloc, text) {
        Ok(config) => {
            if !is_own(so_far, name, &config) {
                return Ok(None);
            }
            Ok(Some(config))
        }
        Err(ConfigFault::NoMemory) => Err(NoMemory),
        Err(_) => Ok(None),
    }
}

#[tactic(auto, unfolding(text_model::specs::Said::ring_of))]
fn ring_of(text: &[u8]) -> Option<u32>
    ensures { result ≡ ring_of text.now }
{
    let n = number_of(PAGE as u64, MOST_RING as u64, text)?;
    if n % PAGE as u64 != 0 {
        return None;
    }
    Some(n as u32)
}

fn small_number(low: u32, high: u32, text: &[u8]) -> Option<u32>
    ensures value { result ≡ number_of low high text.now }
    ensures least { IfSome result (λ n. low ≤ n) }
    ensures most { IfSome result (λ n. n ≤ high) }
{
    let n = number_of(low as u64, high as u64, text)?;
    Some(n as u32)
}

fn qfull_of(text: Option<&[u8]>) -> Option<u32>
    ensures value { result ≡ qfull_of (option_map (λ x. x.now) text.entry) }
    ensures most { IfSome result (λ n. n ≤ 1000000) }
{
    match text {
        Some(text) => small_number(0, 1_000_000, text),
        None => Some(0),
    }
}

fn pages_of(blocks: u32, text: Option<&[u8]>) -> Option<u32>
    requires { blocks ≤ 4096 }
    ensures value { result ≡ pages_of blocks (option_map (λ x. x.now) text.entry) }
    ensures within { IfSome result (λ n. (1 ≤ n) × (n ≤ 16) × (blocks * n ≤ 4096)) }
{
    let Some(text) = text else {
        return Some(1);
    };
    let n = small_number(1, 16, text)?;
    if 4096 < blocks as u64 * n as u64 {
        return None;
    }
    Some(n)
}

/// The settings of a device line.
#[tactic(auto, unfolding(text_model::specs::Said::settings_of))]
fn settings_of(f: &DeviceWords<'_>) -> Result<Settings, Why>
    ensures { result ≡ settings_of (device_data f.now) }
{
    let ring = ring_of(f.ring).ok_or(Why::Number)?;
    let blocks = small_number(1, 4096, f.blocks).ok_or(Why::Number)?;
    let flags = flags_of(f.flags).ok_or(Why::Flags)?;
    let timeout = small_number(0, 1_000_000, f.timeout).ok_or(Why::Number)?;
    let qfull = qfull_of(f.last.qfull).ok_or(Why::Number)?;
    let pages = pages_of(blocks, f.last.pages).ok_or(Why::Number)?;
    Ok(Settings {
        ring,
        blocks,
        flags,
        timeout,
        qfull,
        pages,
    })
}

#[tactic(auto, unfolding(text_model::specs::Said::new_name))]
fn new_name(so_far: &SoFar, text: &[u8]) -> Option<Name>
    ensures { result ≡ new_name so_far.now text.now }
{
    let name = name_of(text)?;
    if so_far.has_device(text) {
        return None;
    }
    Some(name)
}

#[tactic(auto, unfolding(text_model::specs::Said::device_line))]
fn device_line(alloc: Global, so_far: &SoFar, text: &[u8]) -> Result<SaidLine, LineFault>
    ensures { LineGives said_data result (device_line so_far.now (fields_of text.now)) }
{
    let f = device_fields(text).ok_or(Why::Fields)?;
    let name = new_name(so_far, f.name).ok_or(Why::Name)?;
    let config = device_config(alloc, so_far, name.as_bytes(), f.config)?.ok_or(Why::Config)?;
    let settings = settings_of(&f)?;
    Ok(SaidLine::Device(DeviceLine {
        name,
        config,
        settings,
    }))
}

/// The bytes that go out, and how many come in.
fn payload_of(alloc: Global, payload: Payload<'_>) -> Result<(Bytes, u32), LineFault>
    ensures value { LineGives (λ x. (x.0.items, x.1)) result (payload_of (payload_data payload.entry)) }
    ensures most_out { IfOk result (λ x. length x.0.items ≤ 1048576) }
    ensures most_in { IfOk result (λ x. x.1 ≤ 1048576) }
{
    match payload {
        Payload::Nothing => Ok((Bytes::new(alloc), 0)),
        Payload::InBytes(text) => {
            let n = small_number(0, MOST_PAYLOAD, text).ok_or(Why::Number)?;
            Ok((Bytes::new(alloc), n))
        }
        Payload::OutRuns(text) => {
            let bytes = runs_of(alloc, text)?.ok_or(Why::Runs)?;
            Ok((bytes, 0))
        }
    }
}

/// None exactly where data would go in the other direction.
fn directed(init: Name, tag: u32, cdb: Cdb, sent: Bytes, in_len: u32) -> Option<Command>
    requires out { length sent.items ≤ 1048576 }
    requires into { in_len ≤ 1048576 }
    ensures { result ≡ only_if is_directed (record { init = init; tag = tag; cdb = cdb; sent = sent.items; in_len = in_len }) }
{
    Command::new(init, tag, cdb, sent, in_len)
}

#[tactic(auto, unfolding(text_model::specs::Said::submit_line))]
fn submit_line(alloc: Global, so_far: &SoFar, text: &[u8]) -> Result<SaidLine, LineFault>
    ensures { LineGives said_data result (submit_line so_far.now (fields_of text.now)) }
{
    let f = submit_fields(text).ok_or(Why::Fields)?;
    let device = so_far.device_at(f.name).ok_or(Why::Name)?;
    let init = name_of(f.init).ok_or(Why::Init)?;
    let tag = small_number(0, 4_294_967_295, f.tag).ok_or(Why::Number)?;
    let cdb = cdb_of(alloc, f.cdb)?.ok_or(Why::Cdb)?;
    let (sent, in_len) = payload_of(alloc, f.payload)?;
    let command = directed(init, tag, cdb, sent, in_len).ok_or(Why::Direction)?;
    Ok(event_line(device, Event::Submit(command)))
}

#[tactic(auto, unfolding(text_model::specs::Said::plain_line))]
fn plain_line(so_far: &SoFar, what: LineKind, text: &[u8]) -> Result<SaidLine, LineFault>
    ensures { LineGives said_data result (plain_line so_far.now (kind_data what) (fields_of text.now)) }
{
    let name = one_field(text).ok_or(Why::Fields)?;
    let device = so_far.device_at(name).ok_or(Why::Name)?;
    Ok(SaidLine::Line(Line { device, what }))
}

#[tactic(auto, unfolding(text_model::specs::Said::number_at))]
fn number_at(so_far: &SoFar, low: u32, high: u32, text: &[u8]) -> Result<(u32, u32), Why>
    ensures value { result ≡ number_at so_far.now low high (fields_of text.now) }
    ensures most { IfOk result (λ x. x.1 ≤ high) }
{
    let (name, n) = two_fields(text).ok_or(Why::Fields)?;
    let device = so_far.device_at(name).ok_or(Why::Name)?;
    let n = small_number(low, high, n).ok_or(Why::Number)?;
    Ok((device, n))
}

fn event_line(device: u32, event: Event) -> SaidLine
    ensures { said_data result ≡ SaysLine (record { device = device; what = EventLine (event_data event) }) }
{
    SaidLine::Line(Line {
        device,
        what: LineKind::Event(event),
    })
}

#[tactic(auto, unfolding(text_model::specs::Said::tmr_line))]
fn tmr_line(alloc: Global, so_far: &SoFar, text: &[u8]) -> Result<SaidLine, LineFault>
    ensures { LineGives said_data result (tmr_line so_far.now (fields_of text.now)) }
{
    let (name, kind, serials) = three_fields(text).ok_or(Why::Fields)?;
    let device = so_far.device_at(name).ok_or(Why::Name)?;
    let kind = small_number(1, 7, kind).ok_or(Why::Number)? as u8;
    let serials = serials_of(alloc, serials)?.ok_or(Why::Number)?;
    Ok(event_line(device, Event::Tmr { kind, serials }))
}

fn handle_line(so_far: &SoFar, text: &[u8]) -> Result<SaidLine, LineFault>
    ensures { LineGives said_data result (number_line so_far.now 1 1000000000 ev.Handle (fields_of text.now)) }
{
    let (device, n) = number_at(so_far, 1, 1_000_000_000, text)?;
    Ok(event_line(device, Event::Handle(n as u64)))
}

fn respond_line(so_far: &SoFar, text: &[u8]) -> Result<SaidLine, LineFault>
    ensures { LineGives said_data result (number_line so_far.now 1 1000000000 ev.Respond (fields_of text.now)) }
{
    let (device, n) = number_at(so_far, 1, 1_000_000_000, text)?;
    Ok(event_line(device, Event::Respond(n as u64)))
}

fn tick_line(so_far: &SoFar, text: &[u8]) -> Result<SaidLine, LineFault>
    ensures { LineGives said_data result (number_line so_far.now 0 1000000 ev.Tick (fields_of text.now)) }
{
    let (device, n) = number_at(so_far, 0, 1_000_000, text)?;
    Ok(event_line(device, Event::Tick(n)))
}

fn reset_line(so_far: &SoFar, text: &[u8]) -> Result<SaidLine, LineFault>
    ensures { LineGives said_data result (number_line so_far.now 1 2 ev.Reset (fields_of text.now)) }
{
    let (device, n) = number_at(so_far, 1, 2, text)?;
    Ok(event_line(device, Event::Reset(n as u8)))
}

/// What the line of this verb says, by the fields behind it.
#[tactic(auto, unfolding(text_model::specs::Said::said_by))]
pub fn said_by(
    alloc: Global,
    so_far: &SoFar,
    verb: Verb,
    text: &[u8],
) -> Result<SaidLine, LineFault>
    ensures { LineGives said_data result (said_by so_far.now verb (fields_of text.now)) }
{
    match verb {
        Verb::Device => device_line(alloc, so_far, text),
        Verb::Submit => submit_line(alloc, so_far, text),
        Verb::Tmr => tmr_line(alloc, so_far, text),
        Verb::Dispatch => plain_line(so_far, LineKind::Event(Event::Dispatch), text),
        Verb::Handle => handle_line(so_far, text),
        Verb::Respond => respond_line(so_far, text),
        Verb::Publish => plain_line(so_far, LineKind::Event(Event::Publish), text),
        Verb::Clean => plain_line(so_far, LineKind::Event(Event::Clean), text),
        Verb::Enter => plain_line(so_far, LineKind::Event(Event::Enter), text),
        Verb::Tick => tick_line(so_far, text),
        Verb::Block => plain_line(so_far, LineKind::Event(Event::Block), text),
        Verb::Unblock => plain_line(so_far, LineKind::Event(Event::Unblock), text),
        Verb::Reset => reset_line(so_far, text),
        Verb::Restart => plain_line(so_far, LineKind::Event(Event::Restart), text),
        Verb::Stat => plain_line(so_far, LineKind::Event(Event::Stat), text),
        Verb::Dump => plain_line(so_far, LineKind::Dump, text),
        Verb::Drain => plain_line(so_far, LineKind::Drain, text),
    }
}
