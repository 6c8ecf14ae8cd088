//! Writing a journal, one call of the sink for each line.
ghost use Rattle.std.specs.Prelude.{◌≡◌, OnOk, OnErr};
ghost use Rattle.std.specs.List.{flat_map};
ghost use Rattle.tcmu_types.specs.Views.{event_data, answer_data};
ghost use Rattle.edge.specs.Outside.{Gained, GainedFront};
ghost use Rattle.text_model.specs.Text as spelled;
ghost use Rattle.tcmu_top.specs.Calls.{SinkFaults};
ghost use Rattle.tcmu_top.specs.Playing.{event_lines};
ghost use Rattle.tcmu_top.specs.declared.writing.Stop.TheVariants.{NoMemory as Wanting};

use edge::Sink;
use report_text::{completion_line, device_text, end_text, event_line};
use scenario_text::DeviceLine;
use std::alloc::Global;
use tcmu_types::{Answer, Bytes, Done, Event, NoMemory};

/// Why a replay stopped before its end.
#[derive(Clone, Copy, Debug, PartialEq, Eq)]
pub enum Stop {
    /// A write of the sink failed.
    WriteFault,
    NoMemory,
}

impl From<NoMemory> for Stop {
    ghost from_gives = { λ _ e. e ≡ Wanting };

    fn from(_: NoMemory) -> Stop {
        Stop::NoMemory
    }
}

/// Hands one line to the sink.
pub fn write_line<K: Sink>(out: &mut K, line: &[u8]) -> Result<(), Stop>
    ensures ok { OnOk result (Gained (K.written out.old) line.now (K.written out.new)) }
    ensures err { OnErr result (GainedFront (K.written out.old) line.now (K.written out.new)) }
    ensures faults { SinkFaults (K.faults out.old) (K.faults out.new) result }
{
    match out.write(line) {
        Ok(()) => Ok(()),
        Err(_) => Err(Stop::WriteFault),
    }
}

/// Writes the line of a device.
fn write_ready<K: Sink>(alloc: Global, device: &DeviceLine, out: &mut K) -> Result<(), Stop>
    ensures ok { OnOk result (Gained (K.written out.old) (spelled.device_text device.now) (K.written out.new)) }
    ensures err { OnErr result (GainedFront (K.written out.old) (spelled.device_text device.now) (K.written out.new)) }
    ensures faults { SinkFaults (K.faults out.old) (K.faults out.new) result }
{
    let mut text = Bytes::new(alloc);
    device_text(alloc, device, &mut text)?;
    write_line(out, text.as_slice())
}

/// Writes the lines of the devices, in order.
pub fn write_readies<K: Sink>(
    alloc: Global,
    devices: &[DeviceLine],
    out: &mut K,
) -> Result<(), Stop>
    ensures ok { OnOk result (Gained (K.written out.old) (flat_map spelled.device_text devices.now) (K.written out.new)) }
    ensures err { OnErr result (GainedFront (K.written out.old) (flat_map spelled.device_text devices.now) (K.written out.new)) }
    ensures faults { SinkFaults (K.faults out.old) (K.faults out.new) result }
{
    for device in devices {
        write_ready(alloc, device, out)?;
    }
    Ok(())
}

/// Writes the line of an event, with its answer.
fn write_event<K: Sink>(
    alloc: Global,
    device: &DeviceLine,
    event: &Event,
    answer: &Answer,
    out: &mut K,
) -> Result<(), Stop>
    ensures ok { OnOk result (Gained (K.written out.old) (spelled.event_line device.now.name device.now.settings.qfull (event_data event.now) (answer_data answer.now)) (K.written out.new)) }
    ensures err { OnErr result (GainedFront (K.written out.old) (spelled.event_line device.now.name device.now.settings.qfull (event_data event.now) (answer_data answer.now)) (K.written out.new)) }
    ensures faults { SinkFaults (K.faults out.old) (K.faults out.new) result }
{
    let line = event_line(alloc, &device.name, device.settings.qfull, event, answer)?;
    write_line(out, &line)
}

/// Writes the line of a completion.
fn write_completion<K: Sink>(
    alloc: Global,
    device: &DeviceLine,
    done: &Done,
    out: &mut K,
) -> Result<(), Stop>
    ensures ok { OnOk result (Gained (K.written out.old) (spelled.completion_text device.now.name done.now) (K.written out.new)) }
    ensures err { OnErr result (GainedFront (K.written out.old) (spelled.completion_text device.now.name done.now) (K.written out.new)) }
    ensures faults { SinkFaults (K.faults out.old) (K.faults out.new) result }
{
    let line = completion_line(alloc, &device.name, done)?;
    write_line(out, &line)
}

/// Writes the lines of completions, in order.
fn write_completions<K: Sink>(
    alloc: Global,
    device: &DeviceLine,
    logged: &[Done],
    out: &mut K,
) -> Result<(), Stop>
    ensures ok { OnOk result (Gained (K.written out.old) (flat_map (spelled.completion_text device.now.name) logged.now) (K.written out.new)) }
    ensures err { OnErr result (GainedFront (K.written out.old) (flat_map (spelled.completion_text device.now.name) logged.now) (K.written out.new)) }
    ensures faults { SinkFaults (K.faults out.old) (K.faults out.new) result }
{
    for done in logged {
        write_completion(alloc, device, done, out)?;
    }
    Ok(())
}

/// Writes an event with its answer, and the completions that it logged.
pub fn write_entry<K: Sink>(
    alloc: Global,
    device: &DeviceLine,
    event: &Event,
    answer: &Answer,
    logged: &[Done],
    out: &mut K,
) -> Result<(), Stop>
    ensures ok { OnOk result (Gained (K.written out.old) (event_lines device.now (event_data event.now) (answer_data answer.now) logged.now) (K.written out.new)) }
    ensures err { OnErr result (GainedFront (K.written out.old) (event_lines device.now (event_data event.now) (answer_data answer.now) logged.now) (K.written out.new)) }
    ensures faults { SinkFaults (K.faults out.old) (K.faults out.new) result }
{
    write_event(alloc, device, event, answer, out)?;
    write_completions(alloc, device, logged, out)
}

/// Writes the last line of a device.
pub fn write_end<K: Sink>(
    alloc: Global,
    device: &DeviceLine,
    count: u64,
    out: &mut K,
) -> Result<(), Stop>
    ensures ok { OnOk result (Gained (K.written out.old) (spelled.end_text device.now.name count) (K.written out.new)) }
    ensures err { OnErr result (GainedFront (K.written out.old) (spelled.end_text device.now.name count) (K.written out.new)) }
    ensures faults { SinkFaults (K.faults out.old) (K.faults out.new) result }
{
    let mut text = Bytes::new(alloc);
    end_text(alloc, &device.name, count, &mut text)?;
    write_line(out, text.as_slice())
}
