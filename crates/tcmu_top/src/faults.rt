//! The line that tells a fault.
ghost use Rattle.std.specs.Prelude.{◌≡◌, ◌≤◌, []};
ghost use Rattle.tcmu_types.specs.Numbered.{Rose};
ghost use Rattle.tcmu_top.specs.declared.status.Status.TheVariants as status;
ghost use Rattle.tcmu_top.specs.Top.{fault_text, Reported};

use crate::status::Status;
use arrayvec::ArrayString;
use edge::Sink;
use text_model::Why;

/// Room for the longest line.
type Line = ArrayString<80>;

/// The line of a scenario's fault.
fn scenario_line(line: u32, why: Why) -> Line
    ensures { result.bytes ≡ fault_text (status.BadScenario line why) }
{
    let mut text = Line::new();
    let mut digits = itoa::Buffer::new();
    text.push_str("tcmu_lab: line ");
    text.push_str(digits.format(line));
    text.push_str(": ");
    text.push_str(why.text());
    text.push_str("\n");
    text
}

/// The line of a fault, and nothing for other statuses.
fn fault_line(status: Status) -> Line
    ensures { result.bytes ≡ fault_text status }
{
    let mut text = Line::new();
    match status {
        Status::BadScenario { line, why } => return scenario_line(line, why),
        Status::BadWords => text.push_str("tcmu_lab: words\n"),
        Status::Ok
        | Status::ReadFault
        | Status::WriteFault
        | Status::NoMemory
        | Status::OpenFault => {}
    }
    text
}

/// Hands the line of a fault to the error stream by one call, and makes none where there is no line. A failure there is ignored.
pub fn report<E: Sink>(err: &mut E, status: Status)
    ensures line { Reported status (E.written err.old) (E.written err.new) (Rose (E.faults err.old) (E.faults err.new)) }
    ensures silent { fault_text status ≡ [] → E.faults err.new ≡ E.faults err.old }
    ensures later { E.faults err.old ≤ E.faults err.new }
{
    let line = fault_line(status);
    if line.is_empty() {
        return;
    }
    let _ = err.write(line.as_bytes());
}
