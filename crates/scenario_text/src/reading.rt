//! Reading a whole text, line by line, within limits.
ghost use Rattle.std.specs.Prelude.{◌≡◌, ◌<◌, ◌-◌, ◌^◌, IfOk};
ghost use Rattle.tcmu_types.specs.Fields.{fields_of};
ghost use Rattle.text_model.specs.Scenario.{is_not_yet, with_rules, with_said, with_fields, with_text, scenario_within, scenario_of};
ghost use Rattle.text_model.specs.ScenarioRules.{IsScenarioWithin, IsScenario};
ghost use Rattle.scenario_text.specs.Giving.{LineGives, Gives, HasPlace, said_data};

use crate::counts::is_dump;
use crate::kinds::{LineFault, Scenario, ScenarioFault};
use crate::lines::{all_allowed, before_hash, next_field, verb_of};
use crate::said::{SaidLine, said_by};
use crate::so_far::SoFar;
use device_config::fields::cut;
use std::alloc::Global;
use text_model::{Limits, SCENARIO_LIMITS, Why};

/// The most bytes of a scenario.
pub const MOST_TEXT: usize = 4_194_304;

#[tactic(auto, unfolding(text_model::specs::Scenario::is_not_yet))]
fn is_not_yet(so_far: &SoFar, said: &SaidLine) -> bool
    ensures { result ≡ is_not_yet so_far.now (said_data said.now) }
{
    match said {
        SaidLine::Device(_) => false,
        SaidLine::Line(line) => is_dump(line),
    }
}

fn with_rules(
    alloc: Global,
    limits: &Limits,
    so_far: SoFar,
    said: SaidLine,
) -> Result<SoFar, LineFault>
    requires { HasPlace so_far (said_data said) }
    ensures { LineGives (λ x. x) result (with_rules limits.now so_far (said_data said)) }
{
    match said {
        SaidLine::Device(device) => so_far.with_device(alloc, device),
        SaidLine::Line(line) => so_far.with_line(limits, line),
    }
}

#[tactic(auto, unfolding(text_model::specs::Scenario::with_said))]
fn with_said(
    alloc: Global,
    limits: &Limits,
    so_far: SoFar,
    said: SaidLine,
) -> Result<SoFar, LineFault>
    requires { HasPlace so_far (said_data said) }
    ensures { LineGives (λ x. x) result (with_said limits.now so_far (said_data said)) }
{
    let not_yet = is_not_yet(&so_far, &said);
    let more = with_rules(alloc, limits, so_far, said)?;
    if not_yet {
        return Err(LineFault::Bad(Why::NotYet));
    }
    Ok(more)
}

#[tactic(auto, unfolding(text_model::specs::Scenario::with_fields))]
fn with_fields(
    alloc: Global,
    limits: &Limits,
    so_far: SoFar,
    text: &[u8],
) -> Result<SoFar, LineFault>
    ensures { LineGives (λ x. x) result (with_fields limits.now so_far (fields_of text.now)) }
{
    let Some((word, rest)) = next_field(text) else {
        return Ok(so_far);
    };
    let verb = verb_of(word).ok_or(Why::Verb)?;
    let said = said_by(alloc, &so_far, verb, rest)?;
    with_said(alloc, limits, so_far, said)
}

#[tactic(auto, unfolding(text_model::specs::Scenario::with_text))]
fn with_text(alloc: Global, limits: &Limits, so_far: SoFar, text: &[u8]) -> Result<SoFar, LineFault>
    ensures { LineGives (λ x. x) result (with_text limits.now so_far text.now) }
{
    let text = before_hash(text);
    if text.is_empty() {
        return Ok(so_far);
    }
    if !all_allowed(text) {
        return Err(LineFault::Bad(Why::Byte));
    }
    with_fields(alloc, limits, so_far, text)
}

/// What the bytes say where they are a scenario, and else the first bad line with the first rule that it breaks. `NoMemory` may
/// come in place of either.
pub fn read_scenario(alloc: Global, bytes: &[u8]) -> Result<Scenario, ScenarioFault>
    ensures reading { Gives result (scenario_of bytes.now) }
    ensures limits { IfOk result IsScenario }
{
    read_within(alloc, &SCENARIO_LIMITS, bytes)
}

/// The same of a text that keeps other limits than those of scenarios.
#[tactic(auto, unfolding(text_model::specs::Scenario::scenario_within))]
pub fn read_within(alloc: Global, limits: &Limits, bytes: &[u8]) -> Result<Scenario, ScenarioFault>
    requires { limits.now.bytes < 2 ^ 32 - 1 }
    ensures reading { Gives result (scenario_within limits.now bytes.now) }
    ensures within { IfOk result (IsScenarioWithin limits.now) }
{
    if bytes.len() > limits.bytes as usize {
        return Err(ScenarioFault::Bad {
            line: 0,
            why: Why::TooLong,
        });
    }
    let mut so_far = SoFar::new(alloc);
    let mut number = 1u32;
    let mut rest = bytes;
    while let Some((text, after)) = cut(rest, b'\n') {
        match with_text(alloc, limits, so_far, text) {
            Ok(more) => so_far = more,
            Err(LineFault::Bad(why)) => return Err(ScenarioFault::Bad { line: number, why }),
            Err(LineFault::NoMemory) => return Err(ScenarioFault::NoMemory),
        }
        number += 1;
        rest = after;
    }
    match with_text(alloc, limits, so_far, rest) {
        Ok(whole) => Ok(whole.into_scenario()),
        Err(LineFault::Bad(why)) => Err(ScenarioFault::Bad { line: number, why }),
        Err(LineFault::NoMemory) => Err(ScenarioFault::NoMemory),
    }
}
