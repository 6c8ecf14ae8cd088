//! The script of a device: its initiators in the order of their first submits, each with its own commands, and the administration.
use crate::fixture::device_line;
use scenario_text::{Scenario, Script, read_scenario, script};
use std::alloc::Global;
use std::test::Fail;

/// Lines of two initiators and of the administration.
fn lines() -> &'static str {
    "submit d0 b 1 28000000000000000100 in=1\nblock d0\nsubmit d0 a 2 28000000000000000100 in=1\ndrain d0\nsubmit d0 b 3 28000000000000000100 in=1\ntmr d0 1 2\n"
}

/// The scenario of these lines behind a device line.
fn scenario_of(alloc: Global, lines: &str) -> Result<Scenario, Fail> {
    let device = device_line();
    let text = format!(in alloc; "{device}\n{lines}")?;
    Ok(read_scenario(alloc, text.as_bytes())?)
}

/// The tags of all commands, initiator by initiator.
fn tags_of(alloc: Global, script: &Script) -> Result<Vec<u32>, Fail> {
    let mut tags = Vec::new(alloc);
    for init in script.inits.as_slice() {
        for command in init.commands.as_slice() {
            tags.push(command.tag())?;
        }
    }
    Ok(tags)
}

#[test]
fn scripts(rt: HostRuntime) -> Result<(), Fail> {
    let alloc = rt.alloc();
    let scenario = scenario_of(alloc, lines())?;
    let script = script(alloc, &scenario, 0)?;
    let tags = tags_of(alloc, &script)?;
    assert_eq!(rt; tags.as_slice(), &[1, 3, 2][..]);
    assert_eq!(rt; script.admin.len(), 2);
    Ok(())
}
