//! The journal of a kept device, replayed: `kept_examples` compares the devices with these journals.
use edge::{MemFiles, MemSink, MemSource};
use kept_examples::examples::{
    Example, any_order, waits_for_reset, waits_for_room, write_and_read,
};
use std::alloc::Global;
use std::test::Fail;
use tcmu_top::run_replay;
use tcmu_types::{Bytes, NoMemory, Serials};

/// The exit status of the replay of a scenario, and what it wrote.
fn replayed(alloc: Global, scenario: &[u8]) -> Result<(u8, Bytes), NoMemory> {
    let bytes = Bytes::from_slice(alloc, scenario)?;
    let mut src = MemSource::new(bytes, Serials::new(alloc));
    let mut out = MemSink::new(alloc, 4096, Serials::new(alloc))?;
    let mut files = MemFiles::new(alloc, Serials::new(alloc));
    let code = run_replay(alloc, &mut src, &mut out, &mut files).code();
    Ok((code, Bytes::from_slice(alloc, out.written())?))
}

/// The whole text of a device that made this journal and has no open command: its line, the journal's, and the end line.
fn whole_text(alloc: Global, scenario: &str, journal: &str) -> Result<Vec<u8>, Fail> {
    let line = scenario.split('\n').next().ok_or("a device line")?;
    let mut text = Vec::new(alloc);
    text.extend_from_slice(line.as_bytes())?;
    text.extend_from_slice(b" # ready\n")?;
    text.extend_from_slice(journal.as_bytes())?;
    text.extend_from_slice(b"# open d0 0\n")?;
    Ok(text)
}

/// Whether a replay ends well and writes this text.
fn is_replay(alloc: Global, scenario: &[u8], wanted: &[u8]) -> Result<bool, NoMemory> {
    let (code, written) = replayed(alloc, scenario)?;
    Ok(code == 0 && written.as_slice() == wanted)
}

/// The first order whose journal does not replay to itself, if any.
fn first_lost(
    alloc: Global,
    scenario: &str,
    orders: &[Example],
) -> Result<Option<&'static str>, Fail> {
    for &(name, _, journal) in orders {
        let text = whole_text(alloc, scenario, journal)?;
        if !is_replay(alloc, &text, &text)? {
            return Ok(Some(name));
        }
    }
    Ok(None)
}

#[test]
fn a_write_and_a_read(rt: HostRuntime) -> Result<(), Fail> {
    let lost = first_lost(
        rt.alloc(),
        write_and_read::SCENARIO,
        &write_and_read::ORDERS,
    )?;
    assert_eq!(rt; lost, None);
    Ok(())
}

#[test]
fn answers_in_any_order(rt: HostRuntime) -> Result<(), Fail> {
    let lost = first_lost(rt.alloc(), any_order::SCENARIO, &any_order::ORDERS)?;
    assert_eq!(rt; lost, None);
    Ok(())
}

#[test]
fn a_command_that_waits_for_a_reset(rt: HostRuntime) -> Result<(), Fail> {
    let lost = first_lost(
        rt.alloc(),
        waits_for_reset::SCENARIO,
        &waits_for_reset::ORDERS,
    )?;
    assert_eq!(rt; lost, None);
    Ok(())
}

#[test]
fn a_command_that_waits_for_room(rt: HostRuntime) -> Result<(), Fail> {
    let lost = first_lost(
        rt.alloc(),
        waits_for_room::SCENARIO,
        &waits_for_room::ORDERS,
    )?;
    assert_eq!(rt; lost, None);
    Ok(())
}

/// The lines of a write and a read, each with a drain behind it.
const DRAINED: &str = "\
device d0 tcm-user/0/d0/mem/64 ring=4096 blocks=16 flags=ooo timeout=30\n\
submit d0 a 1 2a000000000300000100 out=5a*512\n\
drain d0\n\
submit d0 a 2 28000000000300000100 in=512\n\
drain d0\n\
";

/// A kept device that is asked as a drain would makes the journal of the replay.
#[test]
fn asks_in_the_order_of_a_drain_give_the_replay(rt: HostRuntime) -> Result<(), Fail> {
    let (_, _, journal) = write_and_read::ORDERS[0];
    let wanted = whole_text(rt.alloc(), DRAINED, journal)?;
    assert!(rt; is_replay(rt.alloc(), DRAINED.as_bytes(), &wanted)?);
    Ok(())
}
