//! Each order's whole journal.
use crate::examples::{Example, any_order, waits_for_reset, waits_for_room, write_and_read};
use crate::fixture::keep;
use journal_kept::Ask;
use std::alloc::Global;
use std::test::Fail;
use tcmu_types::Bytes;

/// The journal of a kept device of which these asks are made before it is finished.
fn journal_of(alloc: Global, scenario: &str, qfull: u32, asks: &[Ask]) -> Result<Bytes, Fail> {
    let mut rig = keep(alloc, scenario)?;
    rig.ask_all(asks)?;
    rig.finish()?;
    rig.journal(alloc, qfull)
}

/// The first order whose journal is another, if any.
fn first_wrong(
    alloc: Global,
    scenario: &str,
    qfull: u32,
    orders: &[Example],
) -> Result<Option<&'static str>, Fail> {
    for &(name, asks, wanted) in orders {
        let journal = journal_of(alloc, scenario, qfull, asks)?;
        if journal.as_slice() != wanted.as_bytes() {
            return Ok(Some(name));
        }
    }
    Ok(None)
}

#[test]
fn a_write_and_a_read(rt: HostRuntime) -> Result<(), Fail> {
    let wrong = first_wrong(
        rt.alloc(),
        write_and_read::SCENARIO,
        0,
        &write_and_read::ORDERS,
    )?;
    assert_eq!(rt; wrong, None);
    Ok(())
}

#[test]
fn answers_in_any_order(rt: HostRuntime) -> Result<(), Fail> {
    let wrong = first_wrong(rt.alloc(), any_order::SCENARIO, 0, &any_order::ORDERS)?;
    assert_eq!(rt; wrong, None);
    Ok(())
}

#[test]
fn a_command_that_waits_for_a_reset(rt: HostRuntime) -> Result<(), Fail> {
    let wrong = first_wrong(
        rt.alloc(),
        waits_for_reset::SCENARIO,
        5,
        &waits_for_reset::ORDERS,
    )?;
    assert_eq!(rt; wrong, None);
    Ok(())
}

#[test]
fn a_command_that_waits_for_room(rt: HostRuntime) -> Result<(), Fail> {
    let wrong = first_wrong(
        rt.alloc(),
        waits_for_room::SCENARIO,
        5,
        &waits_for_room::ORDERS,
    )?;
    assert_eq!(rt; wrong, None);
    Ok(())
}
