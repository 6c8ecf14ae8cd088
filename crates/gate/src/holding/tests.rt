//! Gates in one thread.
use super::*;
use crate::OpenGate;
use std::test::Fail;

/// Passes a gate as a worker does that shares it with others.
fn pass_shared<R: Wait, G: Gate + Sync>(rt: &R, gate: &G, serial: u64) {
    gate.pass(rt, 0, serial);
}

#[test]
fn a_pass_ends_at_its_limit(rt: HostRuntime) -> Result<(), Fail> {
    let gate = HoldGate::new(1, 2, 3);
    pass_shared(&rt, &gate, 1);
    assert!(rt; gate.timed_out(&rt));
    assert_eq!(rt; gate.watch.lock(&rt).most_turns, 3);
    Ok(())
}

#[test]
fn a_pass_ends_where_the_answer_came(rt: HostRuntime) -> Result<(), Fail> {
    let gate = HoldGate::new(1, 2, 3);
    gate.answered(&rt, 0, 2);
    gate.pass(&rt, 7, 1);
    assert!(rt; !gate.timed_out(&rt));
    Ok(())
}

#[test]
fn an_answer_to_another_job_ends_no_pass(rt: HostRuntime) -> Result<(), Fail> {
    let gate = HoldGate::new(1, 2, 3);
    gate.answered(&rt, 0, 1);
    gate.answered(&rt, 0, 3);
    gate.pass(&rt, 0, 1);
    assert!(rt; gate.timed_out(&rt));
    Ok(())
}

#[test]
fn no_other_job_is_held(rt: HostRuntime) -> Result<(), Fail> {
    let gate = HoldGate::new(1, 2, 3);
    gate.pass(&rt, 0, 2);
    gate.pass(&rt, 0, 3);
    assert!(rt; !gate.timed_out(&rt));
    Ok(())
}

#[test]
fn an_open_gate_holds_no_job(rt: HostRuntime) -> Result<(), Fail> {
    pass_shared(&rt, &OpenGate, 1);
    OpenGate.answered(&rt, 0, 1);
    Ok(())
}
