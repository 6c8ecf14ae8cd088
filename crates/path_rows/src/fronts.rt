//! The first calls of a table, after which the user side goes and a reset ends all that is open.
use crate::Rig;
use crate::examples::answers::EMPTIED;
use crate::rows::{Call, Told, first_wrong};
use std::alloc::Global;
use std::test::Fail;
use tcmu_path::Path;
use tcmu_types::{Done, Reset, Submit};

/// How many commands are accepted in a table.
fn accepted(rows: &[(Call, Told)]) -> usize {
    rows.iter()
        .filter(|(_, told)| matches!(told, Told::Submit(Submit::Queued(_) | Submit::Delayed(_))))
        .count()
}

/// Whether each of the serials from 1 on, so many, is logged once, and no other.
fn is_once_each(log: &[Done], accepted: usize) -> bool {
    if log.len() != accepted {
        return false;
    }
    for serial in 1..=accepted as u64 {
        if log.iter().filter(|done| done.serial == serial).count() != 1 {
            return false;
        }
    }
    true
}

/// Makes the first calls of a table in which no time passes, and then a restart, a block and a reset: whether the calls answer as their
/// rows say, no command is unfinished, and each one accepted is logged once.
pub fn ends_after<P: Path + Drop>(
    mut rig: Rig<P>,
    alloc: Global,
    rows: &[(Call, Told)],
    made: usize,
) -> Result<bool, Fail> {
    let front = rows.get(..made).ok_or("so many rows")?;
    if first_wrong(&mut rig, alloc, front)?.is_some() {
        return Ok(false);
    }
    rig.restart();
    rig.block();
    let reset = rig.reset(1);
    let ends = matches!(reset, Reset::Reset(_)) && rig.stat() == EMPTIED;
    Ok(ends && is_once_each(rig.log(), accepted(front)))
}
