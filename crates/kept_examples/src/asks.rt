//! What single asks tell.
use crate::examples::write_and_read;
use crate::fixture::keep;
use journal_kept::Ask;
use std::test::Fail;

/// An ask with its line, or why there is none, and the length of the journal then.
const TOLD: [(Ask, &str, u64); 16] = [
    (Ask::Work, "idle", 0),
    (Ask::Admin, "no line", 0),
    (Ask::Line(1), "no line", 0),
    (
        Ask::Line(0),
        "submit d0 a 1 2a000000000300000100 out=5a*512 # queued 1\n",
        1,
    ),
    (Ask::Work, "dispatch d0 # job 1\n", 2),
    (
        Ask::Line(0),
        "submit d0 a 2 28000000000300000100 in=512 # queued 2\n",
        3,
    ),
    (Ask::Line(0), "no line", 3),
    (Ask::Handle(1), "handle d0 1 # reply 00 - -\n", 4),
    (Ask::Work, "dispatch d0 # job 2\n", 5),
    (Ask::Work, "idle", 5),
    (Ask::Handle(2), "handle d0 2 # reply 00 - 5a*512\n", 6),
    (Ask::Respond(1), "respond d0 1 # placed\n", 7),
    (Ask::Respond(2), "respond d0 2 # placed\n", 8),
    (Ask::Work, "publish d0 # moved 2 2\n", 9),
    (Ask::Work, "clean d0 # cleaned 2\n", 10),
    (Ask::Work, "ended", 10),
];

/// The copy of an answer that is told has the same line as the journal's.
#[test]
fn each_ask_is_told_what_came(rt: HostRuntime) -> Result<(), Fail> {
    let alloc = rt.alloc();
    let mut rig = keep(alloc, write_and_read::SCENARIO)?;
    assert_eq!(rt; rig.initiators(), 1);
    for (ask, wanted, length) in &TOLD {
        let told = rig.told(alloc, ask)?;
        assert_eq!(rt; told.as_slice(), wanted.as_bytes());
        assert_eq!(rt; rig.length(), *length);
    }
    rig.finish()?;
    assert_eq!(rt; rig.length(), 10);
    assert_eq!(rt; rig.finished(), 2);
    Ok(())
}
