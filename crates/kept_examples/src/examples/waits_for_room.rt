//! Two reads on a device of one data block, the device's numbers, and the clock.
use crate::examples::Example;
use journal_kept::Ask::{Admin, Handle, Line, Respond, Work};

/// What the device is, and what is asked of it.
pub const SCENARIO: &str = "\
device d0 tcm-user/0/d0/mem/64 ring=4096 blocks=1 flags=ooo timeout=30 qfull=5\n\
submit d0 a 1 28000000000000000100 in=512\n\
submit d0 a 2 28000000000000000100 in=512\n\
stat d0\n\
tick d0 5\n\
";

/// In which orders it is asked.
pub const ORDERS: [Example; 5] = [
    (
        "the drain before the clock",
        &[
            Line(0),
            Line(0),
            Work,
            Handle(1),
            Respond(1),
            Work,
            Work,
            Work,
            Work,
            Handle(2),
            Respond(2),
            Work,
            Work,
            Work,
            Admin,
            Admin,
            Work,
        ],
        JOURNAL_1,
    ),
    (
        "the clock before the drain",
        &[
            Line(0),
            Line(0),
            Admin,
            Admin,
            Work,
            Handle(1),
            Respond(1),
            Work,
            Work,
        ],
        JOURNAL_2,
    ),
    (
        "the administration first",
        &[Admin, Admin, Line(0), Line(0)],
        JOURNAL_3,
    ),
    ("finished with nothing made", &[], JOURNAL_4),
    (
        "the second line behind the first job",
        &[
            Line(0),
            Work,
            Handle(1),
            Respond(1),
            Work,
            Work,
            Line(0),
            Work,
            Admin,
            Handle(2),
            Admin,
        ],
        JOURNAL_5,
    ),
];

/// The drain before the clock.
const JOURNAL_1: &str = "\
submit d0 a 1 28000000000000000100 in=512 # queued 1\n\
submit d0 a 2 28000000000000000100 in=512 # delayed 2\n\
dispatch d0 # job 1\n\
handle d0 1 # reply 00 - 00*512\n\
respond d0 1 # placed\n\
publish d0 # moved 1 1\n\
clean d0 # cleaned 1\n\
# done d0 1 a 1 00 - 00*512\n\
enter d0 # entered 2\n\
dispatch d0 # job 2\n\
handle d0 2 # reply 00 - 00*512\n\
respond d0 2 # placed\n\
publish d0 # moved 1 1\n\
clean d0 # cleaned 1\n\
# done d0 2 a 2 00 - 00*512\n\
stat d0 # now 0 blocked 0 attached 1 head 256 used 0 waiting 0 out 0 handled 0 parked 0 placed 0 lost 0 expired 0 held 0 delayed 0\n\
tick d0 5 # expired 0\n\
";

/// The clock before the drain.
const JOURNAL_2: &str = "\
submit d0 a 1 28000000000000000100 in=512 # queued 1\n\
submit d0 a 2 28000000000000000100 in=512 # delayed 2\n\
stat d0 # now 0 blocked 0 attached 1 head 128 used 128 waiting 1 out 0 handled 0 parked 0 placed 0 lost 0 expired 0 held 1 delayed 1\n\
tick d0 5 # expired 1\n\
# done d0 2 a 2 28 - -\n\
dispatch d0 # job 1\n\
handle d0 1 # reply 00 - 00*512\n\
respond d0 1 # placed\n\
publish d0 # moved 1 1\n\
clean d0 # cleaned 1\n\
# done d0 1 a 1 00 - 00*512\n\
";

/// The administration first.
const JOURNAL_3: &str = "\
stat d0 # now 0 blocked 0 attached 1 head 0 used 0 waiting 0 out 0 handled 0 parked 0 placed 0 lost 0 expired 0 held 0 delayed 0\n\
tick d0 5 # expired 0\n\
submit d0 a 1 28000000000000000100 in=512 # queued 1\n\
submit d0 a 2 28000000000000000100 in=512 # delayed 2\n\
dispatch d0 # job 1\n\
handle d0 1 # reply 00 - 00*512\n\
respond d0 1 # placed\n\
publish d0 # moved 1 1\n\
clean d0 # cleaned 1\n\
# done d0 1 a 1 00 - 00*512\n\
enter d0 # entered 2\n\
dispatch d0 # job 2\n\
handle d0 2 # reply 00 - 00*512\n\
respond d0 2 # placed\n\
publish d0 # moved 1 1\n\
clean d0 # cleaned 1\n\
# done d0 2 a 2 00 - 00*512\n\
";

/// Finished with nothing made.
const JOURNAL_4: &str = "\
submit d0 a 1 28000000000000000100 in=512 # queued 1\n\
submit d0 a 2 28000000000000000100 in=512 # delayed 2\n\
stat d0 # now 0 blocked 0 attached 1 head 128 used 128 waiting 1 out 0 handled 0 parked 0 placed 0 lost 0 expired 0 held 1 delayed 1\n\
tick d0 5 # expired 1\n\
# done d0 2 a 2 28 - -\n\
dispatch d0 # job 1\n\
handle d0 1 # reply 00 - 00*512\n\
respond d0 1 # placed\n\
publish d0 # moved 1 1\n\
clean d0 # cleaned 1\n\
# done d0 1 a 1 00 - 00*512\n\
";

/// The second line behind the first job.
const JOURNAL_5: &str = "\
submit d0 a 1 28000000000000000100 in=512 # queued 1\n\
dispatch d0 # job 1\n\
handle d0 1 # reply 00 - 00*512\n\
respond d0 1 # placed\n\
publish d0 # moved 1 1\n\
clean d0 # cleaned 1\n\
# done d0 1 a 1 00 - 00*512\n\
submit d0 a 2 28000000000000000100 in=512 # queued 2\n\
dispatch d0 # job 2\n\
stat d0 # now 0 blocked 0 attached 1 head 256 used 128 waiting 0 out 1 handled 0 parked 0 placed 0 lost 0 expired 0 held 1 delayed 0\n\
handle d0 2 # reply 00 - 00*512\n\
tick d0 5 # expired 0\n\
respond d0 2 # placed\n\
publish d0 # moved 1 1\n\
clean d0 # cleaned 1\n\
# done d0 2 a 2 00 - 00*512\n\
";
