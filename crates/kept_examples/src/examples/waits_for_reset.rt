//! Two reads on a device of one data block, the clock, and a reset.
use crate::examples::Example;
use journal_kept::Ask::{Admin, Handle, Line, Respond, Work};

/// What the device is, and what is asked of it.
pub const SCENARIO: &str = "\
device d0 tcm-user/0/d0/mem/64 ring=4096 blocks=1 flags=ooo timeout=30 qfull=5\n\
submit d0 a 1 28000000000000000100 in=512\n\
submit d0 a 2 28000000000000000100 in=512\n\
tick d0 4\n\
block d0\n\
reset d0 1\n\
";

/// In which orders it is asked.
pub const ORDERS: [Example; 5] = [
    (
        "the lines before the administration",
        &[Line(0), Line(0), Admin, Admin, Admin, Work],
        JOURNAL_1,
    ),
    (
        "reset before the second line",
        &[Line(0), Admin, Admin, Admin, Line(0)],
        JOURNAL_2,
    ),
    (
        "reset while a handler has the command",
        &[
            Line(0),
            Work,
            Line(0),
            Admin,
            Admin,
            Admin,
            Handle(1),
            Respond(1),
            Work,
            Work,
            Work,
        ],
        JOURNAL_3,
    ),
    ("finished with nothing made", &[], JOURNAL_4),
    (
        "reset behind an answer that is published",
        &[
            Line(0),
            Line(0),
            Work,
            Handle(1),
            Respond(1),
            Work,
            Admin,
            Admin,
            Admin,
        ],
        JOURNAL_5,
    ),
];

/// The lines before the administration.
const JOURNAL_1: &str = "\
submit d0 a 1 28000000000000000100 in=512 # queued 1\n\
submit d0 a 2 28000000000000000100 in=512 # delayed 2\n\
tick d0 4 # expired 0\n\
block d0 # changed\n\
reset d0 1 # reset 2\n\
# done d0 1 a 1 08 - -\n\
# done d0 2 a 2 08 - -\n\
";

/// Reset before the second line.
const JOURNAL_2: &str = "\
submit d0 a 1 28000000000000000100 in=512 # queued 1\n\
tick d0 4 # expired 0\n\
block d0 # changed\n\
reset d0 1 # reset 1\n\
# done d0 1 a 1 08 - -\n\
submit d0 a 2 28000000000000000100 in=512 # busy\n\
";

/// Reset while a handler has the command.
const JOURNAL_3: &str = "\
submit d0 a 1 28000000000000000100 in=512 # queued 1\n\
dispatch d0 # job 1\n\
submit d0 a 2 28000000000000000100 in=512 # delayed 2\n\
tick d0 4 # expired 0\n\
block d0 # changed\n\
reset d0 1 # handlersout 1\n\
handle d0 1 # reply 00 - 00*512\n\
respond d0 1 # placed\n\
publish d0 # moved 1 1\n\
clean d0 # cleaned 1\n\
# done d0 1 a 1 00 - 00*512\n\
enter d0 # entered 2\n\
dispatch d0 # job 2\n\
handle d0 2 # reply 00 - 00*512\n\
respond d0 2 # placed\n\
publish d0 # moved 1 1\n\
clean d0 # cleaned 1\n\
# done d0 2 a 2 00 - 00*512\n\
";

/// Finished with nothing made.
const JOURNAL_4: &str = "\
submit d0 a 1 28000000000000000100 in=512 # queued 1\n\
submit d0 a 2 28000000000000000100 in=512 # delayed 2\n\
tick d0 4 # expired 0\n\
block d0 # changed\n\
reset d0 1 # reset 2\n\
# done d0 1 a 1 08 - -\n\
# done d0 2 a 2 08 - -\n\
";

/// Reset behind an answer that is published.
const JOURNAL_5: &str = "\
submit d0 a 1 28000000000000000100 in=512 # queued 1\n\
submit d0 a 2 28000000000000000100 in=512 # delayed 2\n\
dispatch d0 # job 1\n\
handle d0 1 # reply 00 - 00*512\n\
respond d0 1 # placed\n\
publish d0 # moved 1 1\n\
tick d0 4 # expired 0\n\
block d0 # changed\n\
reset d0 1 # reset 2\n\
# done d0 1 a 1 00 - 00*512\n\
# done d0 2 a 2 08 - -\n\
";
