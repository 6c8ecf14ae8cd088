//! A write of a block and a read of it.
use crate::examples::Example;
use journal_kept::Ask::{Admin, Handle, Line, Respond, Work};

/// What the device is, and what is asked of it.
pub const SCENARIO: &str = "\
device d0 tcm-user/0/d0/mem/64 ring=4096 blocks=16 flags=ooo timeout=30\n\
submit d0 a 1 2a000000000300000100 out=5a*512\n\
submit d0 a 2 28000000000300000100 in=512\n\
";

/// In which orders it is asked.
pub const ORDERS: [Example; 5] = [
    (
        "in the order of the drain",
        &[
            Line(0),
            Work,
            Handle(1),
            Respond(1),
            Work,
            Work,
            Line(0),
            Work,
            Handle(2),
            Respond(2),
            Work,
            Work,
        ],
        JOURNAL_1,
    ),
    (
        "all lines before any work",
        &[
            Line(0),
            Line(0),
            Work,
            Work,
            Handle(1),
            Handle(2),
            Respond(1),
            Respond(2),
            Work,
            Work,
        ],
        JOURNAL_2,
    ),
    (
        "handled in the other order",
        &[
            Line(0),
            Line(0),
            Work,
            Work,
            Handle(2),
            Respond(2),
            Handle(1),
            Respond(1),
            Work,
            Work,
        ],
        JOURNAL_3,
    ),
    ("finished with nothing made", &[], JOURNAL_4),
    (
        "with asks that make no event, and finished on the way",
        &[
            Work,
            Line(0),
            Line(0),
            Line(0),
            Admin,
            Line(1),
            Work,
            Respond(1),
            Handle(1),
            Handle(1),
            Work,
        ],
        JOURNAL_5,
    ),
];

/// In the order of the drain.
const JOURNAL_1: &str = "\
submit d0 a 1 2a000000000300000100 out=5a*512 # queued 1\n\
dispatch d0 # job 1\n\
handle d0 1 # reply 00 - -\n\
respond d0 1 # placed\n\
publish d0 # moved 1 1\n\
clean d0 # cleaned 1\n\
# done d0 1 a 1 00 - -\n\
submit d0 a 2 28000000000300000100 in=512 # queued 2\n\
dispatch d0 # job 2\n\
handle d0 2 # reply 00 - 5a*512\n\
respond d0 2 # placed\n\
publish d0 # moved 1 1\n\
clean d0 # cleaned 1\n\
# done d0 2 a 2 00 - 5a*512\n\
";

/// All lines before any work.
const JOURNAL_2: &str = "\
submit d0 a 1 2a000000000300000100 out=5a*512 # queued 1\n\
submit d0 a 2 28000000000300000100 in=512 # queued 2\n\
dispatch d0 # job 1\n\
dispatch d0 # job 2\n\
handle d0 1 # reply 00 - -\n\
handle d0 2 # reply 00 - 5a*512\n\
respond d0 1 # placed\n\
respond d0 2 # placed\n\
publish d0 # moved 2 2\n\
clean d0 # cleaned 2\n\
# done d0 1 a 1 00 - -\n\
# done d0 2 a 2 00 - 5a*512\n\
";

/// Handled in the other order.
const JOURNAL_3: &str = "\
submit d0 a 1 2a000000000300000100 out=5a*512 # queued 1\n\
submit d0 a 2 28000000000300000100 in=512 # queued 2\n\
dispatch d0 # job 1\n\
dispatch d0 # job 2\n\
handle d0 2 # reply 00 - 00*512\n\
respond d0 2 # placed\n\
handle d0 1 # reply 00 - -\n\
respond d0 1 # placed\n\
publish d0 # moved 2 2\n\
clean d0 # cleaned 2\n\
# done d0 2 a 2 00 - 00*512\n\
# done d0 1 a 1 00 - -\n\
";

/// Finished with nothing made.
const JOURNAL_4: &str = "\
submit d0 a 1 2a000000000300000100 out=5a*512 # queued 1\n\
submit d0 a 2 28000000000300000100 in=512 # queued 2\n\
dispatch d0 # job 1\n\
handle d0 1 # reply 00 - -\n\
respond d0 1 # placed\n\
publish d0 # moved 1 1\n\
clean d0 # cleaned 1\n\
# done d0 1 a 1 00 - -\n\
dispatch d0 # job 2\n\
handle d0 2 # reply 00 - 5a*512\n\
respond d0 2 # placed\n\
publish d0 # moved 1 1\n\
clean d0 # cleaned 1\n\
# done d0 2 a 2 00 - 5a*512\n\
";

/// With asks that make no event, and finished on the way.
const JOURNAL_5: &str = "\
submit d0 a 1 2a000000000300000100 out=5a*512 # queued 1\n\
submit d0 a 2 28000000000300000100 in=512 # queued 2\n\
dispatch d0 # job 1\n\
respond d0 1 # nothandled 1\n\
handle d0 1 # reply 00 - -\n\
handle d0 1 # notout 1\n\
dispatch d0 # job 2\n\
handle d0 2 # reply 00 - 5a*512\n\
respond d0 1 # placed\n\
respond d0 2 # placed\n\
publish d0 # moved 2 2\n\
clean d0 # cleaned 2\n\
# done d0 1 a 1 00 - -\n\
# done d0 2 a 2 00 - 5a*512\n\
";
