//! A write of three blocks, and a read of each, one of them by another initiator.
use crate::examples::Example;
use journal_kept::Ask::{Handle, Line, Respond, Work};

/// What the device is, and what is asked of it.
pub const SCENARIO: &str = "\
device d0 tcm-user/0/d0/mem/64 ring=4096 blocks=16 flags=ooo timeout=30\n\
submit d0 a 1 2a000000000000000300 out=11*512,22*512,33*512\n\
submit d0 a 2 28000000000000000100 in=512\n\
submit d0 a 3 28000000000100000100 in=512\n\
submit d0 b 4 28000000000200000100 in=512\n\
";

/// In which orders it is asked.
pub const ORDERS: [Example; 5] = [
    (
        "answered as they come",
        &[
            Line(0),
            Work,
            Handle(1),
            Respond(1),
            Work,
            Work,
            Line(0),
            Line(0),
            Line(1),
            Work,
            Work,
            Work,
            Handle(4),
            Respond(4),
            Handle(2),
            Respond(2),
            Handle(3),
            Respond(3),
            Work,
            Work,
        ],
        JOURNAL_1,
    ),
    (
        "the other initiator first",
        &[
            Line(1),
            Line(0),
            Line(0),
            Line(0),
            Work,
            Work,
            Work,
            Work,
            Handle(1),
            Respond(1),
            Handle(2),
            Respond(2),
            Handle(3),
            Respond(3),
            Handle(4),
            Respond(4),
            Work,
            Work,
        ],
        JOURNAL_2,
    ),
    (
        "one line at a time, each worked",
        &[
            Line(0),
            Work,
            Handle(1),
            Respond(1),
            Work,
            Work,
            Line(1),
            Work,
            Handle(2),
            Respond(2),
            Work,
            Work,
            Line(0),
            Work,
            Handle(3),
            Respond(3),
            Work,
            Work,
            Line(0),
            Work,
            Handle(4),
            Respond(4),
            Work,
            Work,
        ],
        JOURNAL_3,
    ),
    ("finished with nothing made", &[], JOURNAL_4),
    (
        "handled backwards",
        &[
            Line(0),
            Line(0),
            Line(0),
            Line(1),
            Work,
            Work,
            Work,
            Work,
            Handle(4),
            Handle(3),
            Handle(2),
            Handle(1),
            Respond(4),
            Respond(3),
            Respond(2),
            Respond(1),
            Work,
            Work,
        ],
        JOURNAL_5,
    ),
];

/// Answered as they come.
const JOURNAL_1: &str = "\
submit d0 a 1 2a000000000000000300 out=11*512,22*512,33*512 # queued 1\n\
dispatch d0 # job 1\n\
handle d0 1 # reply 00 - -\n\
respond d0 1 # placed\n\
publish d0 # moved 1 1\n\
clean d0 # cleaned 1\n\
# done d0 1 a 1 00 - -\n\
submit d0 a 2 28000000000000000100 in=512 # queued 2\n\
submit d0 a 3 28000000000100000100 in=512 # queued 3\n\
submit d0 b 4 28000000000200000100 in=512 # queued 4\n\
dispatch d0 # job 2\n\
dispatch d0 # job 3\n\
dispatch d0 # job 4\n\
handle d0 4 # reply 00 - 33*512\n\
respond d0 4 # placed\n\
handle d0 2 # reply 00 - 11*512\n\
respond d0 2 # placed\n\
handle d0 3 # reply 00 - 22*512\n\
respond d0 3 # placed\n\
publish d0 # moved 3 3\n\
clean d0 # cleaned 3\n\
# done d0 4 b 4 00 - 33*512\n\
# done d0 2 a 2 00 - 11*512\n\
# done d0 3 a 3 00 - 22*512\n\
";

/// The other initiator first.
const JOURNAL_2: &str = "\
submit d0 b 4 28000000000200000100 in=512 # queued 1\n\
submit d0 a 1 2a000000000000000300 out=11*512,22*512,33*512 # queued 2\n\
submit d0 a 2 28000000000000000100 in=512 # queued 3\n\
submit d0 a 3 28000000000100000100 in=512 # queued 4\n\
dispatch d0 # job 1\n\
dispatch d0 # job 2\n\
dispatch d0 # job 3\n\
dispatch d0 # job 4\n\
handle d0 1 # reply 00 - 00*512\n\
respond d0 1 # placed\n\
handle d0 2 # reply 00 - -\n\
respond d0 2 # placed\n\
handle d0 3 # reply 00 - 11*512\n\
respond d0 3 # placed\n\
handle d0 4 # reply 00 - 22*512\n\
respond d0 4 # placed\n\
publish d0 # moved 4 4\n\
clean d0 # cleaned 4\n\
# done d0 1 b 4 00 - 00*512\n\
# done d0 2 a 1 00 - -\n\
# done d0 3 a 2 00 - 11*512\n\
# done d0 4 a 3 00 - 22*512\n\
";

/// One line at a time, each worked.
const JOURNAL_3: &str = "\
submit d0 a 1 2a000000000000000300 out=11*512,22*512,33*512 # queued 1\n\
dispatch d0 # job 1\n\
handle d0 1 # reply 00 - -\n\
respond d0 1 # placed\n\
publish d0 # moved 1 1\n\
clean d0 # cleaned 1\n\
# done d0 1 a 1 00 - -\n\
submit d0 b 4 28000000000200000100 in=512 # queued 2\n\
dispatch d0 # job 2\n\
handle d0 2 # reply 00 - 33*512\n\
respond d0 2 # placed\n\
publish d0 # moved 1 1\n\
clean d0 # cleaned 1\n\
# done d0 2 b 4 00 - 33*512\n\
submit d0 a 2 28000000000000000100 in=512 # queued 3\n\
dispatch d0 # job 3\n\
handle d0 3 # reply 00 - 11*512\n\
respond d0 3 # placed\n\
publish d0 # moved 1 1\n\
clean d0 # cleaned 1\n\
# done d0 3 a 2 00 - 11*512\n\
submit d0 a 3 28000000000100000100 in=512 # queued 4\n\
dispatch d0 # job 4\n\
handle d0 4 # reply 00 - 22*512\n\
respond d0 4 # placed\n\
publish d0 # moved 1 1\n\
clean d0 # cleaned 1\n\
# done d0 4 a 3 00 - 22*512\n\
";

/// Finished with nothing made.
const JOURNAL_4: &str = "\
submit d0 a 1 2a000000000000000300 out=11*512,22*512,33*512 # queued 1\n\
submit d0 a 2 28000000000000000100 in=512 # queued 2\n\
submit d0 a 3 28000000000100000100 in=512 # queued 3\n\
submit d0 b 4 28000000000200000100 in=512 # queued 4\n\
dispatch d0 # job 1\n\
handle d0 1 # reply 00 - -\n\
respond d0 1 # placed\n\
publish d0 # moved 1 1\n\
clean d0 # cleaned 1\n\
# done d0 1 a 1 00 - -\n\
dispatch d0 # job 2\n\
handle d0 2 # reply 00 - 11*512\n\
respond d0 2 # placed\n\
publish d0 # moved 1 1\n\
clean d0 # cleaned 1\n\
# done d0 2 a 2 00 - 11*512\n\
dispatch d0 # job 3\n\
handle d0 3 # reply 00 - 22*512\n\
respond d0 3 # placed\n\
publish d0 # moved 1 1\n\
clean d0 # cleaned 1\n\
# done d0 3 a 3 00 - 22*512\n\
dispatch d0 # job 4\n\
handle d0 4 # reply 00 - 33*512\n\
respond d0 4 # placed\n\
publish d0 # moved 1 1\n\
clean d0 # cleaned 1\n\
# done d0 4 b 4 00 - 33*512\n\
";

/// Handled backwards.
const JOURNAL_5: &str = "\
submit d0 a 1 2a000000000000000300 out=11*512,22*512,33*512 # queued 1\n\
submit d0 a 2 28000000000000000100 in=512 # queued 2\n\
submit d0 a 3 28000000000100000100 in=512 # queued 3\n\
submit d0 b 4 28000000000200000100 in=512 # queued 4\n\
dispatch d0 # job 1\n\
dispatch d0 # job 2\n\
dispatch d0 # job 3\n\
dispatch d0 # job 4\n\
handle d0 4 # reply 00 - 00*512\n\
handle d0 3 # reply 00 - 00*512\n\
handle d0 2 # reply 00 - 00*512\n\
handle d0 1 # reply 00 - -\n\
respond d0 4 # placed\n\
respond d0 3 # placed\n\
respond d0 2 # placed\n\
respond d0 1 # placed\n\
publish d0 # moved 4 4\n\
clean d0 # cleaned 4\n\
# done d0 4 b 4 00 - 00*512\n\
# done d0 3 a 3 00 - 00*512\n\
# done d0 2 a 2 00 - 00*512\n\
# done d0 1 a 1 00 - -\n\
";
