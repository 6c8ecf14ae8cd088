//! What a journal says where calls of a medium fail.
use crate::replays::{ended, has_line, over_file};
use std::test::Fail;

/// A read of each block of the file `img`, one after the other.
const TWO_READS: &str = "\
device d0 tcm-user/0/d0/file/img ring=4096 blocks=16 flags=ooo timeout=30\n\
submit d0 a 1 28000000000000000100 in=512\n\
drain d0\n\
submit d0 a 2 28000000000100000100 in=512\n\
drain d0\n\
";

#[test]
fn the_second_call_of_a_store_fails(rt: HostRuntime) -> Result<(), Fail> {
    let alloc = rt.alloc();
    let (code, written) = over_file(alloc, TWO_READS, 0, 2)?;
    assert_eq!(rt; code, 0);
    for line in [
        "# done d0 1 a 1 00 - 77*512",
        "# done d0 2 a 2 02 03/11/00 -",
    ] {
        assert!(rt; has_line(written.as_slice(), line), "{line}");
    }
    Ok(())
}

/// Four reads of the first block of the file `img`.
const FOUR_READS: &str = "\
device d0 tcm-user/0/d0/file/img ring=4096 blocks=16 flags=ooo timeout=30\n\
submit d0 a 1 28000000000000000100 in=512\n\
submit d0 a 2 28000000000000000100 in=512\n\
submit d0 a 3 28000000000000000100 in=512\n\
submit d0 a 4 28000000000000000100 in=512\n\
";

/// How each read is done where it has its bytes, and where its call of the store fails.
const DONE: [(u64, &str, &str); 4] = [
    (
        1,
        "# done d0 1 a 1 00 - 77*512",
        "# done d0 1 a 1 02 03/11/00 -",
    ),
    (
        2,
        "# done d0 2 a 2 00 - 77*512",
        "# done d0 2 a 2 02 03/11/00 -",
    ),
    (
        3,
        "# done d0 3 a 3 00 - 77*512",
        "# done d0 3 a 3 02 03/11/00 -",
    ),
    (
        4,
        "# done d0 4 a 4 00 - 77*512",
        "# done d0 4 a 4 02 03/11/00 -",
    ),
];

#[test]
fn each_call_of_a_store_fails(rt: HostRuntime) -> Result<(), Fail> {
    let alloc = rt.alloc();
    for failing in 1..=4 {
        let (code, written) = over_file(alloc, FOUR_READS, 0, failing)?;
        assert_eq!(rt; code, 0, "{failing}");
        for (call, good, failed) in DONE {
            let fails = call == failing;
            assert_eq!(rt;
                has_line(written.as_slice(), good),
                !fails,
                "{failing} {call}"
            );
            assert_eq!(rt;
                has_line(written.as_slice(), failed),
                fails,
                "{failing} {call}"
            );
        }
    }
    Ok(())
}

/// A write to a protected device, and two to one of which the second call of its medium fails.
const TWO_DEVICES: &str = "\
device d0 tcm-user/0/d0/ro/mem/64 ring=4096 blocks=16 flags=ooo timeout=30\n\
device d1 tcm-user/1/d1/fail/2/mem/64 ring=4096 blocks=16 flags=ooo timeout=30\n\
submit d0 a 1 2a000000000000000100 out=11*512\n\
submit d1 a 1 2a000000000000000100 out=22*512\n\
submit d1 a 2 2a000000000000000100 out=33*512\n\
";

#[test]
fn two_devices_refuse_writes(rt: HostRuntime) -> Result<(), Fail> {
    let alloc = rt.alloc();
    let (code, written) = ended(alloc, TWO_DEVICES, 0, 0)?;
    assert_eq!(rt; code, 0);
    for line in [
        "# done d0 1 a 1 02 07/27/00 -",
        "# done d1 1 a 1 00 - -",
        "# done d1 2 a 2 02 03/0c/00 -",
    ] {
        assert!(rt; has_line(written.as_slice(), line), "{line}");
    }
    Ok(())
}
