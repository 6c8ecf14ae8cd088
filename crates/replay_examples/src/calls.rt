//! Each call of the sink, the source and the files fails in turn.
use crate::replays::{ended, left_in_file, over_file};
use std::test::Fail;

/// A write of three blocks, and a read of each, answered last, first, second.
const SCENARIO: &str = "\
device d0 tcm-user/0/d0/mem/64 ring=4096 blocks=16 flags=ooo timeout=30\n\
submit d0 a 1 2a000000000000000300 out=11*512,22*512,33*512\n\
drain d0\n\
submit d0 a 2 28000000000000000100 in=512\n\
submit d0 a 3 28000000000100000100 in=512\n\
submit d0 b 4 28000000000200000100 in=512\n\
dispatch d0\n\
dispatch d0\n\
dispatch d0\n\
handle d0 4\n\
respond d0 4\n\
handle d0 2\n\
respond d0 2\n\
handle d0 3\n\
respond d0 3\n\
publish d0\n\
clean d0\n\
";

/// The lines of its journal.
const JOURNAL: [&str; 26] = [
    "device d0 tcm-user/0/d0/mem/64 ring=4096 blocks=16 flags=ooo timeout=30 # ready\n",
    "submit d0 a 1 2a000000000000000300 out=11*512,22*512,33*512 # queued 1\n",
    "dispatch d0 # job 1\n",
    "handle d0 1 # reply 00 - -\n",
    "respond d0 1 # placed\n",
    "publish d0 # moved 1 1\n",
    "clean d0 # cleaned 1\n",
    "# done d0 1 a 1 00 - -\n",
    "submit d0 a 2 28000000000000000100 in=512 # queued 2\n",
    "submit d0 a 3 28000000000100000100 in=512 # queued 3\n",
    "submit d0 b 4 28000000000200000100 in=512 # queued 4\n",
    "dispatch d0 # job 2\n",
    "dispatch d0 # job 3\n",
    "dispatch d0 # job 4\n",
    "handle d0 4 # reply 00 - 33*512\n",
    "respond d0 4 # placed\n",
    "handle d0 2 # reply 00 - 11*512\n",
    "respond d0 2 # placed\n",
    "handle d0 3 # reply 00 - 22*512\n",
    "respond d0 3 # placed\n",
    "publish d0 # moved 3 3\n",
    "clean d0 # cleaned 3\n",
    "# done d0 4 b 4 00 - 33*512\n",
    "# done d0 2 a 2 00 - 11*512\n",
    "# done d0 3 a 3 00 - 22*512\n",
    "# open d0 0\n",
];

/// A failing write leaves the lines before it.
#[test]
fn each_write_fails(rt: HostRuntime) -> Result<(), Fail> {
    let alloc = rt.alloc();
    let mut front = String::new(alloc);
    let mut write = 1;
    for line in JOURNAL {
        let (code, written) = ended(alloc, SCENARIO, 0, write)?;
        assert_eq!(rt; code, 2, "{write}");
        assert_eq!(rt; written.as_slice(), front.as_bytes(), "{write}");
        front.push_str(line)?;
        write = write.saturating_add(1);
    }
    let (code, written) = ended(alloc, SCENARIO, 0, write)?;
    assert_eq!(rt; code, 0);
    assert_eq!(rt; written.as_slice(), front.as_bytes());
    Ok(())
}

/// The first read gives all bytes, and the second their end.
#[test]
fn each_read_fails(rt: HostRuntime) -> Result<(), Fail> {
    let alloc = rt.alloc();
    for read in [1, 2] {
        let (code, written) = ended(alloc, SCENARIO, read, 0)?;
        assert_eq!(rt; code, 1, "{read}");
        assert!(rt; written.as_slice().is_empty(), "{read}");
    }
    Ok(())
}

/// A device over the file `img`.
const IMG: &str = "device d0 tcm-user/0/d0/file/img ring=4096 blocks=16 flags=ooo timeout=30\n";

/// A device over a file that is missing.
const NONE: &str = "device d0 tcm-user/0/d0/file/none ring=4096 blocks=16 flags=ooo timeout=30\n";

/// A file that is missing, and one of which the fetch fails.
#[test]
fn a_fetch_fails(rt: HostRuntime) -> Result<(), Fail> {
    let alloc = rt.alloc();
    for (input, fetch) in [(NONE, 0), (IMG, 1)] {
        let (code, written) = over_file(alloc, input, fetch, 0)?;
        assert_eq!(rt; code, 6, "{input}");
        assert!(rt; written.as_slice().is_empty(), "{input}");
    }
    Ok(())
}

/// A write of 11h to the first block of the file `img`.
const WRITE: &str = "\
device d0 tcm-user/0/d0/file/img ring=4096 blocks=16 flags=ooo timeout=30\n\
submit d0 a 1 2a000000000000000100 out=11*512\n\
";

/// A write of 11h to the first block of the file `img`, beside a device over a file that is missing.
const OTHER: &str = "\
device d0 tcm-user/0/d0/file/img ring=4096 blocks=16 flags=ooo timeout=30\n\
device d1 tcm-user/0/d1/file/none ring=4096 blocks=16 flags=ooo timeout=30\n\
submit d0 a 1 2a000000000000000100 out=11*512\n\
";

/// The first block of the file has what was written where the command was handled before a write of the sink failed: the fourth is
/// that of the handle line. Where another file is missing nothing is handled. The second block stays.
#[test]
fn the_file_has_what_was_written(rt: HostRuntime) -> Result<(), Fail> {
    let alloc = rt.alloc();
    for (input, write, status, byte) in [
        (WRITE, 0, 0, 0x11u8),
        (WRITE, 1, 2, 0x77),
        (WRITE, 3, 2, 0x77),
        (WRITE, 4, 2, 0x11),
        (WRITE, 7, 2, 0x11),
        (OTHER, 0, 6, 0x77),
    ] {
        let (code, bytes) = left_in_file(alloc, input, write)?;
        assert_eq!(rt; code, status, "{input}{write}");
        let bytes = bytes.as_slice();
        assert_eq!(rt; bytes.len(), 1024, "{input}{write}");
        let (front, back) = bytes.split_at(512);
        assert!(rt; front.iter().all(|b| *b == byte), "{input}{write}");
        assert!(rt; back.iter().all(|b| *b == 0x77), "{input}{write}");
    }
    Ok(())
}
