//! Loads whose write fails, and words that the program does not know.
use edge::{MemFiles, MemSink, MemSource};
use std::alloc::Global;
use std::test::Fail;
use tcmu_top::{run_load, tcmu_top};
use tcmu_types::{Bytes, NoMemory, Serials, Words};

/// The exit status of a load of one command, and what it wrote. The write of this number fails.
fn loaded(alloc: Global, write: u64) -> Result<(u8, Bytes), NoMemory> {
    let mut out = MemSink::new(alloc, 64, Serials::from_slice(alloc, &[write])?)?;
    let code = run_load(alloc, 0, 1, &mut out).code();
    Ok((code, Bytes::from_slice(alloc, out.written())?))
}

/// The exit status of the program with these words and no input, and what it told.
fn told(alloc: Global, given: &[&str]) -> Result<(u8, Bytes), NoMemory> {
    let mut words = Words::new(alloc);
    for word in given {
        let word = Bytes::from_slice(alloc, word.as_bytes())?;
        words.reserve(1)?;
        words.push(word);
    }
    let mut src = MemSource::new(Bytes::new(alloc), Serials::new(alloc));
    let mut out = MemSink::new(alloc, 64, Serials::new(alloc))?;
    let mut err = MemSink::new(alloc, 64, Serials::new(alloc))?;
    let mut files = MemFiles::new(alloc, Serials::new(alloc));
    let code = tcmu_top(alloc, &words, &mut src, &mut out, &mut err, &mut files).code();
    Ok((code, Bytes::from_slice(alloc, err.written())?))
}

#[test]
fn the_write_of_a_load_fails(rt: HostRuntime) -> Result<(), Fail> {
    for (write, wanted, text) in [
        (1, 2, ""),
        (2, 0, "load 0 1 queued 1 good 1 bytes 1024 open 0\n"),
    ] {
        let (code, written) = loaded(rt.alloc(), write)?;
        assert_eq!(rt; code, wanted, "at {write}");
        assert_eq!(rt; written.as_slice(), text.as_bytes(), "at {write}");
    }
    Ok(())
}

/// Words that are none of the program's.
const UNKNOWN: [&[&str]; 6] = [
    &[],
    &["replay", "x"],
    &["load"],
    &["load", "0"],
    &["live", "0"],
    &["load", "0", "1", "2"],
];

#[test]
fn unknown_words_are_told(rt: HostRuntime) -> Result<(), Fail> {
    for words in UNKNOWN {
        let (code, line) = told(rt.alloc(), words)?;
        assert_eq!(rt; code, 5);
        assert_eq!(rt; line.as_slice(), b"tcmu_lab: words\n".as_slice());
    }
    Ok(())
}
