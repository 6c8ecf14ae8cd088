//! Worked examples of the program's calls, over a source, sinks and files in memory.
use edge::{MemFiles, MemSink, MemSource};
use std::alloc::Global;
use std::test::Fail;
use tcmu_top::{
    Status, Why, completions_law, files_law, load_law, memory_law, replay_law, run_load,
    run_replay, tcmu_top, text_law,
};
use tcmu_types::{Bytes, NoMemory, Serials, Words};

const DEVICE: &str = "device d0 tcm-user/0/d0/mem/64 ring=4096 blocks=16 flags=ooo timeout=30\n";

/// The fault of a line.
fn bad(line: u32, why: Why) -> Status {
    Status::BadScenario { line, why }
}

/// The status of a replay, and the sink that it left. The call of the source with the first number fails, and that of the sink
/// with the second.
fn replayed(
    alloc: Global,
    input: &[u8],
    read: u64,
    write: u64,
) -> Result<(Status, MemSink), NoMemory> {
    let bytes = Bytes::from_slice(alloc, input)?;
    let mut src = MemSource::new(bytes, Serials::from_slice(alloc, &[read])?);
    let mut out = MemSink::new(alloc, 16384, Serials::from_slice(alloc, &[write])?)?;
    let mut files = MemFiles::new(alloc, Serials::new(alloc));
    let status = run_replay(alloc, &mut src, &mut out, &mut files);
    Ok((status, out))
}

fn lines_in(text: &[u8]) -> u64 {
    text.iter().filter(|byte| **byte == b'\n').count() as u64
}

/// Each line is handed over by one call of the sink, whichever events the lines ask for.
#[test]
fn each_line_is_one_call_of_the_sink(rt: HostRuntime) -> Result<(), Fail> {
    let alloc = rt.alloc();
    for lines in [
        "",
        "submit d0 a 1 28000000000000000100 in=512\n",
        "submit d0 a 1 28000000000000000100 in=512\ntick d0 30\nstat d0\ndrain d0",
        "block d0\nreset d0 1\nrestart d0\ntmr d0 1 none # off\n\nenter d0\nhandle d0 1\n",
    ] {
        let input = format!(in alloc; "{DEVICE}{lines}")?;
        let (status, out) = replayed(alloc, input.as_bytes(), 0, 0)?;
        assert_eq!(rt; status, Status::Ok, "at {lines}");
        assert_eq!(rt; out.calls(), lines_in(out.written()), "at {lines}");
    }
    Ok(())
}

/// Empty input writes nothing; a failing source writes nothing, and a failing sink what was written before.
#[test]
fn a_failing_sink_leaves_the_lines_before_it(rt: HostRuntime) -> Result<(), Fail> {
    let alloc = rt.alloc();
    let ready = "device d0 tcm-user/0/d0/mem/64 ring=4096 blocks=16 flags=ooo timeout=30 # ready\n";
    let submit = "submit d0 a 1 2a000000000000000300 out=11*512,22*512,33*512";
    let queued = format!(in alloc; "{ready}{submit} # queued 1\n")?;
    let input = format!(in alloc; "{DEVICE}{submit}\ndrain d0\n")?;
    for (input, read, write, want, written) in [
        ("", 0, 0, Status::Ok, ""),
        (input.as_str(), 1, 0, Status::ReadFault, ""),
        (input.as_str(), 0, 1, Status::WriteFault, ""),
        (input.as_str(), 0, 2, Status::WriteFault, ready),
        (input.as_str(), 0, 3, Status::WriteFault, queued.as_str()),
    ] {
        let (status, out) = replayed(alloc, input.as_bytes(), read, write)?;
        assert_eq!(rt; status, want, "at {read} {write}");
        assert_eq!(rt; out.written(), written.as_bytes(), "at {read} {write}");
    }
    Ok(())
}

/// 4,194,304 bytes are read, and one more is too long.
#[test]
fn one_byte_more_than_a_scenario_has_is_too_long(rt: HostRuntime) -> Result<(), Fail> {
    let alloc = rt.alloc();
    for (length, want) in [
        (4_194_304, bad(1, Why::Verb)),
        (4_194_305, bad(0, Why::TooLong)),
    ] {
        let input = vec![in alloc; b'a'; length]?;
        let (status, _out) = replayed(alloc, &input, 0, 0)?;
        assert_eq!(rt; status, want);
    }
    Ok(())
}

/// A fault names its line and its rule, and nothing is written to the journal.
#[test]
fn a_fault_names_its_line_and_its_rule(rt: HostRuntime) -> Result<(), Fail> {
    let alloc = rt.alloc();
    for (line, why, text) in [
        ("dispatch d9", Why::Name, "tcmu_lab: line 2: name\n"),
        (
            "submit d0 a 1 28000000000000000100 in=1048577",
            Why::Number,
            "tcmu_lab: line 2: number\n",
        ),
        (
            "submit d0 a 1 2a000000000000000100 out=zz*3",
            Why::Runs,
            "tcmu_lab: line 2: runs\n",
        ),
        (
            "submit d0 a 1 2800000000",
            Why::Cdb,
            "tcmu_lab: line 2: cdb\n",
        ),
        (
            "submit d0 a 1 28000000000000000100 out=00*512",
            Why::Direction,
            "tcmu_lab: line 2: direction\n",
        ),
        ("dump d0", Why::NotYet, "tcmu_lab: line 2: notyet\n"),
    ] {
        let input = format!(in alloc; "{DEVICE}{line}\nstat d0\n")?;
        let (status, out, err) = run_words(alloc, &["replay"], input.as_bytes())?;
        assert_eq!(rt; status, bad(2, why), "at {line}");
        assert_eq!(rt; status.code(), 4);
        assert_eq!(rt; out.written(), b"".as_slice());
        assert_eq!(rt; err.written(), text.as_bytes(), "at {line}");
    }
    Ok(())
}

/// A line that is fine alone breaks a rule where it stands.
#[test]
fn lines_out_of_place_are_faults(rt: HostRuntime) -> Result<(), Fail> {
    let alloc = rt.alloc();
    for (input, line, why, text) in [
        (
            "device d0 tcm-user/0/d0/mem/64 ring=69632 blocks=16 flags=ooo timeout=30\ndump d0\n",
            2,
            Why::Dump,
            "tcmu_lab: line 2: dump\n",
        ),
        (
            "device d0 tcm-user/0/d0/mem/64 ring=4096 blocks=16 flags=ooo timeout=30\nstat d0\ndevice d1 tcm-user/0/d1/mem/64 ring=4096 blocks=16 flags=ooo timeout=30\n",
            3,
            Why::Order,
            "tcmu_lab: line 3: order\n",
        ),
        (
            "device d0 tcm-user/0/d1/mem/64 ring=4096 blocks=16 flags=ooo timeout=30",
            1,
            Why::Config,
            "tcmu_lab: line 1: config\n",
        ),
    ] {
        let (status, out, err) = run_words(alloc, &["replay"], input.as_bytes())?;
        assert_eq!(rt; status, bad(line, why), "at {input}");
        assert_eq!(rt; out.written(), b"".as_slice());
        assert_eq!(rt; err.written(), text.as_bytes(), "at {input}");
    }
    Ok(())
}

/// The status of the program's call with these words, what it wrote, and what it told.
fn run_words(
    alloc: Global,
    given: &[&str],
    input: &[u8],
) -> Result<(Status, MemSink, MemSink), NoMemory> {
    let mut words = Words::new(alloc);
    for word in given {
        let word = Bytes::from_slice(alloc, word.as_bytes())?;
        words.reserve(1)?;
        words.push(word);
    }
    let bytes = Bytes::from_slice(alloc, input)?;
    let mut src = MemSource::new(bytes, Serials::new(alloc));
    let mut out = MemSink::new(alloc, 4096, Serials::new(alloc))?;
    let mut err = MemSink::new(alloc, 64, Serials::new(alloc))?;
    let mut files = MemFiles::new(alloc, Serials::new(alloc));
    let status = tcmu_top(alloc, &words, &mut src, &mut out, &mut err, &mut files);
    Ok((status, out, err))
}

/// The words, their fault line, and the codes.
#[test]
fn the_words_decide_the_status(rt: HostRuntime) -> Result<(), Fail> {
    let alloc = rt.alloc();
    for (word, input, want, code, line) in [
        ("replay", "", Status::Ok, 0, ""),
        (
            "replay",
            "x",
            bad(1, Why::Verb),
            4,
            "tcmu_lab: line 1: verb\n",
        ),
        ("live", "", Status::BadWords, 5, "tcmu_lab: words\n"),
    ] {
        let (status, _out, err) = run_words(alloc, &[word], input.as_bytes())?;
        assert_eq!(rt; status, want);
        assert_eq!(rt; status.code(), code);
        assert_eq!(rt; err.written(), line.as_bytes());
    }
    Ok(())
}

/// A load writes one line; its seed and its count are numbers within their limits, with no zero in front.
#[test]
fn a_load_writes_one_line(rt: HostRuntime) -> Result<(), Fail> {
    let alloc = rt.alloc();
    for (seed, count, want, text) in [
        (
            "0",
            "0",
            Status::Ok,
            "load 0 0 queued 0 good 0 bytes 0 open 0\n",
        ),
        (
            "0",
            "1",
            Status::Ok,
            "load 0 1 queued 1 good 1 bytes 1024 open 0\n",
        ),
        (
            "18446744073709551615",
            "0",
            Status::Ok,
            "load 18446744073709551615 0 queued 0 good 0 bytes 0 open 0\n",
        ),
        ("18446744073709551616", "0", Status::BadWords, ""),
        ("01", "1", Status::BadWords, ""),
        ("0", "10001", Status::BadWords, ""),
    ] {
        let (status, out, _err) = run_words(alloc, &["load", seed, count], b"".as_slice())?;
        assert_eq!(rt; status, want, "at {seed} {count}");
        assert_eq!(rt; out.written(), text.as_bytes(), "at {seed} {count}");
    }
    Ok(())
}

/// A load makes one call of the sink, whether it fails or not.
#[test]
fn a_load_makes_one_call_of_the_sink(rt: HostRuntime) -> Result<(), Fail> {
    let alloc = rt.alloc();
    for (fails, want) in [(0u64, Status::Ok), (1, Status::WriteFault)] {
        let mut out = MemSink::new(alloc, 64, Serials::from_slice(alloc, &[fails])?)?;
        assert_eq!(rt; run_load(alloc, 0, 1, &mut out), want, "at {fails}");
        assert_eq!(rt; out.calls(), 1, "at {fails}");
    }
    Ok(())
}

#[test]
fn laws_hold() {
    replay_law();
    text_law();
    memory_law();
    files_law();
    completions_law();
    load_law();
}
