//! The program: its words ask for a replay (a scenario from standard input, its journal to standard output) or for a load (one line). A
//! fault line goes to standard error, and the status is the exit status. Files are opened as named, from the current folder.
#![tactic(auto)]

use edge::{HostFiles, StdSink, StdSource};
use std::fs::File;
use std::process::ExitCode;
use std::{env, io};
use tcmu_top::{Status, tcmu_top};
use tcmu_types::{Bytes, NoMemory, Words};

/// The words after the program's name. Words that are no text are none that the program knows: then there is no word.
fn words_of(rt: &HostRuntime) -> Result<Words, NoMemory> {
    let alloc = rt.alloc();
    let mut words = Words::new(alloc);
    let args = match env::args(rt) {
        Ok(args) => args,
        Err(e) if e.kind() == io::ErrorKind::OutOfMemory => return Err(NoMemory),
        Err(_) => return Ok(words),
    };
    for arg in args.skip(1) {
        let word = Bytes::from_slice(alloc, arg.as_bytes())?;
        words.reserve(1)?;
        words.push(word);
    }
    Ok(words)
}

/// A folder, held open three times. Where a standard stream is closed it takes that stream's place, so that no file of a device comes to
/// stand there, and since a folder can be neither read nor written, each call of the stream fails as it did.
fn hold_places(rt: &HostRuntime) -> [io::Result<File>; 3] {
    [
        File::open(rt, "/"),
        File::open(rt, "/"),
        File::open(rt, "/"),
    ]
}

fn run(rt: &HostRuntime, words: &Words) -> Status {
    let Ok(host) = rt.clone() else {
        return Status::NoMemory;
    };
    let mut src = StdSource::new(rt.stdin());
    let mut out = StdSink::new(rt.stdout());
    let mut err = StdSink::new(rt.stderr());
    let mut files = HostFiles::new(host);
    tcmu_top(rt.alloc(), words, &mut src, &mut out, &mut err, &mut files)
}

fn main(rt: HostRuntime) -> ExitCode {
    let _held = hold_places(&rt);
    let status = match words_of(&rt) {
        Ok(words) => run(&rt, &words),
        Err(NoMemory) => Status::NoMemory,
    };
    ExitCode::from(status.code())
}
