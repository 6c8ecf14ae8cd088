//! The program that bench/run measures the target with: it submits commands of one block each, answers each as the user side does, and
//! cleans it. Its words: how many, and `read` or `write`.
#![tactic(auto)]

mod bench;

use bench::{Bench, read, write};
use std::{env, io};
use tcmu_types::Command;

/// What the words ask for.
#[derive(Clone, Copy)]
struct Asked {
    count: u32,
    writes: bool,
}

/// None where a word is wanting or unknown.
fn read_words(rt: &HostRuntime) -> Option<Asked> {
    let mut words = env::args(rt).ok()?.skip(1);
    let count = words.next()?.parse::<u32>().ok()?;
    let writes = match words.next()?.as_str() {
        "read" => false,
        "write" => true,
        _ => return None,
    };
    Some(Asked { count, writes })
}

/// How many of so many commands were completed.
fn complete(bench: &mut Bench, command: &Command, count: u32) -> u32 {
    for completed in 0..count {
        if !bench.complete(command) {
            return completed;
        }
    }
    count
}

/// How many commands were completed; None where memory was wanting.
fn run(rt: &HostRuntime, asked: Asked) -> Option<u32> {
    let alloc = rt.alloc();
    let command = if asked.writes {
        write(alloc)?
    } else {
        read(alloc)?
    };
    let mut bench = Bench::new(alloc).ok()?;
    Some(complete(&mut bench, &command, asked.count))
}

fn main(rt: HostRuntime) -> io::Result<()> {
    match read_words(&rt) {
        None => println!(rt; "usage: target_bench COUNT read|write")?,
        Some(asked) => match run(&rt, asked) {
            None => println!(rt; "no memory")?,
            Some(completed) => println!(rt; "{completed} completed")?,
        },
    }
    Ok(())
}
