//! The program that bench/run measures the user side with: it lays commands of one block each into a ring as the target does, takes all of
//! them as jobs, and answers them. Its words: how many; `ooo` or `order`, the mailbox's flag; and `oldest` or `youngest`, the job that is
//! answered first, or `none` where it takes none.
#![tactic(auto)]

mod bench;

use bench::Bench;
use std::alloc::Global;
use std::{env, io};

/// Which job is answered first.
#[derive(Clone, Copy)]
enum First {
    Oldest,
    Youngest,
    /// No job is taken.
    None,
}

/// What the words ask for.
#[derive(Clone, Copy)]
struct Asked {
    count: u16,
    any_order: bool,
    first: First,
}

/// None where a word is wanting or unknown.
fn words_of(rt: &HostRuntime) -> Option<Asked> {
    let mut words = env::args(rt).ok()?.skip(1);
    let count = words.next()?.parse::<u16>().ok()?;
    let any_order = match words.next()?.as_str() {
        "ooo" => true,
        "order" => false,
        _ => return None,
    };
    let first = match words.next()?.as_str() {
        "oldest" => First::Oldest,
        "youngest" => First::Youngest,
        "none" => First::None,
        _ => return None,
    };
    Some(Asked {
        count,
        any_order,
        first,
    })
}

/// Answers all jobs that are out; how many.
fn answer_all(alloc: Global, bench: &mut Bench, first: First, count: u16) -> u16 {
    for answered in 0..count {
        let is_answered = match first {
            First::Oldest => bench.answer_oldest(alloc),
            First::Youngest => bench.answer_youngest(alloc),
            First::None => false,
        };
        if !is_answered {
            return answered;
        }
    }
    count
}

/// How many jobs were answered; None where memory was wanting.
fn run(alloc: Global, asked: Asked) -> Option<u16> {
    let mut bench = Bench::new(alloc, asked.count, asked.any_order)?;
    if matches!(asked.first, First::None) {
        return Some(0);
    }
    for _ in 0..asked.count {
        if !bench.take(alloc) {
            break;
        }
    }
    Some(answer_all(alloc, &mut bench, asked.first, asked.count))
}

fn main(rt: HostRuntime) -> io::Result<()> {
    match words_of(&rt) {
        None => println!(rt; "usage: user_bench COUNT ooo|order oldest|youngest|none")?,
        Some(asked) => match run(rt.alloc(), asked) {
            None => println!(rt; "no memory")?,
            Some(answered) => println!(rt; "{answered} answered")?,
        },
    }
    Ok(())
}
