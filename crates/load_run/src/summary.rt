//! What a load's replay comes to, and the line that tells it.
ghost use Rattle.std.specs.Prelude.{◌≡◌, ◌≤◌, ◌<◌, ◌-◌, ◌^◌, ◌++◌, length, IfOk, OnOk, codes};
ghost use Rattle.std.specs.List.{count_by, sum_by};
ghost use Rattle.std.specs.Fmt.{decimal};
ghost use Rattle.tcmu_model.specs.Sound.{IsSound, open_count};
ghost use Rattle.text_model.specs.Load.{LoadNumbers, summary_text};
ghost use Rattle.load_run.specs.Tallies.{is_good, good_bytes, numbers_in};

use std::alloc::Global;
use std::marker::Model;
use tcmu_path::{Path, open_count};
use tcmu_types::{Done, NoMemory, ScsiStatus};

/// The accepted commands, the completions that are GOOD, the bytes that those moved, and the commands without a completion.
#[derive(Clone, Copy, Debug, PartialEq, Eq)]
pub struct Numbers {
    /// As many as there are serials.
    pub queued: u64,
    /// Completions with GOOD (SAM-5, 5.3).
    pub good: u64,
    /// Of reads the bytes answered, of writes those sent; GOOD ones alone.
    pub bytes: u128,
    /// Accepted commands that have no completion yet (`open` in the line).
    pub unanswered: u64,
}

impl Model for Numbers {
    ghost use Rattle.text_model.specs.Load.{LoadNumbers};

    ghost Value = { LoadNumbers };

    ghost view = { λ a. record { queued = a.queued; good = a.good; bytes = a.bytes; unanswered = a.unanswered } };

    ghost inverse = { λ n. record { queued = n.queued; good = n.good; bytes = n.bytes; unanswered = n.unanswered } };
}

/// Whether a completion is GOOD (SAM-5, 5.3).
fn is_good(done: &Done) -> bool
    ensures { result ≡ is_good done.now }
{
    done.status == ScsiStatus::GOOD
}

/// The bytes that a completion moved, if it is GOOD.
fn good_bytes(sizes: &[Option<u32>], done: &Done) -> u64
    ensures { result ≡ good_bytes sizes.now done.now }
{
    if !is_good(done) {
        return 0;
    }
    match sizes.get(done.serial as usize) {
        Some(Some(size)) => u64::from(*size),
        _ => done.payload.len() as u64,
    }
}

/// How many completions are GOOD.
fn count_good(log: &[Done]) -> usize
    ensures { result ≡ count_by is_good log.now }
{
    log.iter().filter(|done| is_good(done)).count()
}

/// The bytes that the completions moved that are GOOD.
fn sum_bytes(sizes: &[Option<u32>], log: &[Done]) -> u128
    ensures { result ≡ sum_by (good_bytes sizes.now) log.now }
{
    let mut bytes = 0;
    for done in log {
        bytes += u128::from(good_bytes(sizes, done));
    }
    bytes
}

/// What a replay comes to that left this device. `sizes` has a place for each serial of an accepted command, from 1 on, with how many bytes
/// it sent where its operation code takes some; place 0 belongs to no command.
pub fn numbers_of<P: Path>(path: &P, sizes: &[Option<u32>]) -> Numbers
    requires sound { IsSound (P.device path.now).state }
    requires few { (P.device path.now).state.accepted < 2 ^ 63 }
    requires some { 1 ≤ length sizes.now }
    ensures { result ≡ numbers_in sizes.now (P.device path.now).state }
{
    let log = path.log();
    Numbers {
        queued: sizes.len() as u64 - 1,
        good: count_good(log) as u64,
        bytes: sum_bytes(sizes, log),
        unanswered: open_count(path),
    }
}

/// Appends a word and a number.
fn push_number(text: &mut Vec<u8>, word: &[u8], n: u128) -> Result<(), NoMemory>
    ensures { OnOk result (text.new.items ≡ (text.old.items ++ word.now) ++ decimal n) }
{
    let mut digits = itoa::Buffer::new();
    text.extend_from_slice(word)?;
    text.extend_from_slice(digits.format(n).as_bytes())?;
    Ok(())
}

/// Appends the numbers.
fn push_numbers(text: &mut Vec<u8>, numbers: &Numbers) -> Result<(), NoMemory>
    ensures { OnOk result (text.new.items ≡ text.old.items ++ codes " queued " ++ decimal numbers.now.queued ++ codes " good " ++ decimal numbers.now.good ++ codes " bytes " ++ decimal numbers.now.bytes ++ codes " open " ++ decimal numbers.now.unanswered) }
{
    push_number(text, b" queued ", u128::from(numbers.queued))?;
    push_number(text, b" good ", u128::from(numbers.good))?;
    push_number(text, b" bytes ", numbers.bytes)?;
    push_number(text, b" open ", u128::from(numbers.unanswered))
}

/// The line of a load, with its line feed.
#[tactic(auto, unfolding(text_model::specs::Load::summary_text))]
pub fn summary(alloc: Global, seed: u64, count: u32, numbers: &Numbers) -> Result<Vec<u8>, NoMemory>
    ensures { IfOk result (λ text. text.items ≡ summary_text seed count numbers.now) }
{
    let mut text = Vec::new(alloc);
    push_number(&mut text, b"load ", u128::from(seed))?;
    push_number(&mut text, b" ", u128::from(count))?;
    push_numbers(&mut text, numbers)?;
    text.push(b'\n')?;
    Ok(text)
}
