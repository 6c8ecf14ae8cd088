//! The words of the program: which of its tasks they ask for.
ghost use Rattle.std.specs.Prelude.{◌≡◌, ◌-◌, ◌^◌, IfSome};
ghost use Rattle.std.specs.List.{list_all};
ghost use Rattle.tcmu_types.specs.Data.{texts_of};
ghost use Rattle.tcmu_types.specs.Decimals.{is_digit, is_number, number_of};
ghost use Rattle.tcmu_top.specs.Words.{task_of, replay_of, load_of, IsTask};

use device_config::fields::number_of;
use tcmu_types::Words;

/// The most commands of a load.
const MOST_COMMANDS: u64 = 10_000;

/// What the words ask for.
#[derive(Clone, Copy, Debug, PartialEq, Eq)]
pub enum Task {
    /// The replay of the scenario that the source has.
    Replay,
    /// The load of a seed, of so many commands.
    Load { seed: u64, count: u32 },
}

/// The replay that a word asks for.
#[tactic(auto, unfolding(crate::specs::Words::replay_of))]
fn replay_of(word: &[u8]) -> Option<Task>
    ensures value { result ≡ replay_of word.now }
    ensures limits { IfSome result IsTask }
{
    if word == b"replay".as_slice() {
        Some(Task::Replay)
    } else {
        None
    }
}

/// The load that three words ask for.
#[tactic(auto, unfolding(crate::specs::Words::load_of))]
fn load_of(word: &[u8], seed: &[u8], count: &[u8]) -> Option<Task>
    ensures value { result ≡ load_of word.now seed.now count.now }
    ensures limits { IfSome result IsTask }
{
    if word != b"load".as_slice() {
        return None;
    }
    let seed = number_of(0, u64::MAX, seed)?;
    let count = number_of(0, MOST_COMMANDS, count)?;
    Some(Task::Load {
        seed,
        count: count as u32,
    })
}

/// The task that the words ask for; None exactly where they are none that the program knows.
pub fn task_of(words: &Words) -> Option<Task>
    ensures value { result ≡ task_of (texts_of words.now.items) }
    ensures limits { IfSome result IsTask }
{
    match words.as_slice() {
        [word] => replay_of(word.as_slice()),
        [word, seed, count] => load_of(word.as_slice(), seed.as_slice(), count.as_slice()),
        _ => None,
    }
}
