//! The numbers behind a seed, and what each of them asks for.
ghost use Rattle.std.specs.Prelude.{◌≡◌, ◌≤◌};
ghost use Rattle.text_model.specs.Load.{next_random, load_count, load_lba, load_fill, load_writes};

/// The next of the 64-bit pseudo-random numbers of a load: a linear congruential generator (Knuth's MMIX) modulo 2^64.
#[tactic(auto, using(crate::proofs::Remainders::one_remainder), unfolding(text_model::specs::Load::next_random))]
pub fn next_random(x: u64) -> u64
    ensures { result ≡ next_random x }
{
    x.wrapping_mul(6_364_136_223_846_793_005)
        .wrapping_add(1_442_695_040_888_963_407)
}

/// How many logical blocks a number asks for, from 1 to 8.
#[tactic(auto, unfolding(text_model::specs::Load::load_count))]
pub fn load_count(x: u64) -> u16
    ensures value { result ≡ load_count x }
    ensures least { 1 ≤ result }
    ensures most { result ≤ 8 }
{
    1 + ((x >> 60) % 8) as u16
}

/// The first logical block that a number asks for; the others follow it.
#[tactic(auto, unfolding(text_model::specs::Load::load_lba))]
pub fn load_lba(x: u64) -> u32
    ensures { result ≡ load_lba x }
{
    ((x >> 33) % 4089) as u32
}

/// The byte that fills the blocks where a number asks for a write.
#[tactic(auto, unfolding(text_model::specs::Load::load_fill))]
pub fn load_fill(x: u64) -> u8
    ensures { result ≡ load_fill x }
{
    ((x >> 40) % 256) as u8
}

/// Whether a number asks for a write, WRITE(10); else it asks for a read, READ(10).
#[tactic(auto, unfolding(text_model::specs::Load::load_writes))]
pub fn load_writes(x: u64) -> bool
    ensures { result ≡ load_writes x }
{
    (x >> 32) % 2 == 0
}
