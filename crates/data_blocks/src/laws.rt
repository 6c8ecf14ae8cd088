//! The search for the least free number, equal to its plain definition, and what the least free numbers are.
ghost use Rattle.std.specs.Prelude.{◌≡◌, ◌≢◌, ℕ, ◌*◌, ◌<◌, ◌≤◌, ◌==◌, true, false, List, length, slice_index, take};
ghost use Rattle.std.specs.List.{list_all};
ghost use Rattle.tcmu_types.specs.Numbers.{IsRising, is_among};
ghost use Rattle.tcmu_model.specs.BlockLists.{least_free};
ghost use Rattle.data_blocks.specs.Bitmap.{first_clear};

use std::simd::prelude::*;

/// How many words are searched at a time: the lanes of `u64x8`.
const LANES: usize = 8;

/// Whether the first eight words are all ones.
fn full_group(words: &[u64]) -> bool
    requires { 8 ≤ length words.now }
    ensures { result ≡ list_all (λ word. word == 18446744073709551615) (take 8 words.now) }
{
    u64x8::from_slice(words).reduce_and() == u64::MAX
}

/// How many words stand in front in groups of eight that are all ones.
fn full_front(words: &[u64]) -> usize
    ensures within { result ≤ length words.now }
    ensures full { (k : ℕ) → k < result → slice_index words.now k ≡ 18446744073709551615 }
{
    let mut at = 0;
    while LANES <= words.len() - at && full_group(&words[at..]) {
        at += LANES;
    }
    at
}

/// The place of the first word that is not all ones, or how many words there are.
fn first_not_full(words: &[u64]) -> usize
    ensures within { result ≤ length words.now }
    ensures full { (k : ℕ) → k < result → slice_index words.now k ≡ 18446744073709551615 }
    ensures not_full { result < length words.now → slice_index words.now result ≢ 18446744073709551615 }
{
    let mut at = full_front(words);
    while at < words.len() && words[at] == u64::MAX {
        at += 1;
    }
    at
}

/// The least number below the limit whose bit is clear: the number `n` is bit `n % 64` of word `n / 64`.
pub fn first_free(words: &[u64], limit: u32) -> Option<u32>
    requires { limit ≤ 64 * length words.now }
    ensures { result ≡ first_clear words.now limit }
{
    let count = limit.div_ceil(64) as usize;
    let word = first_not_full(&words[..count]);
    if word == count {
        return None;
    }
    let number = 64 * word as u32 + words[word].trailing_ones();
    if number < limit { Some(number) } else { None }
}

/// What `take` gives, in plain words: the least free numbers rise, each is free and below the limit, and no free number below one
/// of them is left out.
pub fn least_free_law()
    ensures rising { (limit : ℕ) (held : List ℕ) (n : ℕ) → IsRising (least_free limit held n) }
    ensures free { (limit : ℕ) (held : List ℕ) (n m : ℕ) → is_among (least_free limit held n) m ≡ true → (m < limit) × (is_among held m ≡ false) }
    ensures least { (limit : ℕ) (held : List ℕ) (n m k : ℕ) → is_among (least_free limit held n) m ≡ true → k < m → is_among held k ≡ false →
        is_among (least_free limit held n) k ≡ true }
{}
