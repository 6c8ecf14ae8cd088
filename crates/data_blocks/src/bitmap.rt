//! Single bits of a set of numbers.
ghost use Rattle.std.specs.Prelude.{◌≡◌, ◌-◌, ◌*◌, ◌<◌, ◌≤◌, ◌==◌, ◌||◌, ◌&&◌, not, true, false, ℕ, length};
ghost use Rattle.data_blocks.specs.Bitmap.{is_set};

/// Whether the bit of a number is set: the number `n` is bit `n % 64` of word `n / 64`.
pub fn is_set(words: &[u64], number: u32) -> bool
    requires { number < 64 * length words.now }
    ensures { result ≡ is_set words.now number }
{
    (words[(number / 64) as usize] >> (number % 64)) & 1 == 1
}

/// Sets the bit of a number, and leaves all others.
pub fn set(words: &mut Vec<u64>, number: u32)
    requires { number < 64 * length words.old.items }
    ensures bits { (n : ℕ) → is_set words.new.items n ≡ ((n == number) || is_set words.old.items n) }
    ensures length { length words.new.items ≡ length words.old.items }
{
    words[(number / 64) as usize] |= 1 << (number % 64);
}

/// Clears the bit of a number, and leaves all others.
pub fn clear(words: &mut Vec<u64>, number: u32)
    requires { number < 64 * length words.old.items }
    ensures bits { (n : ℕ) → is_set words.new.items n ≡ (is_set words.old.items n && not (n == number)) }
    ensures length { length words.new.items ≡ length words.old.items }
{
    words[(number / 64) as usize] &= !(1 << (number % 64));
}

/// One more than the greatest number below `end` whose bit is set, 0 where there is none.
pub fn end_of(words: &[u64], end: u32) -> u32
    requires { end ≤ 64 * length words.now }
    ensures within { result ≤ end }
    ensures clear { (n : ℕ) → result ≤ n → n < end → is_set words.now n ≡ false }
    ensures set { 0 < result → is_set words.now (result - 1) ≡ true }
{
    let mut end = end;
    while end > 0 && !is_set(words, end - 1) {
        end -= 1;
    }
    end
}
