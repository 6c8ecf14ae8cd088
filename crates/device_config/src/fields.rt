//! Fields of config texts and of scenario lines: numbers, names, digits, runs, flags and lists.
ghost use Rattle.std.specs.Prelude.{◌≡◌, ◌+◌, ◌*◌, ◌^◌, ◌<◌, ◌≤◌, ◌==◌, [], ◌∷◌, ◌++◌, length, true, IfOk, IfSome, IfNone, Some, None, bytes_eq, replicate, if◌then◌else◌};
ghost use Rattle.std.specs.List.{list_all, position};
ghost use Rattle.std.specs.Option.{option_map};
ghost use Rattle.tcmu_types.specs.declared.settings.Flags.{Flags};
ghost use Rattle.tcmu_types.specs.Reading.{each};
ghost use Rattle.text_model.specs.Fields.{name_of, cdb_of, run_of, runs_of, with_flag, with_flags, no_flags, flags_of, serials_of};
ghost use Rattle.tcmu_types.specs.Hex.{hex_value, hex_pair, bytes_of_hex};
ghost use Rattle.tcmu_types.specs.Decimals.{is_digit, is_number, number_of, is_rising, rising_of};
ghost use Rattle.tcmu_types.specs.Fields.{cut_at, pieces, after_word};

use std::alloc::Global;
use tcmu_types::{Bytes, Cdb, Flags, MOST_PAYLOAD, Name, NoMemory, Serials};

/// No flag set.
const NO_FLAGS: Flags = Flags {
    ooo: false,
    read_len: false,
    tmr: false,
};

/// The place of the first such byte.
fn place_of(bytes: &[u8], at: u8) -> Option<usize>
    ensures { result ≡ position (λ b. b == at) bytes.now }
{
    bytes.iter().position(|b| *b == at)
}

/// What stands before and behind the first such byte; None where there is none.
#[tactic(auto, unfolding(tcmu_types::specs::Fields::cut_at))]
pub fn cut(bytes: &[u8], at: u8) -> Option<(&[u8], &[u8])>
    ensures value { option_map (λ p. (p.0.now, p.1.now)) result ≡ cut_at at bytes.now }
    ensures found { IfSome result (λ p. pieces at bytes.now ≡ p.0.now ∷ pieces at p.1.now) }
    ensures shorter { IfSome result (λ p. length p.0.now + length p.1.now + 1 ≡ length bytes.now) }
    ensures none { IfNone result (pieces at bytes.now ≡ bytes.now ∷ []) }
{
    let i = place_of(bytes, at)?;
    Some((&bytes[..i], &bytes[i + 1..]))
}

/// Whether a text is this word, in lower and upper case as it stands.
pub fn is_text(text: &[u8], wanted: &[u8]) -> bool
    ensures { result ≡ bytes_eq text.now wanted.now }
{
    text == wanted
}

/// What follows a word at the front of a text; None where the text does not begin with it.
pub fn after_word<'a>(word: &[u8], text: &'a [u8]) -> Option<&'a [u8]>
    ensures { option_map (λ x. x.now) result ≡ after_word word.now text.now }
{
    text.strip_prefix(word)
}

/// The name that a text is; None where it breaks the rule of names.
pub fn name_of(text: &[u8]) -> Option<Name>
    ensures { result ≡ name_of text.now }
{
    Name::from_bytes(text)
}

fn is_digit(b: u8) -> bool
    ensures { result ≡ is_digit b }
{
    b.is_ascii_digit()
}

fn all_digits(text: &[u8]) -> bool
    ensures { result ≡ list_all is_digit text.now }
{
    text.iter().all(|b| is_digit(*b))
}

fn is_number(text: &[u8]) -> bool
    ensures { result ≡ is_number text.now }
{
    !text.is_empty() && all_digits(text) && (text.len() == 1 || text[0] != b'0')
}

/// The number from `low` to `high` that decimal digits spell without a zero in front; None where the text is none.
pub fn number_of(low: u64, high: u64, text: &[u8]) -> Option<u64>
    ensures value { result ≡ number_of low high text.now }
    ensures least { IfSome result (λ n. low ≤ n) }
    ensures most { IfSome result (λ n. n ≤ high) }
{
    if !is_number(text) {
        return None;
    }
    let most = high as u128;
    let mut n: u128 = 0;
    for b in text {
        n = 10 * n + (*b - b'0') as u128;
        if most < n {
            return None;
        }
    }
    let n = n as u64;
    if n < low {
        return None;
    }
    Some(n)
}

/// Numbers from 1 to `high`, with such a byte between them; None where the text is none.
fn numbers_of(alloc: Global, at: u8, high: u64, text: &[u8]) -> Result<Option<Vec<u64>>, NoMemory>
    requires { high < 2 ^ 60 }
    ensures { IfOk result (λ o. option_map (λ v. v.items) o ≡ each (number_of 1 high) (pieces at text.now)) }
{
    let mut numbers = Vec::new(alloc);
    let mut rest = text;
    while let Some((first, after)) = cut(rest, at) {
        let Some(n) = number_of(1, high, first) else {
            return Ok(None);
        };
        numbers.push(n)?;
        rest = after;
    }
    let Some(n) = number_of(1, high, rest) else {
        return Ok(None);
    };
    numbers.push(n)?;
    Ok(Some(numbers))
}

/// Whether each number is above the one before it.
fn is_rising(numbers: &[u64]) -> bool
    ensures { result ≡ is_rising numbers.now }
{
    numbers.is_sorted_by(|before, next| *before < *next)
}

/// 1 to 64 rising numbers from 1 to `high`, with such a byte between them; None where the text is none.
#[tactic(auto, unfolding(tcmu_types::specs::Decimals::rising_of))]
pub fn rising_of(alloc: Global, at: u8, high: u64, text: &[u8]) -> Result<Option<Serials>, NoMemory>
    requires { high < 2 ^ 60 }
    ensures { IfOk result (λ o. option_map (λ s. s.items) o ≡ rising_of at high text.now) }
{
    match numbers_of(alloc, at, high, text)? {
        Some(numbers) if is_rising(&numbers) && numbers.len() <= 64 => {
            Ok(Some(Serials::from_vec(numbers)))
        }
        _ => Ok(None),
    }
}

/// The value of a hexadecimal digit, in lower case alone.
fn hex_value(b: u8) -> Option<u8>
    ensures value { result ≡ hex_value b }
    ensures small { IfSome result (λ x. x < 16) }
{
    if is_digit(b) {
        return Some(b - b'0');
    }
    if b'a' <= b && b <= b'f' {
        return Some(b - b'a' + 10);
    }
    None
}

/// The byte that two hexadecimal digits spell, the high one first.
fn hex_pair(high: u8, low: u8) -> Option<u8>
    ensures { result ≡ hex_pair high low }
{
    Some(16 * hex_value(high)? + hex_value(low)?)
}

/// The bytes that pairs of hexadecimal digits spell; None where the text is none.
fn bytes_of_hex(alloc: Global, text: &[u8]) -> Result<Option<Vec<u8>>, NoMemory>
    ensures { IfOk result (λ o. option_map (λ v. v.items) o ≡ bytes_of_hex text.now) }
{
    let mut bytes = Vec::new(alloc);
    let mut rest = text;
    while 2 <= rest.len() {
        let Some(x) = hex_pair(rest[0], rest[1]) else {
            return Ok(None);
        };
        bytes.push(x)?;
        rest = &rest[2..];
    }
    if rest.len() == 1 {
        return Ok(None);
    }
    Ok(Some(bytes))
}

/// The command descriptor block that pairs of lower-case hexadecimal digits spell; None where they spell no bytes, or not as many as
/// the group of its operation code has.
#[tactic(auto, unfolding(text_model::specs::Fields::cdb_of))]
pub fn cdb_of(alloc: Global, text: &[u8]) -> Result<Option<Cdb>, NoMemory>
    ensures { IfOk result (λ o. o ≡ cdb_of text.now) }
{
    let Some(bytes) = bytes_of_hex(alloc, text)? else {
        return Ok(None);
    };
    Ok(Cdb::new(&bytes).ok())
}

/// The byte of a run, and how often it stands there.
fn run_parts(text: &[u8]) -> Option<(u8, u64)>
    ensures run { option_map (λ p. replicate p.1 p.0) result ≡ run_of text.now }
    ensures most { IfSome result (λ p. p.1 ≤ 1048576) }
{
    if text.len() < 3 || text[2] != b'*' {
        return None;
    }
    let x = hex_pair(text[0], text[1])?;
    let n = number_of(1, MOST_PAYLOAD as u64, &text[3..])?;
    Some((x, n))
}

/// Appends a run, and answers whether it is one.
fn push_run(out: &mut Vec<u8>, text: &[u8]) -> Result<bool, NoMemory>
    requires { length out.old.items ≤ 1048576 }
    ensures run { IfOk result (λ b. (if b then Some out.new.items else None) ≡ option_map (λ r. out.old.items ++ r) (run_of text.now)) }
{
    let Some((x, n)) = run_parts(text) else {
        return Ok(false);
    };
    out.resize(out.len() + n as usize, x)?;
    Ok(true)
}

/// The bytes of runs joined by commas, at most 1,048,576; None where the text is none.
pub fn runs_of(alloc: Global, text: &[u8]) -> Result<Option<Bytes>, NoMemory>
    ensures value { IfOk result (λ o. option_map (λ b. b.items) o ≡ runs_of text.now) }
    ensures most { IfOk result (λ o. IfSome o (λ b. length b.items ≤ 1048576)) }
{
    let mut bytes = Vec::new(alloc);
    let mut rest = text;
    while let Some((first, after)) = cut(rest, b',') {
        if !push_run(&mut bytes, first)? {
            return Ok(None);
        }
        if bytes.len() > MOST_PAYLOAD as usize {
            return Ok(None);
        }
        rest = after;
    }
    if !push_run(&mut bytes, rest)? {
        return Ok(None);
    }
    if bytes.len() > MOST_PAYLOAD as usize {
        return Ok(None);
    }
    Ok(Some(Bytes::from_vec(bytes)))
}

/// With the flag of this word, which was not set; None where it was, or where the word is none.
fn with_flag(flags: Flags, word: &[u8]) -> Option<Flags>
    ensures { result ≡ with_flag flags word.now }
{
    match word {
        w if is_text(w, b"ooo") && !flags.ooo => Some(Flags { ooo: true, ..flags }),
        w if is_text(w, b"len") && !flags.read_len => Some(Flags {
            read_len: true,
            ..flags
        }),
        w if is_text(w, b"tmr") && !flags.tmr => Some(Flags { tmr: true, ..flags }),
        _ => None,
    }
}

/// The flags of words with commas between them, each once; None where the text is none.
fn with_flags(text: &[u8]) -> Option<Flags>
    ensures { result ≡ with_flags no_flags (pieces 44 text.now) }
{
    let mut flags = NO_FLAGS;
    let mut rest = text;
    while let Some((first, after)) = cut(rest, b',') {
        flags = with_flag(flags, first)?;
        rest = after;
    }
    with_flag(flags, rest)
}

/// `none`, or the flags' words with commas between them, each once; None where the text is none.
#[tactic(auto, unfolding(text_model::specs::Fields::flags_of))]
pub fn flags_of(text: &[u8]) -> Option<Flags>
    ensures { result ≡ flags_of text.now }
{
    if is_text(text, b"none") {
        return Some(NO_FLAGS);
    }
    with_flags(text)
}

/// `none`, or rising serials with commas between them; None where the text is none.
#[tactic(auto, unfolding(text_model::specs::Fields::serials_of))]
pub fn serials_of(alloc: Global, text: &[u8]) -> Result<Option<Serials>, NoMemory>
    ensures { IfOk result (λ o. option_map (λ s. s.items) o ≡ serials_of text.now) }
{
    if is_text(text, b"none") {
        return Ok(Some(Serials::new(alloc)));
    }
    rising_of(alloc, b',', 1_000_000_000, text)
}
