//! Lines, cut into fields.
ghost use Rattle.std.specs.Prelude.{◌≡◌, ◌==◌, ◌||◌, ◌&&◌, not, ◌+◌, [], ◌∷◌, length, Some, None, IfSome, IfNone};
ghost use Rattle.std.specs.List.{list_all, position};
ghost use Rattle.std.specs.Option.{option_map};
ghost use Rattle.text_model.specs.Lines.{one_field, two_fields, three_fields, submit_fields, payload_field, payload_fields, InBytes, OutRuns, device_fields, last_field, last_fields};
ghost use Rattle.tcmu_types.specs.Fields.{is_blank, is_allowed, before_hash, fields_of};
ghost use Rattle.text_model.specs.Words.{verb_of};
ghost use Rattle.scenario_text.specs.LineViews.{payload_data, submit_data, last_data, device_data};

use device_config::fields::{after_word, is_text};
use std::marker::Model;
use text_model::Verb;

fn is_blank(b: u8) -> bool
    ensures { result ≡ is_blank b }
{
    b == 9 || b == 13 || b == 32
}

fn is_allowed(b: u8) -> bool
    ensures { result ≡ is_allowed b }
{
    is_blank(b) || 33 <= b && b <= 126
}

/// Whether each byte may stand in a line: a tab, a carriage return, a space, or 21h to 7Eh.
pub fn all_allowed(text: &[u8]) -> bool
    ensures { result ≡ list_all is_allowed text.now }
{
    text.iter().all(|b| is_allowed(*b))
}

fn first_hash(text: &[u8]) -> Option<usize>
    ensures { result ≡ position (λ b. b == 35) text.now }
{
    text.iter().position(|b| *b == 35)
}

/// The part of a line before the first `#`.
pub fn before_hash(text: &[u8]) -> &[u8]
    ensures { result.now ≡ before_hash text.now }
{
    match first_hash(text) {
        Some(i) => &text[..i],
        None => text,
    }
}

fn first_blank(text: &[u8]) -> Option<usize>
    ensures { result ≡ position is_blank text.now }
{
    text.iter().position(|b| is_blank(*b))
}

fn first_shown(text: &[u8]) -> Option<usize>
    ensures { result ≡ position (λ b. not (is_blank b)) text.now }
{
    text.iter().position(|b| !is_blank(*b))
}

/// The first field, and what stands behind it.
pub fn next_field(text: &[u8]) -> Option<(&[u8], &[u8])>
    ensures some { IfSome result (λ p. fields_of text.now ≡ p.0.now ∷ fields_of p.1.now) }
    ensures none { IfNone result (fields_of text.now ≡ []) }
{
    let Some(i) = first_shown(text) else {
        return None;
    };
    let rest = &text[i..];
    match first_blank(rest) {
        Some(n) => Some((&rest[..n], &rest[n + 1..])),
        None => Some((rest, &rest[rest.len()..])),
    }
}

/// The verb that a word is, in lower case alone.
#[tactic(auto, unfolding(text_model::specs::Words::verb_of))]
pub fn verb_of(word: &[u8]) -> Option<Verb>
    ensures { result ≡ verb_of word.now }
{
    match word {
        w if is_text(w, b"device") => Some(Verb::Device),
        w if is_text(w, b"submit") => Some(Verb::Submit),
        w if is_text(w, b"dispatch") => Some(Verb::Dispatch),
        w if is_text(w, b"handle") => Some(Verb::Handle),
        w if is_text(w, b"respond") => Some(Verb::Respond),
        w if is_text(w, b"publish") => Some(Verb::Publish),
        w if is_text(w, b"clean") => Some(Verb::Clean),
        w if is_text(w, b"enter") => Some(Verb::Enter),
        w if is_text(w, b"tick") => Some(Verb::Tick),
        w if is_text(w, b"block") => Some(Verb::Block),
        w if is_text(w, b"unblock") => Some(Verb::Unblock),
        w if is_text(w, b"reset") => Some(Verb::Reset),
        w if is_text(w, b"restart") => Some(Verb::Restart),
        w if is_text(w, b"tmr") => Some(Verb::Tmr),
        w if is_text(w, b"stat") => Some(Verb::Stat),
        w if is_text(w, b"dump") => Some(Verb::Dump),
        w if is_text(w, b"drain") => Some(Verb::Drain),
        _ => None,
    }
}

/// The only field; None where there is none or a second.
pub fn one_field(text: &[u8]) -> Option<&[u8]>
    ensures { option_map (λ x. x.now) result ≡ one_field (fields_of text.now) }
{
    let (a, rest) = next_field(text)?;
    if let Some((_more, _rest)) = next_field(rest) {
        return None;
    }
    Some(a)
}

/// Both fields; None where there are fewer or more.
pub fn two_fields(text: &[u8]) -> Option<(&[u8], &[u8])>
    ensures { option_map (λ p. (p.0.now, p.1.now)) result ≡ two_fields (fields_of text.now) }
{
    let (a, rest) = next_field(text)?;
    let (b, rest) = next_field(rest)?;
    if let Some((_more, _rest)) = next_field(rest) {
        return None;
    }
    Some((a, b))
}

/// All three fields; None where there are fewer or more.
pub fn three_fields(text: &[u8]) -> Option<(&[u8], &[u8], &[u8])>
    ensures { option_map (λ p. (p.0.now, p.1.now, p.2.now)) result ≡ three_fields (fields_of text.now) }
{
    let (a, rest) = next_field(text)?;
    let (b, rest) = next_field(rest)?;
    let (c, rest) = next_field(rest)?;
    if let Some((_more, _rest)) = next_field(rest) {
        return None;
    }
    Some((a, b, c))
}

/// What a submit line ends with.
#[derive(Clone, Copy, Drop)]
pub enum Payload<'a> {
    Nothing,
    /// The decimal digits behind `in=`: how many bytes are asked for.
    InBytes(&'a [u8]),
    /// What stands behind `out=`: runs of bytes that are sent.
    OutRuns(&'a [u8]),
}

/// The fields of a submit line.
#[derive(Clone, Copy, Drop)]
pub struct SubmitWords<'a> {
    /// The device's; not yet looked up.
    pub name: &'a [u8],
    /// The initiator's name; not yet checked.
    pub init: &'a [u8],
    /// Decimal digits, 0 to 4,294,967,295 where the line is taken.
    pub tag: &'a [u8],
    /// Lower-case hexadecimal digits, two to a byte, where the line is taken.
    pub cdb: &'a [u8],
    /// The last field, or nothing.
    pub payload: Payload<'a>,
}

fn payload_field(text: &[u8]) -> Option<Payload<'_>>
    ensures { option_map payload_data result ≡ payload_field text.now }
{
    match after_word(b"in=", text) {
        Some(n) => Some(Payload::InBytes(n)),
        None => match after_word(b"out=", text) {
            Some(runs) => Some(Payload::OutRuns(runs)),
            None => None,
        },
    }
}

fn payload_fields(text: &[u8]) -> Option<Payload<'_>>
    ensures { option_map payload_data result ≡ payload_fields (fields_of text.now) }
{
    let Some((a, rest)) = next_field(text) else {
        return Some(Payload::Nothing);
    };
    if let Some((_more, _rest)) = next_field(rest) {
        return None;
    }
    payload_field(a)
}

/// The fields of a submit line behind its verb; None where there are fewer or more, or the last is neither `in=` nor `out=`.
#[tactic(auto, unfolding(text_model::specs::Lines::submit_fields))]
pub fn submit_fields(text: &[u8]) -> Option<SubmitWords<'_>>
    ensures { option_map submit_data result ≡ submit_fields (fields_of text.now) }
{
    let (name, rest) = next_field(text)?;
    let (init, rest) = next_field(rest)?;
    let (tag, rest) = next_field(rest)?;
    let (cdb, rest) = next_field(rest)?;
    let payload = payload_fields(rest)?;
    Some(SubmitWords {
        name,
        init,
        tag,
        cdb,
        payload,
    })
}

/// The last fields of a device line, which may be absent.
#[derive(Clone, Copy, Drop)]
pub struct LastWords<'a> {
    /// What stands behind `qfull=`; None counts as 0.
    pub qfull: Option<&'a [u8]>,
    /// What stands behind `pages=`; None counts as 1.
    pub pages: Option<&'a [u8]>,
}

fn last_field(text: &[u8]) -> Option<LastWords<'_>>
    ensures { option_map last_data result ≡ last_field text.now }
{
    match after_word(b"qfull=", text) {
        Some(n) => Some(LastWords {
            qfull: Some(n),
            pages: None,
        }),
        None => match after_word(b"pages=", text) {
            Some(n) => Some(LastWords {
                qfull: None,
                pages: Some(n),
            }),
            None => None,
        },
    }
}

fn last_two<'a>(a: &'a [u8], b: &'a [u8]) -> Option<LastWords<'a>>
    ensures { option_map last_data result ≡ last_fields (a.now ∷ b.now ∷ []) }
{
    let qfull = after_word(b"qfull=", a)?;
    let pages = after_word(b"pages=", b)?;
    Some(LastWords {
        qfull: Some(qfull),
        pages: Some(pages),
    })
}

fn last_fields(text: &[u8]) -> Option<LastWords<'_>>
    ensures { option_map last_data result ≡ last_fields (fields_of text.now) }
{
    let Some((a, rest)) = next_field(text) else {
        return Some(LastWords {
            qfull: None,
            pages: None,
        });
    };
    let Some((b, rest)) = next_field(rest) else {
        return last_field(a);
    };
    if let Some((_more, _rest)) = next_field(rest) {
        return None;
    }
    last_two(a, b)
}

/// The fields of a device line.
#[derive(Clone, Copy, Drop)]
pub struct DeviceWords<'a> {
    /// A new name; not yet checked.
    pub name: &'a [u8],
    /// A config text, with slashes.
    pub config: &'a [u8],
    /// What stands behind `ring=`: bytes of the ring, in decimal digits.
    pub ring: &'a [u8],
    /// What stands behind `blocks=`: the most data blocks, in decimal digits.
    pub blocks: &'a [u8],
    /// What stands behind `flags=`: `none`, or words joined by commas.
    pub flags: &'a [u8],
    /// What stands behind `timeout=`: ticks, in decimal digits, 0 for never.
    pub timeout: &'a [u8],
    /// `qfull=` and `pages=`, if they are there.
    pub last: LastWords<'a>,
}

/// The fields of a device line behind its verb; None where there are fewer or more, or one lacks its key or stands out of order.
#[tactic(auto, unfolding(text_model::specs::Lines::device_fields))]
pub fn device_fields(text: &[u8]) -> Option<DeviceWords<'_>>
    ensures { option_map device_data result ≡ device_fields (fields_of text.now) }
{
    let (name, rest) = next_field(text)?;
    let (config, rest) = next_field(rest)?;
    let (ring, rest) = next_field(rest)?;
    let (blocks, rest) = next_field(rest)?;
    let (flags, rest) = next_field(rest)?;
    let (timeout, rest) = next_field(rest)?;
    let ring = after_word(b"ring=", ring)?;
    let blocks = after_word(b"blocks=", blocks)?;
    let flags = after_word(b"flags=", flags)?;
    let timeout = after_word(b"timeout=", timeout)?;
    let last = last_fields(rest)?;
    Some(DeviceWords {
        name,
        config,
        ring,
        blocks,
        flags,
        timeout,
        last,
    })
}
