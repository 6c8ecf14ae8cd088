//! Config texts, `tcm-user/<hba_num>/<device_name>/<subtype>/<path>`, read into a `Config` or their first fault.
ghost use Rattle.std.specs.Prelude.{◌≡◌, ◌==◌, Some, None, IfOk, [], ◌&&◌};
ghost use Rattle.std.specs.List.{list_all, position};
ghost use Rattle.std.specs.Option.{option_map};
ghost use Rattle.text_model.specs.Fields.{name_of};
ghost use Rattle.tcmu_types.specs.Decimals.{number_of};
ghost use Rattle.text_model.specs.Words.{subtype_of};
ghost use Rattle.text_model.specs.Config.{ConfigData, is_colon, is_shown, part, is_file_name, memory_of, file_of, medium_of, path_of, parts_of, config_of};
ghost use Rattle.text_model.specs.ScenarioRules.{IsConfig};
ghost use Rattle.text_model.specs.declared.faults.ConfigFault.TheVariants as fault;
ghost use Rattle.text_model.specs.declared.words.Subtype.{Subtype};
ghost use Rattle.device_config.specs.Giving.{Gives};
ghost use Rattle.device_config.specs.Views.{medium_data};

use crate::fields::{after_word, cut, is_text, name_of, number_of, rising_of};
use std::alloc::Global;
use std::marker::Model;
use tcmu_types::{Bytes, Name, NoMemory, Serials};
use text_model::{ConfigFault, Subtype};

/// What keeps a device's bytes: memory of so many logical blocks of 512 bytes, or the file of this name.
#[derive(Debug, Drop)]
pub enum MediumKind {
    /// Logical blocks of 512 bytes: 1 to 32,768.
    Memory(u32),
    /// The name of a file, of 1 to 200 characters, as the text has it.
    File(Bytes),
}

/// What a config text says: the number of the host bus adapter, the device's name, its medium, whether writes are refused, and which
/// calls of the medium fail, counted from 1.
#[derive(Debug, Drop)]
pub struct Config {
    /// `hba_num` of the text: 0 to 65,535.
    pub hba: u32,
    /// The text's `device_name`; in a scenario the device line has the same.
    pub name: Name,
    /// Of the path, also behind `ro/` and `fail/`.
    pub kind: MediumKind,
    /// The subtype is `ro`: commands that write are refused, and MODE SENSE shows it.
    pub protected: bool,
    /// Numbers of calls, from 1, rising: at most 64, each at most 1,000,000; empty without `fail/`.
    pub fails: Serials,
}

impl Model for Config {
    ghost use Rattle.text_model.specs.Config.{ConfigData};
    ghost use Rattle.device_config.specs.Views.{medium_data};

    ghost Value = { ConfigData };

    ghost view = { λ a. record { hba = a.hba; name = a.name; kind = medium_data a.kind; protected = a.protected; fails = a.fails.items } };
}

/// What the path of a config text says.
#[derive(Debug, Drop)]
struct MediumPath {
    kind: MediumKind,
    protected: bool,
    fails: Serials,
}

impl Model for MediumPath {
    ghost use Rattle.text_model.specs.Config.{PathData};
    ghost use Rattle.device_config.specs.Views.{medium_data};

    ghost Value = { PathData };

    ghost view = { λ a. record { kind = medium_data a.kind; protected = a.protected; fails = a.fails.items } };
}

fn first_colon(text: &[u8]) -> Option<usize>
    ensures { result ≡ position is_colon text.now }
{
    text.iter().position(|c| *c == b':')
}

#[tactic(auto, unfolding(text_model::specs::Words::subtype_of))]
fn subtype_of(text: &[u8]) -> Option<Subtype>
    ensures { result ≡ subtype_of text.now }
{
    match text {
        word if is_text(word, b"mem") => Some(Subtype::Mem),
        word if is_text(word, b"file") => Some(Subtype::File),
        word if is_text(word, b"ro") => Some(Subtype::Ro),
        word if is_text(word, b"fail") => Some(Subtype::Fail),
        _ => None,
    }
}

fn all_shown(text: &[u8]) -> bool
    ensures { result ≡ list_all is_shown text.now }
{
    text.iter().all(|c| b'!' <= *c && *c <= b'~')
}

fn is_file_name(text: &[u8]) -> bool
    ensures { result ≡ is_file_name text.now }
{
    !text.is_empty() && text.len() <= 200 && all_shown(text)
}

fn memory_of(text: &[u8]) -> Option<MediumKind>
    ensures { option_map medium_data result ≡ memory_of text.now }
{
    let blocks = number_of(1, 32_768, text)?;
    Some(MediumKind::Memory(blocks as u32))
}

fn file_of(alloc: Global, text: &[u8]) -> Result<Option<MediumKind>, NoMemory>
    ensures { IfOk result (λ o. option_map medium_data o ≡ file_of text.now) }
{
    if !is_file_name(text) {
        return Ok(None);
    }
    Ok(Some(MediumKind::File(Bytes::from_slice(alloc, text)?)))
}

/// `mem/` or `file/` and its path.
#[tactic(auto, unfolding(text_model::specs::Config::medium_of))]
fn medium_of(alloc: Global, text: &[u8]) -> Result<Option<MediumKind>, NoMemory>
    ensures { IfOk result (λ o. option_map medium_data o ≡ medium_of text.now) }
{
    if let Some(size) = after_word(b"mem/", text) {
        return Ok(memory_of(size));
    }
    match after_word(b"file/", text) {
        Some(name) => file_of(alloc, name),
        None => Ok(None),
    }
}

/// The calls that fail, and the medium whose calls they are.
#[tactic(auto, unfolding(text_model::specs::Config::path_of))]
fn failing_path(alloc: Global, text: &[u8]) -> Result<Option<MediumPath>, NoMemory>
    ensures { IfOk result (λ o. o ≡ path_of Subtype.Fail text.now) }
{
    let Some((numbers, rest)) = cut(text, b'/') else {
        return Ok(None);
    };
    let Some(fails) = rising_of(alloc, b'+', 1_000_000, numbers)? else {
        return Ok(None);
    };
    let Some(kind) = medium_of(alloc, rest)? else {
        return Ok(None);
    };
    Ok(Some(MediumPath {
        kind,
        protected: false,
        fails,
    }))
}

fn plain_path(alloc: Global, kind: Option<MediumKind>, protected: bool) -> Option<MediumPath>
    ensures { result ≡ option_map (λ m. record { kind = m; protected = protected; fails = [] }) (option_map medium_data kind) }
{
    Some(MediumPath {
        kind: kind?,
        protected,
        fails: Serials::new(alloc),
    })
}

#[tactic(auto, unfolding(text_model::specs::Config::path_of))]
fn path_of(alloc: Global, subtype: Subtype, text: &[u8]) -> Result<Option<MediumPath>, NoMemory>
    ensures { IfOk result (λ o. o ≡ path_of subtype text.now) }
{
    match subtype {
        Subtype::Mem => Ok(plain_path(alloc, memory_of(text), false)),
        Subtype::File => Ok(plain_path(alloc, file_of(alloc, text)?, false)),
        Subtype::Ro => Ok(plain_path(alloc, medium_of(alloc, text)?, true)),
        Subtype::Fail => failing_path(alloc, text),
    }
}

fn hba_part(text: &[u8]) -> Result<(u32, &[u8]), ConfigFault>
    ensures { Gives (λ x. (x.0, x.1.now)) result (part fault.Hba (number_of 0 65535) text.now) }
{
    let (front, rest) = cut(text, b'/').ok_or(ConfigFault::Hba)?;
    let hba = number_of(0, 65_535, front).ok_or(ConfigFault::Hba)?;
    Ok((hba as u32, rest))
}

fn name_part(text: &[u8]) -> Result<(Name, &[u8]), ConfigFault>
    ensures { Gives (λ x. (x.0, x.1.now)) result (part fault.Name name_of text.now) }
{
    let (front, rest) = cut(text, b'/').ok_or(ConfigFault::Name)?;
    let name = name_of(front).ok_or(ConfigFault::Name)?;
    Ok((name, rest))
}

fn subtype_part(text: &[u8]) -> Result<(Subtype, &[u8]), ConfigFault>
    ensures { Gives (λ x. (x.0, x.1.now)) result (part fault.Subtype subtype_of text.now) }
{
    let (front, rest) = cut(text, b'/').ok_or(ConfigFault::Subtype)?;
    let subtype = subtype_of(front).ok_or(ConfigFault::Subtype)?;
    Ok((subtype, rest))
}

#[tactic(auto, unfolding(text_model::specs::Config::parts_of))]
fn parts_of(alloc: Global, text: &[u8]) -> Result<Config, ConfigFault>
    ensures { Gives (λ x. x) result (parts_of text.now) }
{
    let rest = after_word(b"tcm-user/", text).ok_or(ConfigFault::Prefix)?;
    let (hba, rest) = hba_part(rest)?;
    let (name, rest) = name_part(rest)?;
    let (subtype, rest) = subtype_part(rest)?;
    let MediumPath {
        kind,
        protected,
        fails,
    } = path_of(alloc, subtype, rest)?.ok_or(ConfigFault::Path)?;
    Ok(Config {
        hba,
        name,
        kind,
        protected,
        fails,
    })
}

/// As `parse_config`, of bytes that may be no text.
#[tactic(auto, unfolding(text_model::specs::Config::config_of))]
pub fn config_of_bytes(alloc: Global, text: &[u8]) -> Result<Config, ConfigFault>
    ensures reading { Gives (λ config. config) result (config_of text.now) }
    ensures limits { IfOk result IsConfig }
{
    if let Some(at) = first_colon(text) {
        return Err(ConfigFault::Colon(at as u64));
    }
    parts_of(alloc, text)
}

/// What a config text says, or its first fault, where a part up to its `/` comes before the parts behind it. `NoMemory` may come in
/// place of what the text gives.
pub fn parse_config(alloc: Global, text: &str) -> Result<Config, ConfigFault>
    ensures reading { Gives (λ config. config) result (config_of text.now) }
    ensures limits { IfOk result IsConfig }
{
    config_of_bytes(alloc, text.as_bytes())
}
