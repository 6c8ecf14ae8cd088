//! The lines of devices, each in its one spelling.
ghost use Rattle.std.specs.Prelude.{◌≡◌, ◌==◌, [], ◌++◌, OnOk, if◌then◌else◌};
ghost use Rattle.std.specs.Fmt.{decimal};
ghost use Rattle.device_config.specs.Views.{medium_data};
ghost use Rattle.text_model.specs.Text.{medium_text, kind_text, config_text, last_text, settings_text, device_spelling, device_text};

use crate::pieces::{push_all, push_field, push_flags, push_named, push_numbers};
use device_config::{Config, MediumKind};
use scenario_text::DeviceLine;
use tcmu_types::{NoMemory, Settings};

#[tactic(auto, unfolding(text_model::specs::Text::medium_text))]
fn push_medium(out: &mut Vec<u8>, kind: &MediumKind) -> Result<(), NoMemory>
    ensures { OnOk result (out.new.items ≡ out.old.items ++ medium_text (medium_data kind.now)) }
{
    match kind {
        MediumKind::Memory(n) => push_named(out, b"mem/", *n as u64),
        MediumKind::File(name) => {
            push_all(out, b"file/")?;
            push_all(out, name.as_slice())
        }
    }
}

#[tactic(auto, unfolding(text_model::specs::Text::kind_text))]
fn push_kind(out: &mut Vec<u8>, config: &Config) -> Result<(), NoMemory>
    ensures { OnOk result (out.new.items ≡ out.old.items ++ kind_text config.now) }
{
    if config.fails.as_slice().is_empty() {
        if config.protected {
            return push_all(out, b"ro/");
        }
        return Ok(());
    }
    push_all(out, b"fail/")?;
    push_numbers(out, b'+', config.fails.as_slice())?;
    push_all(out, b"/")
}

#[tactic(auto, unfolding(text_model::specs::Text::config_text))]
fn push_config(out: &mut Vec<u8>, config: &Config) -> Result<(), NoMemory>
    ensures { OnOk result (out.new.items ≡ out.old.items ++ config_text config.now) }
{
    push_named(out, b"tcm-user/", config.hba as u64)?;
    push_all(out, b"/")?;
    push_all(out, config.name.as_bytes())?;
    push_all(out, b"/")?;
    push_kind(out, config)?;
    push_medium(out, &config.kind)
}

/// Appends a word and a number, unless the number is the usual one.
fn push_unless(out: &mut Vec<u8>, word: &[u8], usual: u32, n: u32) -> Result<(), NoMemory>
    ensures { OnOk result (out.new.items ≡ out.old.items ++ (if n == usual then [] else word.now ++ decimal n)) }
{
    if n == usual {
        return Ok(());
    }
    push_named(out, word, n as u64)
}

#[tactic(auto, unfolding(text_model::specs::Text::last_text))]
fn push_last(out: &mut Vec<u8>, settings: &Settings) -> Result<(), NoMemory>
    ensures { OnOk result (out.new.items ≡ out.old.items ++ last_text settings.now) }
{
    push_unless(out, b" qfull=", 0, settings.qfull)?;
    push_unless(out, b" pages=", 1, settings.pages)
}

#[tactic(auto, unfolding(text_model::specs::Text::settings_text))]
fn push_settings(out: &mut Vec<u8>, settings: &Settings) -> Result<(), NoMemory>
    ensures { OnOk result (out.new.items ≡ out.old.items ++ settings_text settings.now) }
{
    push_named(out, b" ring=", settings.ring as u64)?;
    push_named(out, b" blocks=", settings.blocks as u64)?;
    push_all(out, b" flags=")?;
    push_flags(out, settings.flags)?;
    push_named(out, b" timeout=", settings.timeout as u64)?;
    push_last(out, settings)
}

#[tactic(auto, unfolding(text_model::specs::Text::device_spelling))]
fn push_spelling(out: &mut Vec<u8>, device: &DeviceLine) -> Result<(), NoMemory>
    ensures { OnOk result (out.new.items ≡ out.old.items ++ device_spelling device.now) }
{
    push_all(out, b"device")?;
    push_field(out, device.name.as_bytes())?;
    push_all(out, b" ")?;
    push_config(out, &device.config)?;
    push_settings(out, &device.settings)
}

/// Appends a device's line.
#[tactic(auto, unfolding(text_model::specs::Text::device_text))]
pub fn push_device(out: &mut Vec<u8>, device: &DeviceLine) -> Result<(), NoMemory>
    ensures { OnOk result (out.new.items ≡ out.old.items ++ device_text device.now) }
{
    push_spelling(out, device)?;
    push_all(out, b" # ready")?;
    push_all(out, b"\n")
}
