//! Laws of this crate's definitions.
ghost use Rattle.std.specs.Prelude.{◌≡◌, ◌<◌, ◌++◌, replicate};
ghost use Rattle.tcmu_types.specs.Data.{SenseData};
ghost use Rattle.tcmu_types.specs.SenseBytes.{fixed_sense, sense_in};

/// Sense data that was written into an empty sense buffer of 96 bytes is read again.
pub fn sense_law()
    ensures { (s : SenseData) → s.key < 16 → sense_in (fixed_sense s ++ replicate 78 0) ≡ s }
{}
