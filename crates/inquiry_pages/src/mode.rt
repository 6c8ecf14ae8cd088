//! MODE SENSE(6) data: the header, and the caching and control pages.
ghost use Rattle.std.specs.Prelude.{◌≡◌, ◌≤◌, ◌+◌, ◌++◌, [], ◌∷◌, length, IsTrue, IfOk, if◌then◌else◌};
ghost use Rattle.scsi_model.specs.Pages.{mode_sense, mode_pages};
ghost use Rattle.scsi_model.specs.Decoding.{is_mode_page};

use scsi_model::pages;
use std::alloc::Global;
use tcmu_types::{Bytes, NoMemory};

/// The Caching mode page (SBC-3), its code and its length before zeros.
const CACHING_PAGE: [u8; 20] = [
    pages::CACHING,
    0x12,
    0,
    0,
    0,
    0,
    0,
    0,
    0,
    0,
    0,
    0,
    0,
    0,
    0,
    0,
    0,
    0,
    0,
    0,
];

/// The Control mode page (SPC-4), its code and its length before zeros.
const CONTROL_PAGE: [u8; 12] = [pages::CONTROL, 0x0a, 0, 0, 0, 0, 0, 0, 0, 0, 0, 0];

/// The mode parameter header (SPC-4), and these pages behind it.
fn with_header(
    alloc: Global,
    protected: bool,
    first: &[u8],
    second: &[u8],
) -> Result<Bytes, NoMemory>
    requires { length first.now + length second.now ≤ 32 }
    ensures { IfOk result (λ bytes. bytes.items ≡ ((3 + length (first.now ++ second.now)) ∷ 0x00 ∷ (if protected then 0x80 else 0x00) ∷ 0x00 ∷ []) ++ (first.now ++ second.now)) }
{
    let follow = 3 + (first.len() + second.len()) as u8;
    let write_protected = if protected { 0x80 } else { 0x00 };
    let mut bytes = Vec::from_slice(alloc, &[follow, 0x00, write_protected, 0x00])?;
    bytes.extend_from_slice(first)?;
    bytes.extend_from_slice(second)?;
    Ok(Bytes::from_vec(bytes))
}

/// MODE SENSE(6) data (SPC-4) of the Caching (08h, SBC-3) or the Control mode page (0Ah, SPC-4), or of both (3Fh), with WP where the
/// medium is protected.
#[tactic(auto, unfolding(scsi_model::specs::Pages::mode_sense))]
pub fn mode_sense(alloc: Global, page: u8, protected: bool) -> Result<Bytes, NoMemory>
    requires { IsTrue (is_mode_page page) }
    ensures { IfOk result (λ bytes. bytes.items ≡ mode_sense page protected) }
{
    match page {
        pages::CACHING => with_header(alloc, protected, &CACHING_PAGE, &[]),
        pages::CONTROL => with_header(alloc, protected, &CONTROL_PAGE, &[]),
        _ => with_header(alloc, protected, &CACHING_PAGE, &CONTROL_PAGE),
    }
}
