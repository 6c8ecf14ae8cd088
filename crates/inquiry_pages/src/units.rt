//! The list of logical units.
ghost use Rattle.std.specs.Prelude.{◌≡◌, IfOk};
ghost use Rattle.scsi_model.specs.Pages.{report_luns};

use std::alloc::Global;
use tcmu_types::{Bytes, NoMemory};

/// REPORT LUNS data (SPC-4): logical unit 0, or no unit where SELECT REPORT asks for well known logical units alone.
#[tactic(auto, unfolding(scsi_model::specs::Pages::report_luns))]
pub fn report_luns(alloc: Global, select: u8) -> Result<Bytes, NoMemory>
    ensures { IfOk result (λ bytes. bytes.items ≡ report_luns select) }
{
    let bytes: &[u8] = match select {
        1 => &[0; 8],
        _ => &[0, 0, 0, 8, 0, 0, 0, 0, 0, 0, 0, 0, 0, 0, 0, 0],
    };
    Ok(Bytes::from_slice(alloc, bytes)?)
}
