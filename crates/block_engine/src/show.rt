//! Operations that show what the device is, and make no call of its medium.
ghost use Rattle.std.specs.Prelude.{◌≡◌, ◌≤◌, IfOk, IfSome, IsTrue};
ghost use Rattle.scsi_model.specs.Decoding.{IsDecoded, is_vpd_page};
ghost use Rattle.scsi_model.specs.Pages.{inquiry_data};
ghost use Rattle.scsi_model.specs.Scsi.{good, cut, shown};

use crate::replies::{cut, done, front};
use cdb_decode::Op;
use handler_trait::Medium;
use inquiry_pages::{capacity10, capacity16, mode_sense, report_luns, standard_inquiry, vpd_page};
use scsi_model::senses::NO_ADDITIONAL_SENSE_INFORMATION;
use std::alloc::Global;
use tcmu_types::{Name, NoMemory, Reply, sense_bytes};

/// INQUIRY: the standard data, or a page of vital product data, cut to what may be answered.
fn inquiry(
    alloc: Global,
    name: &Name,
    page: Option<u8>,
    limit: u32,
    in_len: u32,
) -> Result<Reply, NoMemory>
    requires { IfSome page (λ p. IsTrue (is_vpd_page p)) }
    ensures { IfOk result (λ r. r ≡ good (cut limit in_len (inquiry_data name.now page))) }
{
    match page {
        None => cut(alloc, &standard_inquiry(), limit, in_len),
        Some(page) => {
            let data = vpd_page(alloc, name, page)?;
            cut(alloc, data.as_slice(), limit, in_len)
        }
    }
}

/// The reply to an operation that makes no call of the medium; to one that makes some, a good reply without bytes.
pub fn show<M: Medium>(
    alloc: Global,
    name: &Name,
    medium: &M,
    op: Op,
    in_len: u32,
) -> Result<Reply, NoMemory>
    requires { IsDecoded op }
    ensures { IfOk result (λ r. r ≡ good (shown name.now (M.state medium.now) in_len op)) }
{
    match op {
        Op::RequestSense { limit } => cut(
            alloc,
            &sense_bytes(NO_ADDITIONAL_SENSE_INFORMATION),
            limit,
            in_len,
        ),
        Op::Inquiry { page, limit } => inquiry(alloc, name, page, limit, in_len),
        Op::ModeSense { page, limit } => {
            let data = mode_sense(alloc, page, medium.protected())?;
            cut(alloc, data.as_slice(), limit, in_len)
        }
        Op::Capacity10 => front(alloc, &capacity10(medium.blocks()), in_len),
        Op::Capacity16 { limit } => cut(alloc, &capacity16(medium.blocks()), limit, in_len),
        Op::ReportLuns { select, limit } => {
            let data = report_luns(alloc, select)?;
            cut(alloc, data.as_slice(), limit, in_len)
        }
        Op::TestUnitReady
        | Op::Read { .. }
        | Op::Write { .. }
        | Op::Sync { .. }
        | Op::WriteSame { .. }
        | Op::Unmap { .. }
        | Op::CompareWrite { .. } => Ok(done(alloc)),
    }
}
