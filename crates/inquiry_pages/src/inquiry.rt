//! INQUIRY data: the standard data, and the pages of vital product data.
ghost use Rattle.std.specs.Prelude.{◌≡◌, ◌≤◌, ◌<◌, ◌++◌, length, IsTrue, IfOk};
ghost use Rattle.scsi_model.specs.Pages.{standard_inquiry, vpd_page, vital_page, designator, vendor, block_limits};
ghost use Rattle.scsi_model.specs.Decoding.{is_vpd_page};

use byteorder::{BigEndian, ByteOrder};
use scsi_model::{
    MAXIMUM_UNMAP_DESCRIPTOR_COUNT, MAXIMUM_UNMAP_LBA_COUNT, MAXIMUM_WRITE_SAME_LENGTH, pages,
};
use std::alloc::Global;
use tcmu_types::{Bytes, Name, NoMemory};

/// The codes of the pages that are served, rising.
const SERVED_PAGES: [u8; 4] = [
    pages::SUPPORTED_VPD_PAGES,
    pages::UNIT_SERIAL_NUMBER,
    pages::DEVICE_IDENTIFICATION,
    pages::BLOCK_LIMITS,
];

/// Standard INQUIRY data, 36 bytes (SPC-4): a direct access block device, with VERSION 05h (SPC-3).
#[tactic(auto, unfolding(scsi_model::specs::Pages::standard_inquiry))]
pub fn standard_inquiry() -> [u8; 36]
    ensures { result ≡ standard_inquiry }
{
    *b"\x00\x00\x05\x02\x1f\x00\x00\x00RTLTCMU ring disk       0001"
}

/// The bytes of both, one behind the other.
fn joined(alloc: Global, front: &[u8], rest: &[u8]) -> Result<Vec<u8>, NoMemory>
    ensures { IfOk result (λ bytes. bytes.items ≡ front.now ++ rest.now) }
{
    let mut bytes = Vec::from_slice(alloc, front)?;
    bytes.extend_from_slice(rest)?;
    Ok(bytes)
}

/// The page of this code, of which these bytes follow the header.
fn vital_page(alloc: Global, page: u8, rest: &[u8]) -> Result<Bytes, NoMemory>
    requires { length rest.now < 65536 }
    ensures { IfOk result (λ bytes. bytes.items ≡ vital_page page rest.now) }
{
    let mut header = [0, page, 0, 0];
    BigEndian::write_u16(&mut header[2..], rest.len() as u16);
    Ok(Bytes::from_vec(joined(alloc, &header, rest)?))
}

/// A designator of type T10 vendor ID (SPC-4): in ASCII, of the logical unit, the vendor and the device's name.
fn designator(alloc: Global, name: &[u8]) -> Result<Vec<u8>, NoMemory>
    requires { length name.now ≤ 16 }
    ensures { IfOk result (λ bytes. bytes.items ≡ designator name.now) }
{
    let mut front = *b"\x02\x01\x00\x00RTLTCMU ";
    front[3] = 8 + name.len() as u8;
    joined(alloc, &front, name)
}

/// The Block Limits page (SBC-3) behind its header of 4 bytes, so each place is 4 below that of the standard's table.
fn block_limits() -> [u8; 60]
    ensures { result ≡ block_limits }
{
    let mut limits = [0; 60];
    limits[0] = 0x01; // WSNZ: WRITE SAME takes no count of 0
    limits[1] = 0xff; // MAXIMUM COMPARE AND WRITE LENGTH
    BigEndian::write_u32(&mut limits[16..], MAXIMUM_UNMAP_LBA_COUNT);
    BigEndian::write_u32(&mut limits[20..], MAXIMUM_UNMAP_DESCRIPTOR_COUNT);
    BigEndian::write_u64(&mut limits[32..], u64::from(MAXIMUM_WRITE_SAME_LENGTH));
    limits
}

/// The page of vital product data of the device of this name, with its header: 00h Supported VPD Pages, 80h Unit Serial Number or 83h
/// Device Identification (SPC-4), or B0h Block Limits (SBC-3).
#[tactic(auto, unfolding(scsi_model::specs::Pages::vpd_page))]
pub fn vpd_page(alloc: Global, name: &Name, page: u8) -> Result<Bytes, NoMemory>
    requires { IsTrue (is_vpd_page page) }
    ensures { IfOk result (λ bytes. bytes.items ≡ vpd_page name.now page) }
{
    let name = name.as_bytes();
    match page {
        pages::SUPPORTED_VPD_PAGES => vital_page(alloc, page, &SERVED_PAGES),
        pages::UNIT_SERIAL_NUMBER => vital_page(alloc, page, name),
        pages::DEVICE_IDENTIFICATION => vital_page(alloc, page, &designator(alloc, name)?),
        _ => vital_page(alloc, pages::BLOCK_LIMITS, &block_limits()),
    }
}
