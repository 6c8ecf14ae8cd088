//! The table of operation codes, by the length of the block.
ghost use Rattle.std.specs.Prelude.{◌≡◌, ℕ, ◌+◌, ◌*◌, ◌%◌, ◌<◌, ◌≤◌, length, slice_index, [], ◌∷◌, not, ◌||◌, ◌==◌, nat_lt, nat_le, if◌then◌else◌, IfOk};
ghost use Rattle.byteorder.specs.Endian.{big_from};
ghost use Rattle.scsi_model.specs.Decoding.{decoded, ruled, rule, asks_page, asked_page, inquiry_page, is_vpd_page, is_mode_page, no_high_bits, no_low_bit, no_low_bits, same_count, count6, IsDecoded};
ghost use Rattle.scsi_model.specs.declared.op.Op.TheVariants.{RequestSense, Inquiry, ModeSense, Capacity16, ReportLuns, Unmap, CompareWrite};

use scsi_model::{CdbFault, MAXIMUM_WRITE_SAME_LENGTH, Op, pages};
use tcmu_types::big_endian::{be_u16_at, be_u32_at, be_u64_at};
use tcmu_types::{Cdb, opcode};

/// What a command descriptor block asks, or why it asks nothing: `Opcode` exactly where its operation code is not in the table,
/// and `Field` with the lowest byte of which a field breaks its rule (SPC-4 and SBC-3, by the names of the commands).
#[tactic(auto, unfolding(scsi_model::specs::Decoding::decoded))]
pub fn decode(cdb: &Cdb) -> Result<Op, CdbFault>
    ensures value { result ≡ decoded cdb.now }
    ensures sound { IfOk result IsDecoded }
{
    let bytes = cdb.as_bytes();
    match bytes[0] {
        0x00..0x20 => decode_6(bytes),
        0x20..0x60 => decode_10(bytes),
        0x80..0xa0 => decode_16(bytes),
        0xa0..0xc0 => decode_12(bytes),
        code => Err(CdbFault::Opcode(code)),
    }
}

/// The operations of group 0, whose blocks have 6 bytes.
#[tactic(auto, unfolding(scsi_model::specs::Decoding::decoded))]
fn decode_6(bytes: &[u8]) -> Result<Op, CdbFault>
    requires length { length bytes.now ≡ 6 }
    requires code { slice_index bytes.now 0 < 0x20 }
    ensures value { result ≡ decoded bytes.now }
    ensures sound { IfOk result IsDecoded }
{
    match bytes[0] {
        opcode::TEST_UNIT_READY => Ok(Op::TestUnitReady),
        opcode::REQUEST_SENSE => request_sense(bytes),
        opcode::READ_6 => Ok(Op::Read {
            lba: lba_6(bytes),
            count: count_6(bytes),
        }),
        opcode::WRITE_6 => Ok(Op::Write {
            lba: lba_6(bytes),
            count: count_6(bytes),
        }),
        opcode::INQUIRY => inquiry(bytes),
        opcode::MODE_SENSE_6 => mode_sense(bytes),
        code => Err(CdbFault::Opcode(code)),
    }
}

/// The operations of groups 1 and 2, whose blocks have 10 bytes.
#[tactic(auto, unfolding(scsi_model::specs::Decoding::decoded))]
fn decode_10(bytes: &[u8]) -> Result<Op, CdbFault>
    requires length { length bytes.now ≡ 10 }
    requires low { 0x20 ≤ slice_index bytes.now 0 }
    requires high { slice_index bytes.now 0 < 0x60 }
    ensures value { result ≡ decoded bytes.now }
    ensures sound { IfOk result IsDecoded }
{
    let lba = u64::from(be_u32_at(bytes, 2));
    let count = u32::from(be_u16_at(bytes, 7));
    match bytes[0] {
        opcode::READ_CAPACITY_10 => Ok(Op::Capacity10),
        opcode::READ_10 => unprotected(bytes, Op::Read { lba, count }),
        opcode::WRITE_10 => unprotected(bytes, Op::Write { lba, count }),
        opcode::SYNCHRONIZE_CACHE_10 => Ok(Op::Sync { lba, count }),
        opcode::WRITE_SAME_10 => write_same(bytes, 7, count, Op::WriteSame { lba, count }),
        opcode::UNMAP => unmap(bytes),
        code => Err(CdbFault::Opcode(code)),
    }
}

/// The operations of group 5, whose blocks have 12 bytes.
#[tactic(auto, unfolding(scsi_model::specs::Decoding::decoded))]
fn decode_12(bytes: &[u8]) -> Result<Op, CdbFault>
    requires length { length bytes.now ≡ 12 }
    requires low { 0xa0 ≤ slice_index bytes.now 0 }
    requires high { slice_index bytes.now 0 < 0xc0 }
    ensures value { result ≡ decoded bytes.now }
    ensures sound { IfOk result IsDecoded }
{
    let lba = u64::from(be_u32_at(bytes, 2));
    let count = be_u32_at(bytes, 6);
    match bytes[0] {
        opcode::REPORT_LUNS => report_luns(bytes),
        opcode::READ_12 => unprotected(bytes, Op::Read { lba, count }),
        opcode::WRITE_12 => unprotected(bytes, Op::Write { lba, count }),
        code => Err(CdbFault::Opcode(code)),
    }
}

/// The operations of group 4, whose blocks have 16 bytes.
#[tactic(auto, unfolding(scsi_model::specs::Decoding::decoded))]
fn decode_16(bytes: &[u8]) -> Result<Op, CdbFault>
    requires length { length bytes.now ≡ 16 }
    requires low { 0x80 ≤ slice_index bytes.now 0 }
    requires high { slice_index bytes.now 0 < 0xa0 }
    ensures value { result ≡ decoded bytes.now }
    ensures sound { IfOk result IsDecoded }
{
    let lba = be_u64_at(bytes, 2);
    let count = be_u32_at(bytes, 10);
    match bytes[0] {
        opcode::READ_16 => unprotected(bytes, Op::Read { lba, count }),
        opcode::COMPARE_AND_WRITE => {
            let count = u32::from(bytes[13]);
            unprotected(bytes, Op::CompareWrite { lba, count })
        }
        opcode::WRITE_16 => unprotected(bytes, Op::Write { lba, count }),
        opcode::SYNCHRONIZE_CACHE_16 => Ok(Op::Sync { lba, count }),
        opcode::WRITE_SAME_16 => write_same(bytes, 10, count, Op::WriteSame { lba, count }),
        opcode::SERVICE_ACTION_IN_16 => read_capacity_16(bytes),
        code => Err(CdbFault::Opcode(code)),
    }
}

/// The address of READ(6) and WRITE(6): 21 bits.
fn lba_6(bytes: &[u8]) -> u64
    requires { length bytes.now ≡ 6 }
    ensures { result ≡ 65536 * (slice_index bytes.now 1 % 32) + big_from 2 2 bytes.now }
{
    65536 * u64::from(bytes[1] % 32) + u64::from(be_u16_at(bytes, 2))
}

/// The count of READ(6) and WRITE(6), in which 0 is 256.
fn count_6(bytes: &[u8]) -> u32
    requires { length bytes.now ≡ 6 }
    ensures { result ≡ count6 bytes.now }
{
    match bytes[4] {
        0 => 256,
        count => u32::from(count),
    }
}

/// The operation, where RDPROTECT or WRPROTECT, the high three bits of byte 1, is 0.
fn unprotected(bytes: &[u8], op: Op) -> Result<Op, CdbFault>
    requires { 6 ≤ length bytes.now }
    ensures value { result ≡ ruled (no_high_bits bytes.now ∷ []) op }
    ensures sound { IsDecoded op → IfOk result IsDecoded }
{
    if bytes[1] >= 0x20 {
        return Err(CdbFault::Field(1));
    }
    Ok(op)
}

/// WRITE SAME, whose count stands in the block from byte `at` on: the low five bits of byte 1 (ANCHOR, UNMAP and what is obsolete)
/// are 0, and the count is from 1 to MAXIMUM WRITE SAME LENGTH.
fn write_same(bytes: &[u8], at: u8, count: u32, op: Op) -> Result<Op, CdbFault>
    requires { 6 ≤ length bytes.now }
    ensures value { result ≡ ruled (no_low_bits bytes.now ∷ same_count at count ∷ []) op }
    ensures sound { (0 < count → IsDecoded op) → IfOk result IsDecoded }
{
    if bytes[1] % 32 != 0 {
        return Err(CdbFault::Field(1));
    }
    if count == 0 || count > MAXIMUM_WRITE_SAME_LENGTH {
        return Err(CdbFault::Field(at));
    }
    Ok(op)
}

/// UNMAP, with ANCHOR at 0.
fn unmap(bytes: &[u8]) -> Result<Op, CdbFault>
    requires { length bytes.now ≡ 10 }
    ensures value { result ≡ ruled (no_low_bit bytes.now ∷ []) (Unmap (big_from 7 2 bytes.now)) }
    ensures sound { IfOk result IsDecoded }
{
    if bytes[1] % 2 == 1 {
        return Err(CdbFault::Field(1));
    }
    Ok(Op::Unmap {
        length: u32::from(be_u16_at(bytes, 7)),
    })
}

/// REQUEST SENSE, with DESC at 0.
fn request_sense(bytes: &[u8]) -> Result<Op, CdbFault>
    requires { length bytes.now ≡ 6 }
    ensures value { result ≡ ruled (no_low_bit bytes.now ∷ []) (RequestSense (slice_index bytes.now 4)) }
    ensures sound { IfOk result IsDecoded }
{
    if bytes[1] % 2 == 1 {
        return Err(CdbFault::Field(1));
    }
    Ok(Op::RequestSense {
        limit: u32::from(bytes[4]),
    })
}

/// The pages of vital product data that are served: 00h, 80h, 83h and B0h.
fn is_vpd_page(page: u8) -> bool
    ensures { result ≡ is_vpd_page page }
{
    matches!(
        page,
        pages::SUPPORTED_VPD_PAGES
            | pages::UNIT_SERIAL_NUMBER
            | pages::DEVICE_IDENTIFICATION
            | pages::BLOCK_LIMITS
    )
}

/// The mode pages that are served: Caching, Control and all pages, with PC at 0, the current values.
fn is_mode_page(page: u8) -> bool
    ensures { result ≡ is_mode_page page }
{
    matches!(
        page,
        pages::CACHING | pages::CONTROL | pages::ALL_MODE_PAGES
    )
}

/// INQUIRY: with EVPD a served page, and else no page.
fn inquiry(bytes: &[u8]) -> Result<Op, CdbFault>
    requires { length bytes.now ≡ 6 }
    ensures value { result ≡ ruled (inquiry_page bytes.now ∷ []) (Inquiry (asked_page bytes.now) (big_from 3 2 bytes.now)) }
    ensures sound { IfOk result IsDecoded }
{
    let limit = u32::from(be_u16_at(bytes, 3));
    let code = bytes[2];
    if bytes[1] % 2 == 1 {
        if !is_vpd_page(code) {
            return Err(CdbFault::Field(2));
        }
        let page = Some(code);
        Ok(Op::Inquiry { page, limit })
    } else {
        if code != 0 {
            return Err(CdbFault::Field(2));
        }
        Ok(Op::Inquiry { page: None, limit })
    }
}

/// MODE SENSE(6) of a served page, without a subpage.
fn mode_sense(bytes: &[u8]) -> Result<Op, CdbFault>
    requires { length bytes.now ≡ 6 }
    ensures value { result ≡ ruled (rule 2 (not (is_mode_page (slice_index bytes.now 2))) ∷ rule 3 (not (slice_index bytes.now 3 == 0)) ∷ [])
        (ModeSense (slice_index bytes.now 2) (slice_index bytes.now 4)) }
    ensures sound { IfOk result IsDecoded }
{
    if !is_mode_page(bytes[2]) {
        return Err(CdbFault::Field(2));
    }
    if bytes[3] != 0 {
        return Err(CdbFault::Field(3));
    }
    Ok(Op::ModeSense {
        page: bytes[2],
        limit: u32::from(bytes[4]),
    })
}

/// SERVICE ACTION IN(16), of which READ CAPACITY(16) alone is served.
fn read_capacity_16(bytes: &[u8]) -> Result<Op, CdbFault>
    requires { length bytes.now ≡ 16 }
    ensures value { result ≡ ruled (rule 1 (not (slice_index bytes.now 1 % 32 == 0x10)) ∷ []) (Capacity16 (big_from 10 4 bytes.now)) }
    ensures sound { IfOk result IsDecoded }
{
    if bytes[1] % 32 != pages::READ_CAPACITY_16 {
        return Err(CdbFault::Field(1));
    }
    Ok(Op::Capacity16 {
        limit: be_u32_at(bytes, 10),
    })
}

/// REPORT LUNS, with SELECT REPORT from 0 to 2.
fn report_luns(bytes: &[u8]) -> Result<Op, CdbFault>
    requires { length bytes.now ≡ 12 }
    ensures value { result ≡ ruled (rule 2 (nat_lt 2 (slice_index bytes.now 2)) ∷ []) (ReportLuns (slice_index bytes.now 2) (big_from 6 4 bytes.now)) }
    ensures sound { IfOk result IsDecoded }
{
    if bytes[2] > 2 {
        return Err(CdbFault::Field(2));
    }
    Ok(Op::ReportLuns {
        select: bytes[2],
        limit: be_u32_at(bytes, 6),
    })
}
