//! Capacities, in logical blocks of 512 bytes.
ghost use Rattle.std.specs.Prelude.{◌≡◌, ◌-◌, ◌≤◌, nat_lt, if◌then◌else◌};
ghost use Rattle.scsi_model.specs.Pages.{capacity10, capacity16};

use byteorder::{BigEndian, ByteOrder};
use tcmu_types::LOGICAL_BLOCK;

/// The last address of so many blocks, or FFFFFFFFh where 32 bits do not hold it.
fn last_address(blocks: u64) -> u32
    requires { 1 ≤ blocks }
    ensures { result ≡ (if nat_lt 4294967296 blocks then 0xffffffff else blocks - 1) }
{
    if blocks > 0x1_0000_0000 {
        u32::MAX
    } else {
        (blocks - 1) as u32
    }
}

/// READ CAPACITY(10) data (SBC-3) of a medium of so many blocks.
#[tactic(auto, unfolding(scsi_model::specs::Pages::capacity10))]
pub fn capacity10(blocks: u64) -> [u8; 8]
    requires { 1 ≤ blocks }
    ensures { result ≡ capacity10 blocks }
{
    let mut data = [0; 8];
    BigEndian::write_u32(&mut data, last_address(blocks));
    BigEndian::write_u32(&mut data[4..], LOGICAL_BLOCK);
    data
}

/// READ CAPACITY(16) data (SBC-3) of a medium of so many blocks; it reports no provisioning.
#[tactic(auto, unfolding(scsi_model::specs::Pages::capacity16))]
pub fn capacity16(blocks: u64) -> [u8; 32]
    requires { 1 ≤ blocks }
    ensures { result ≡ capacity16 blocks }
{
    let mut data = [0; 32];
    BigEndian::write_u64(&mut data, blocks - 1);
    BigEndian::write_u32(&mut data[8..], LOGICAL_BLOCK);
    data
}
