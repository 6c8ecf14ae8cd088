//! The sense data of a command descriptor block that asks nothing.
ghost use Rattle.std.specs.Prelude.{◌≡◌, ◌≢◌};
ghost use Rattle.scsi_model.specs.Scsi.{fault_sense};

use scsi_model::CdbFault;
use scsi_model::senses::{INVALID_COMMAND_OPERATION_CODE, INVALID_FIELD_IN_CDB};
use tcmu_types::Sense;

/// The sense data that tell why a command descriptor block asks nothing.
pub fn fault_sense(fault: CdbFault) -> Sense
    ensures value { result ≡ fault_sense fault }
    ensures key { result.key ≢ 3 }
{
    match fault {
        CdbFault::Opcode(_) => INVALID_COMMAND_OPERATION_CODE,
        CdbFault::Field(_) => INVALID_FIELD_IN_CDB,
    }
}
