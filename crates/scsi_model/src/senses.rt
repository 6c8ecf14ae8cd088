//! Sense data (SPC-4, 4.5.6), by the names of the standard.
use tcmu_types::Sense;

/// NO SENSE, NO ADDITIONAL SENSE INFORMATION.
pub const NO_ADDITIONAL_SENSE_INFORMATION: Sense = Sense {
    key: 0x0,
    asc: 0x00,
    ascq: 0x00,
};

/// MEDIUM ERROR, UNRECOVERED READ ERROR: a read of the medium failed.
pub const UNRECOVERED_READ_ERROR: Sense = Sense {
    key: 0x3,
    asc: 0x11,
    ascq: 0x00,
};

/// MEDIUM ERROR, WRITE ERROR: a write, a fill or a sync of the medium failed.
pub const WRITE_ERROR: Sense = Sense {
    key: 0x3,
    asc: 0x0c,
    ascq: 0x00,
};

/// ILLEGAL REQUEST, PARAMETER LIST LENGTH ERROR.
pub const PARAMETER_LIST_LENGTH_ERROR: Sense = Sense {
    key: 0x5,
    asc: 0x1a,
    ascq: 0x00,
};

/// ILLEGAL REQUEST, INVALID COMMAND OPERATION CODE.
pub const INVALID_COMMAND_OPERATION_CODE: Sense = Sense {
    key: 0x5,
    asc: 0x20,
    ascq: 0x00,
};

/// ILLEGAL REQUEST, LOGICAL BLOCK ADDRESS OUT OF RANGE.
pub const LOGICAL_BLOCK_ADDRESS_OUT_OF_RANGE: Sense = Sense {
    key: 0x5,
    asc: 0x21,
    ascq: 0x00,
};

/// ILLEGAL REQUEST, INVALID FIELD IN CDB.
pub const INVALID_FIELD_IN_CDB: Sense = Sense {
    key: 0x5,
    asc: 0x24,
    ascq: 0x00,
};

/// ILLEGAL REQUEST, INVALID FIELD IN PARAMETER LIST.
pub const INVALID_FIELD_IN_PARAMETER_LIST: Sense = Sense {
    key: 0x5,
    asc: 0x26,
    ascq: 0x00,
};

/// ILLEGAL REQUEST, INVALID RELEASE OF PERSISTENT RESERVATION.
pub const INVALID_RELEASE_OF_PERSISTENT_RESERVATION: Sense = Sense {
    key: 0x5,
    asc: 0x26,
    ascq: 0x04,
};

/// DATA PROTECT, WRITE PROTECTED.
pub const WRITE_PROTECTED: Sense = Sense {
    key: 0x7,
    asc: 0x27,
    ascq: 0x00,
};

/// MISCOMPARE, MISCOMPARE DURING VERIFY OPERATION.
pub const MISCOMPARE_DURING_VERIFY_OPERATION: Sense = Sense {
    key: 0xe,
    asc: 0x1d,
    ascq: 0x00,
};
