//! Codes of pages and of a service action, by their names in SPC-4 and SBC-3.

/// Supported VPD Pages (SPC-4).
pub const SUPPORTED_VPD_PAGES: u8 = 0x00;

/// Unit Serial Number, a page of vital product data (SPC-4).
pub const UNIT_SERIAL_NUMBER: u8 = 0x80;

/// Device Identification, a page of vital product data (SPC-4).
pub const DEVICE_IDENTIFICATION: u8 = 0x83;

/// Block Limits, a page of vital product data (SBC-3).
pub const BLOCK_LIMITS: u8 = 0xb0;

/// The Caching mode page (SBC-3).
pub const CACHING: u8 = 0x08;

/// The Control mode page (SPC-4).
pub const CONTROL: u8 = 0x0a;

/// All mode pages (SPC-4).
pub const ALL_MODE_PAGES: u8 = 0x3f;

/// READ CAPACITY(16), a service action of SERVICE ACTION IN(16) (SBC-3).
pub const READ_CAPACITY_16: u8 = 0x10;
