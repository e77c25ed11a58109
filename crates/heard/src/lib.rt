#![tactic(auto)]
// What a caller in C gives and hears: numbers and octets as what the library takes, and answers as numbers that the caller lends.
pub mod fields;
pub mod hear;
pub mod parts;
pub mod places;

// The octets of a plain command's fields up to its check field: SPI, KIc, KID, TAR, CNTR, PCNTR. The first seven are those of a ciphered one.
pub const COMMAND_FIELDS: usize = 13;

pub const CLEAR_FIELDS: usize = 7;

// The octets of a plain response's fields up to its check field: TAR, CNTR, PCNTR, status. The first three are those of a ciphered one.
pub const RESPONSE_FIELDS: usize = 10;

pub const TAR_FIELDS: usize = 3;
