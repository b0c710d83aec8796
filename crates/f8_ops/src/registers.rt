//! Numbers of the scratchpad registers that instructions name by a letter (Fairchild F8 User's Guide). Of a pair it is the register with the
//! high byte, with the low one behind it. And the fields by which instructions name a register that isn't the one with the field's number.

/// The register J, in which the status word is kept.
pub const J: u8 = 9;

/// The pair H.
pub const H: u8 = 10;

/// The pair K.
pub const K: u8 = 12;

/// The pair Q.
pub const Q: u8 = 14;

/// The field from which on a field names the register that ISAR points to.
pub const POINTED: u8 = 12;

/// The field that also steps ISAR up.
pub const STEPPED_UP: u8 = 13;

/// The field that also steps ISAR down.
pub const STEPPED_DOWN: u8 = 14;
