//! The numbers of registers, by their names in the calling convention (RISC-V ABIs Specification,
//! "Integer Register Convention").
//!
//! What a register is used for isn't known here.

/// The stack pointer.
pub const SP: u8 = 2;

/// The global pointer.
pub const GP: u8 = 3;

/// The first argument.
pub const A0: u8 = 10;

/// The second argument.
pub const A1: u8 = 11;

/// The third argument.
pub const A2: u8 = 12;

/// The fourth argument.
pub const A3: u8 = 13;

/// The fifth argument.
pub const A4: u8 = 14;

/// The sixth argument.
pub const A5: u8 = 15;

/// The seventh argument.
pub const A6: u8 = 16;

/// The eighth argument.
pub const A7: u8 = 17;
