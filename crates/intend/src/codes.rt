// ExcCode of the exceptions that no access raises; those are in `reach`.
// Stays: (a) numbers and no enum: they are what Cause holds, by the manual (`code_int` and its like in specs/Codes).
pub const INT: u32 = 0;

pub const SYS: u32 = 8;

pub const BP: u32 = 9;

pub const RI: u32 = 10;

pub const CPU: u32 = 11;

pub const OV: u32 = 12;
