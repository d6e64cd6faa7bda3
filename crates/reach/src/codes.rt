// ExcCode of the exceptions that an access can raise.
// Stays: (a) numbers and no enum: they are what Cause holds, by the manual (`code_adel` and its like in specs/Codes).
pub const MOD: u32 = 1;

pub const TLBL: u32 = 2;

pub const TLBS: u32 = 3;

pub const ADEL: u32 = 4;

pub const ADES: u32 = 5;

pub const IBE: u32 = 6;

pub const DBE: u32 = 7;
