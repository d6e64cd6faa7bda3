// The eight registers of CP0, and what MFC0, MTC0 and TLBR do to them.
ghost use Rattle.std.specs.Prelude.{◌≡◌};
ghost use Rattle.cp0.specs.Registers.{read_of, with_register, with_entry};
ghost use Rattle.cp0.specs.Written.{mask_of, written_of};

use isa::instr::ControlRegister;
use word::mask::overlaid;

#[derive(Clone, Copy)]
pub struct Cp0 {
    pub index: u32,
    pub random: u32,
    pub entry_hi: u32,
    pub entry_lo: u32,
    pub bad_vaddr: u32,
    pub status: u32,
    pub cause: u32,
    pub epc: u32,
}

// MFC0.
pub fn read(c: Cp0, register: ControlRegister) -> u32
    ensures { result ≡ read_of register c }
{
    match register {
        ControlRegister::Index => c.index,
        ControlRegister::Random => c.random,
        ControlRegister::EntryLo => c.entry_lo,
        ControlRegister::BadVAddr => c.bad_vaddr,
        ControlRegister::EntryHi => c.entry_hi,
        ControlRegister::Status => c.status,
        ControlRegister::Cause => c.cause,
        ControlRegister::Epc => c.epc,
    }
}

// MTC0.
#[tactic(auto, unfolding(crate::specs::Written::written_of))]
pub fn write(c: Cp0, register: ControlRegister, word: u32) -> Cp0
    ensures { result ≡ written_of register word c }
{
    with_register(
        c,
        register,
        overlaid(mask(register), read(c, register), word),
    )
}

// The bits that MTC0 writes.
fn mask(register: ControlRegister) -> u32
    ensures { result ≡ mask_of register }
{
    match register {
        ControlRegister::Index => 0x3F00,
        ControlRegister::EntryLo => 0xFFFFFF00,
        ControlRegister::EntryHi => 0xFFFFFFC0,
        ControlRegister::Status => 0x1740FF3F,
        ControlRegister::Cause => 0x300,
        ControlRegister::Random | ControlRegister::BadVAddr | ControlRegister::Epc => 0,
    }
}

#[tactic(auto, unfolding(crate::specs::Registers::with_register))]
pub fn with_register(c: Cp0, register: ControlRegister, word: u32) -> Cp0
    ensures { result ≡ with_register register word c }
{
    match register {
        ControlRegister::Index => Cp0 { index: word, ..c },
        ControlRegister::Random => Cp0 { random: word, ..c },
        ControlRegister::EntryLo => Cp0 {
            entry_lo: word,
            ..c
        },
        ControlRegister::BadVAddr => Cp0 {
            bad_vaddr: word,
            ..c
        },
        ControlRegister::EntryHi => Cp0 {
            entry_hi: word,
            ..c
        },
        ControlRegister::Status => Cp0 { status: word, ..c },
        ControlRegister::Cause => Cp0 { cause: word, ..c },
        ControlRegister::Epc => Cp0 { epc: word, ..c },
    }
}

// TLBR loads both.
#[tactic(auto, unfolding(crate::specs::Registers::with_register))]
pub fn with_entry(c: Cp0, high: u32, low: u32) -> Cp0
    ensures { result ≡ with_entry high low c }
{
    Cp0 {
        entry_hi: high,
        entry_lo: low,
        ..c
    }
}
