// Registers, exceptions, printers and interrupt lines in words.
use crate::number::{Byte, Decimal, Word};
use std::fmt;

const REGISTERS: [&str; 32] = [
    "zero", "at", "v0", "v1", "a0", "a1", "a2", "a3", "t0", "t1", "t2", "t3", "t4", "t5", "t6",
    "t7", "s0", "s1", "s2", "s3", "s4", "s5", "s6", "s7", "t8", "t9", "k0", "k1", "gp", "sp", "fp",
    "ra",
];

// The usual name of a register, by its number; above 31 it is shown as the last.
#[derive(Clone, Copy)]
pub struct Register(pub usize);

impl fmt::Display for Register {
    fn fmt<W: fmt::Write>(&self, f: &mut fmt::Formatter<W>) -> fmt::Result {
        f.pad(REGISTERS[self.0.min(31)])
    }
}

// The name of an exception in the manual, and what it is, by its code.
#[derive(Clone, Copy)]
pub struct Exception(pub u32);

impl Exception {
    fn name(self) -> &'static str {
        match self.0 {
            0 => "Int, an interrupt",
            1 => "Mod, a store to a page with D off",
            2 => "TLBL, no valid page for a fetch or load",
            3 => "TLBS, no valid page for a store",
            4 => "AdEL, a bad address for a fetch or load",
            5 => "AdES, a bad address for a store",
            6 => "IBE, nothing there to fetch from",
            7 => "DBE, nothing there to load or store",
            8 => "Sys, the instruction SYSCALL",
            9 => "Bp, the instruction BREAK",
            10 => "RI, a word that is no instruction",
            11 => "CpU, a coprocessor that may not be used",
            12 => "Ov, a signed result that overflows",
            _ => "a number that no exception has",
        }
    }
}

impl fmt::Display for Exception {
    fn fmt<W: fmt::Write>(&self, f: &mut fmt::Formatter<W>) -> fmt::Result {
        f.pad(self.name())
    }
}

// A printer's STATUS.
#[derive(Clone, Copy)]
pub struct PrinterStatus(pub u32);

impl PrinterStatus {
    fn name(self) -> &'static str {
        match self.0 {
            1 => "1 ready",
            2 => "2 bad command",
            3 => "3 busy",
            4 => "4 paper full",
            _ => "unknown",
        }
    }
}

impl fmt::Display for PrinterStatus {
    fn fmt<W: fmt::Write>(&self, f: &mut fmt::Formatter<W>) -> fmt::Result {
        f.pad(self.name())
    }
}

// A printer's COMMAND.
#[derive(Clone, Copy)]
pub struct Command(pub u32);

impl fmt::Display for Command {
    fn fmt<W: fmt::Write>(&self, f: &mut fmt::Formatter<W>) -> fmt::Result {
        match self.0 {
            0 => f.pad("0 RESET"),
            1 => f.pad("1 ACK"),
            2 => f.pad("2 PRINTCHR"),
            other => fmt::Display::fmt(&Word(other), f),
        }
    }
}

#[derive(Clone, Copy)]
pub struct YesNo(pub bool);

impl fmt::Display for YesNo {
    fn fmt<W: fmt::Write>(&self, f: &mut fmt::Formatter<W>) -> fmt::Result {
        f.pad(if self.0 { "yes" } else { "no" })
    }
}

// The interrupt lines of a map, by their numbers. Lines 3, 4, 5 and 7 have no device, but IM may let them in.
#[derive(Clone, Copy)]
pub struct InterruptLines(pub u8);

impl fmt::Display for InterruptLines {
    fn fmt<W: fmt::Write>(&self, f: &mut fmt::Formatter<W>) -> fmt::Result {
        if self.0 == 0 {
            return write!(f, " none");
        }
        for line in (0..8u64).filter(|line| self.0 >> line & 1 == 1) {
            write!(f, " {}", Decimal(line))?;
        }
        Ok(())
    }
}

// A byte as a character, or as \xNN where it is no printable one.
#[derive(Clone, Copy)]
pub struct Character(pub u8);

impl fmt::Display for Character {
    fn fmt<W: fmt::Write>(&self, f: &mut fmt::Formatter<W>) -> fmt::Result {
        if matches!(self.0, b' '..=b'~') {
            return f.write_char(self.0 as char);
        }
        write!(f, "\\x{:02x}", self.0)
    }
}
