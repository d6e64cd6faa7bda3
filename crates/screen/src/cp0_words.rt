// info cp0: each register of coprocessor 0, with its fields in words.
use crate::field::{byte, field, is_set};
use phrase::{Decimal, Exception, InterruptLines, Word, YesNo};
use std::fmt;

// Of a state image.
#[derive(Clone, Copy)]
pub struct Cp0<'a>(pub &'a [u8]);

#[derive(Clone, Copy)]
struct Status(u32);

// One level of the two stacks of Status.
#[derive(Clone, Copy)]
struct Level {
    user: YesNo,
    interrupts: YesNo,
    table: YesNo,
}

// Cause, with the two registers that an exception writes beside it.
#[derive(Clone, Copy)]
struct Cause {
    cause: u32,
    epc: u32,
    bad_vaddr: u32,
}

// What has to do with the table.
#[derive(Clone, Copy)]
struct Entries {
    high: u32,
    low: u32,
    index: u32,
    random: u32,
}

impl Level {
    // Each stack has its bits in a word of its own.
    fn of(privileges: u32, tables: u32) -> Level {
        Level {
            user: is_set(privileges, 2),
            interrupts: is_set(privileges, 1),
            table: is_set(tables, 1),
        }
    }
}

impl fmt::Display for Level {
    fn fmt<W: fmt::Write>(&self, f: &mut fmt::Formatter<W>) -> fmt::Result {
        write!(
            f,
            "user mode (KU) {}, interrupts on (IE) {}, table on (VM) {}",
            self.user, self.interrupts, self.table,
        )
    }
}

impl fmt::Display for Status {
    fn fmt<W: fmt::Write>(&self, f: &mut fmt::Formatter<W>) -> fmt::Result {
        let status = self.0;
        write!(
            f,
            "Status   {}  who runs, and what may interrupt\n\
            \x20 current:  {}\n\
            \x20 previous: {}\n\
            \x20 old:      {}\n\
            \x20 interrupt lines let in (IM):{}\n\
            \x20 user programs may use CP0 (CU0): {}; exceptions enter the ROM (BEV): {}\n",
            Word(status),
            Level::of(status, status >> 24),
            Level::of(status >> 2, status >> 25),
            Level::of(status >> 4, status >> 26),
            InterruptLines(byte(status, 8)),
            is_set(status, 0x1000_0000),
            is_set(status, 0x40_0000),
        )
    }
}

impl fmt::Display for Cause {
    fn fmt<W: fmt::Write>(&self, f: &mut fmt::Formatter<W>) -> fmt::Result {
        let cause = self.cause;
        write!(
            f,
            "Cause    {}  last exception: {} {}\n\
            \x20 interrupt lines that ask (IP):{}\n\
            \x20 in a branch's slot (BD): {}; coprocessor of a code 11 (CE): {}\n\
            EPC      {}  where the last exception was\n\
            BadVAddr {}  the address of the last exception of codes 1 to 5\n",
            Word(cause),
            field(cause, 2, 0x1F),
            Exception(cause >> 2 & 0x1F),
            InterruptLines(byte(cause, 8)),
            is_set(cause, 0x8000_0000),
            field(cause, 28, 3),
            Word(self.epc),
            Word(self.bad_vaddr),
        )
    }
}

impl fmt::Display for Entries {
    fn fmt<W: fmt::Write>(&self, f: &mut fmt::Formatter<W>) -> fmt::Result {
        let Entries {
            high,
            low,
            index,
            random,
        } = *self;
        write!(
            f,
            "EntryHi  {}  page {}, address space (ASID) {}\n\
            EntryLo  {}  frame {}, N {}, D {}, V {}, G {}\n",
            Word(high),
            Word(high & 0xFFFF_F000),
            field(high, 6, 0x3F),
            Word(low),
            Word(low & 0xFFFF_F000),
            field(low, 11, 1),
            field(low, 10, 1),
            field(low, 9, 1),
            field(low, 8, 1),
        )?;
        write!(
            f,
            "Index    {}  entry {} for TLBR and TLBWI; TLBP found none (P): {}\n\
            Random   {}  entry {} for TLBWR; goes down with each step\n",
            Word(index),
            field(index, 8, 0x3F),
            is_set(index, 0x8000_0000),
            Word(random),
            field(random, 8, 0x3F),
        )
    }
}

impl fmt::Display for Cp0<'_> {
    fn fmt<W: fmt::Write>(&self, f: &mut fmt::Formatter<W>) -> fmt::Result {
        let image = self.0;
        let status = Status(image::word(image, image::STATUS));
        let cause = Cause {
            cause: image::word(image, image::CAUSE),
            epc: image::word(image, image::EPC),
            bad_vaddr: image::word(image, image::BAD_VADDR),
        };
        let entries = Entries {
            high: image::word(image, image::ENTRY_HI),
            low: image::word(image, image::ENTRY_LO),
            index: image::word(image, image::INDEX),
            random: image::word(image, image::RANDOM),
        };
        write!(
            f,
            "CP0: what the machine knows of modes, exceptions and the table.\n{status}{cause}{entries}"
        )
    }
}
