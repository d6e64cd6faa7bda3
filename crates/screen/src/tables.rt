// info registers, info tlb, info printers: a heading, some rows, and what stands below them.
use crate::field::field;
use phrase::{Command, Decimal, Grouped, PrinterStatus, Register, Word, YesNo};
use std::fmt;

// info registers, of a state image.
#[derive(Clone, Copy)]
pub struct Registers<'a>(pub &'a [u8]);

// A register with number, usual name and word.
#[derive(Clone, Copy)]
struct Numbered {
    number: usize,
    word: u32,
}

// info tlb, of a state image.
#[derive(Clone, Copy)]
pub struct Tlb<'a>(pub &'a [u8]);

// info printers.
#[derive(Clone, Copy)]
pub struct Printers<'a> {
    pub image: &'a [u8],
    // The paper of one printer, in bytes.
    pub eighth: usize,
}

impl fmt::Display for Numbered {
    fn fmt<W: fmt::Write>(&self, f: &mut fmt::Formatter<W>) -> fmt::Result {
        write!(
            f,
            "{:>2} {:<4} {}",
            Decimal(self.number as u64),
            Register(self.number),
            Word(self.word),
        )
    }
}

impl Registers<'_> {
    fn numbered(&self, number: usize) -> Numbered {
        Numbered {
            number,
            word: image::register(self.0, number),
        }
    }
}

impl fmt::Display for Registers<'_> {
    fn fmt<W: fmt::Write>(&self, f: &mut fmt::Formatter<W>) -> fmt::Result {
        f.write_str("Registers: number, usual name, word. Register 0 is always 0.\n")?;
        for n in 0..8 {
            write!(
                f,
                "{}  {}  {}  {}\n",
                self.numbered(n),
                self.numbered(n + 8),
                self.numbered(n + 16),
                self.numbered(n + 24),
            )?;
        }
        write!(
            f,
            "HI {}  LO {}  PC {}  next PC {}\n\
            The next step runs the instruction at PC, the one after it that at next PC.\n",
            Word(image::word(self.0, image::HI)),
            Word(image::word(self.0, image::LO)),
            Word(image::word(self.0, image::PC)),
            Word(image::word(self.0, image::NEXT_PC)),
        )
    }
}

// Entry i of the translation table.
fn entry<W: fmt::Write>(f: &mut fmt::Formatter<W>, image: &[u8], i: usize) -> fmt::Result {
    let entry = image::entry(image, i);
    write!(
        f,
        "  {:>2}    {}   {:>2}    {}   {} {} {} {}\n",
        Decimal(i as u64),
        Word(entry.high & 0xFFFF_F000),
        field(entry.high, 6, 0x3F),
        Word(entry.low & 0xFFFF_F000),
        field(entry.low, 11, 1),
        field(entry.low, 10, 1),
        field(entry.low, 9, 1),
        field(entry.low, 8, 1),
    )
}

impl fmt::Display for Tlb<'_> {
    fn fmt<W: fmt::Write>(&self, f: &mut fmt::Formatter<W>) -> fmt::Result {
        f.write_str(
            "Translation table. While VM is 1, addresses from 0x20000000 on go through it.\n\
            entry   page         ASID  frame        N D V G\n",
        )?;
        for i in 0..16 {
            entry(f, self.0, i)?;
        }
        f.write_str(
            "An entry with the page, and with the ASID or G 1, counts. It needs V 1;\n\
            a store needs D 1. A run stops before two that count. N has no effect here.\n",
        )
    }
}

// Printer n, or that it is not installed.
fn printer<W: fmt::Write>(f: &mut fmt::Formatter<W>, image: &[u8], n: usize) -> fmt::Result {
    let Some(printer) = image::printer(image, n) else {
        return write!(f, "  {}      not installed\n", Decimal(n as u64));
    };
    // Where the steps left have 13 columns and not 12, what stands behind them has one less.
    let width = if printer.steps_left < 1_000_000_000 {
        9
    } else {
        8
    };
    write!(
        f,
        "  {}      {:<15}{:<12}{}  {:<12}{:<width$}{}\n",
        Decimal(n as u64),
        PrinterStatus(printer.status),
        Command(printer.command),
        Word(printer.data0),
        Grouped(printer.steps_left as u64),
        Grouped(printer.printed as u64),
        YesNo(printer.is_pending),
    )
}

impl fmt::Display for Printers<'_> {
    fn fmt<W: fmt::Write>(&self, f: &mut fmt::Formatter<W>) -> fmt::Result {
        write!(
            f,
            "Printers, all on interrupt line 6. Each has paper for {} characters.\n\
            printer  STATUS         COMMAND     DATA0       steps left  printed  pending\n",
            Grouped(self.eighth as u64),
        )?;
        for n in 0..8 {
            printer(f, self.image, n)?;
        }
        f.write_str("Pending: it asks for an interrupt until its next command. To read: paper.\n")
    }
}
