// The target description. gdb wants the features cpu, cp0 and fpu, and the osabi none: without it, it would not ask for single steps.
#![tactic(auto)]

ghost use Rattle.std.specs.Prelude.{◌<◌};

use phrase::lay;
use std::fmt;
use text::put;

// A register of one letter, by its number among those and by gdb's.
#[derive(Clone, Copy)]
struct Register {
    letter: char,
    own: u64,
    number: u64,
}

impl fmt::Display for Register {
    fn fmt<W: fmt::Write>(&self, f: &mut fmt::Formatter<W>) -> fmt::Result {
        write!(
            f,
            "<reg name=\"{}{}\" bitsize=\"32\" regnum=\"{}\"/>",
            self.letter, self.own, self.number
        )
    }
}

// Registers of one letter, numbered from 0, by gdb's numbers from `first` on.
fn numbered(out: &mut [u8], at: usize, letter: char, first: u64) -> usize {
    let mut next = at;
    for own in 0..32 {
        let number = first % 256 + own;
        next = lay(
            out,
            next,
            Register {
                letter,
                own,
                number,
            },
        );
    }
    next
}

fn processor(out: &mut [u8], at: usize) -> usize {
    let at = put(
        out,
        at,
        b"<?xml version=\"1.0\"?><!DOCTYPE target SYSTEM \"gdb-target.dtd\"><target version=\"1.0\">\n\
        <architecture>mips:3000</architecture><osabi>none</osabi>\n\
        <feature name=\"org.gnu.gdb.mips.cpu\">",
    );
    let at = numbered(out, at, 'r', 0);
    put(
        out,
        at,
        b"<reg name=\"lo\" bitsize=\"32\" regnum=\"33\"/><reg name=\"hi\" bitsize=\"32\" regnum=\"34\"/>\
        <reg name=\"pc\" bitsize=\"32\" regnum=\"37\"/></feature>\n\
        <feature name=\"org.gnu.gdb.mips.cp0\"><reg name=\"status\" bitsize=\"32\" regnum=\"32\"/>\
        <reg name=\"badvaddr\" bitsize=\"32\" regnum=\"35\"/><reg name=\"cause\" bitsize=\"32\" regnum=\"36\"/></feature>\n",
    )
}

// There is no floating point: these are always 0.
fn floating(out: &mut [u8], at: usize) -> usize {
    let at = put(out, at, b"<feature name=\"org.gnu.gdb.mips.fpu\">");
    let at = numbered(out, at, 'f', 38);
    put(
        out,
        at,
        b"<reg name=\"fcsr\" bitsize=\"32\" group=\"float\" regnum=\"70\"/>\
        <reg name=\"fir\" bitsize=\"32\" group=\"float\" regnum=\"71\"/></feature>\n",
    )
}

// Those of this machine. A 64-bit clock would be cut to its low half, so it is two. gdb restores next PC behind a call that it made.
fn machine(out: &mut [u8], at: usize) -> usize {
    put(
        out,
        at,
        b"<feature name=\"org.lavushmir.machine\">\
        <reg name=\"nextpc\" bitsize=\"32\" type=\"code_ptr\" group=\"system\" regnum=\"72\"/>\n\
        <reg name=\"epc\" bitsize=\"32\" type=\"code_ptr\" group=\"system\" save-restore=\"no\"/>\n\
        <reg name=\"index\" bitsize=\"32\" type=\"uint32\" group=\"system\" save-restore=\"no\"/>\n\
        <reg name=\"random\" bitsize=\"32\" type=\"uint32\" group=\"system\" save-restore=\"no\"/>\n\
        <reg name=\"entryhi\" bitsize=\"32\" type=\"uint32\" group=\"system\" save-restore=\"no\"/>\n\
        <reg name=\"entrylo\" bitsize=\"32\" type=\"uint32\" group=\"system\" save-restore=\"no\"/>\n\
        <reg name=\"timer\" bitsize=\"32\" type=\"uint32\" group=\"system\" save-restore=\"no\"/>\n\
        <reg name=\"onhand\" bitsize=\"32\" type=\"uint32\" group=\"system\" save-restore=\"no\"/>\n\
        <reg name=\"clock_hi\" bitsize=\"32\" type=\"uint32\" group=\"system\" save-restore=\"no\"/>\n\
        <reg name=\"clock_lo\" bitsize=\"32\" type=\"uint32\" group=\"system\" save-restore=\"no\"/>\n\
        </feature></target>\n",
    )
}

// The whole text, from place 1 on.
fn laid(out: &mut [u8]) -> usize {
    let at = processor(out, 1);
    let at = floating(out, at);
    machine(out, at)
}

// So many bytes of the text, from `offset` on, come to place 1.
fn moved(out: &mut [u8], offset: usize, count: usize)
    requires offset_small { offset < 65536 }
    requires count_small { count < 16384 }
{
    let from = offset + 1;
    if from + count <= out.len() {
        out.copy_within(from..from + count, 1);
    }
}

// The part that gdb asks for: `l` stands before the last, `m` before any other.
pub fn part(out: &mut [u8], offset: u64, most: u64) -> usize {
    let end = laid(out);
    let offset = (offset % 65536) as usize;
    let most = (most % 16384) as usize;
    let left = end.saturating_sub(offset + 1);
    let count = left.min(most);
    let mark = if left <= most { b"l" } else { b"m" };
    let at = put(out, 0, mark);
    moved(out, offset, count);
    at.saturating_add(count)
}
