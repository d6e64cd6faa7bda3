// From a machine to bytes.
ghost use Rattle.std.specs.Prelude.{◌≡◌, ◌∷◌, ◌++◌, length, drop};
ghost use Rattle.std.proofs.lemmas.List.Edits.{sets};
ghost use Rattle.word.specs.Lists.{flat};
ghost use Rattle.word.specs.Big.{word_bytes};
ghost use Rattle.state.specs.Layout.{header, core_words, row_words, clock_words, settings_words, printer_words, journal_words, slot_words, no_disks, bytes_of};

use crate::machine::{Core, Journal, Machine, Settings};
use clock::Clock;
use printer::Printer;
use tlb::Row;

// The length word and the version.
fn put_header(image: &mut [u8])
    requires { length image.old ≡ 741 }
    ensures { image.new ≡ sets image.old 0 header }
{
    word::big::put_word(image, 0, 737);
    image[4] = 3;
}

fn core_words(c: Core) -> [u32; 12]
    ensures { result ≡ core_words c }
{
    let p = c.cp0;
    [
        c.hi,
        c.lo,
        c.pc,
        c.next_pc,
        p.index,
        p.random,
        p.entry_hi,
        p.entry_lo,
        p.bad_vaddr,
        p.status,
        p.cause,
        p.epc,
    ]
}

fn clock_words(c: Clock, s: Settings) -> [u32; 6]
    ensures { result ≡ clock_words c ++ settings_words s }
{
    [c.high, c.low, c.timer, s.scale, s.delay, s.installed]
}

fn last_words(pending: u32, j: Journal, c: Core) -> [u32; 5]
    ensures { result ≡ pending ∷ (journal_words j ++ slot_words c) }
{
    [pending, j.on_hand, j.next_slot, c.slot, c.branch]
}

// Stays: one function for rows and printers would give an array whose size is a product, which Rattle has not.
pub fn row_words(rows: [Row; 16]) -> [u32; 32]
    ensures { result ≡ flat row_words rows }
{
    let mut words = [0u32; 32];
    for (i, row) in rows.iter().enumerate() {
        words[2 * i] = row.high;
        words[2 * i + 1] = row.low;
    }
    words
}

pub fn printer_words(printers: [Printer; 8]) -> [u32; 40]
    ensures { result ≡ flat printer_words printers }
{
    let mut words = [0u32; 40];
    for (i, p) in printers.iter().enumerate() {
        words[5 * i] = p.status;
        words[5 * i + 1] = p.command;
        words[5 * i + 2] = p.data0;
        words[5 * i + 3] = p.left;
        words[5 * i + 4] = p.count;
    }
    words
}

// The header, and the words up to the translation table's.
fn put_front(regs: [u32; 32], core: [u32; 12], rows: [u32; 32], image: &mut [u8])
    requires { length image.old ≡ 741 }
    ensures { image.new ≡ sets image.old 0 (header ++ flat word_bytes (drop 1 regs ++ (core ++ rows))) }
{
    put_header(image);
    word::big::put_words(&regs[1..], image, 5);
    word::big::put_words(&core, image, 129);
    word::big::put_words(&rows, image, 177);
}

// The words from the clock on.
fn put_back(clock: [u32; 6], printers: [u32; 40], last: [u32; 5], image: &mut [u8])
    requires { length image.old ≡ 741 }
    ensures { image.new ≡ sets image.old 305 (flat word_bytes (clock ++ (printers ++ (last ++ no_disks)))) }
{
    let none = [0u32; 58];
    word::big::put_words(&clock, image, 305);
    word::big::put_words(&printers, image, 329);
    word::big::put_words(&last, image, 489);
    word::big::put_words(&none, image, 509);
}

// Lays a machine down in an image of the right length.
pub fn encode(m: Machine, image: &mut [u8])
    requires { length image.old ≡ 741 }
    ensures { image.new ≡ bytes_of m }
{
    let Machine {
        cpu,
        board,
        journal,
    } = m;
    put_front(cpu.regs, core_words(cpu.core), row_words(cpu.tlb), image);
    let clock = clock_words(board.clock, board.settings);
    let last = last_words(board.line.pending, journal, cpu.core);
    put_back(clock, printer_words(board.line.printers), last, image);
}
