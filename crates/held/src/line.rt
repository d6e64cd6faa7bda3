// The printers' line where a run holds it: each printer is looked at and put back at its place among the forty words, and those that stand still are not written.
ghost use Rattle.std.specs.Prelude.{◌≡◌, ℕ, ◌-◌, ◌<◌, ◌≤◌, true, length, if◌then◌else◌, ◌==◌, nat_eq};
ghost use Rattle.printer.specs.Tick.{any_ending};
ghost use Rattle.printer.specs.Saved.{saved_paper_of};
ghost use Rattle.held.specs.Board.{printer_in, printers_in, Waits, least_of};
ghost use Rattle.held.specs.Line.{OneHeldIs, TicksIs, GoesOn, WaitIs, WaitsIs, CommandIs, DataIs, kept_at};

use crate::{printer_in, put_printer};
use device::writes::takes_writes;
use printer::command::{commanded, is_illegal};
use printer::saved::{SavedPaper, saved_byte};
use printer::tick::{pending_on, tick_one};
use printer::{BUSY, Printer};
use word::map::with_bit;

// The tick of printer `n`: whether it finished. Of one that goes on, only the ticks left are written.
fn tick_at(words: &mut [u32; 40], n: usize, paper: &mut [u8]) -> bool
    requires { (n < 8) × (length words.old ≡ 40) × (length paper.old ≤ 65536) }
    ensures { OneHeldIs n words.old paper.old result words.new paper.new }
{
    let p = printer_in(words, n);
    if p.status != BUSY {
        return false;
    }
    if 1 < p.left {
        words[5 * n + 3] = p.left - 1;
        return false;
    }
    let one = tick_one(n, p, paper);
    put_printer(one.printer, words, 5 * n);
    one.finished
}

// The tick of all eight: the pending map after it.
// Stays: `n` here, in `wait`, `soon_in` and `saved_paper` names a printer's five words, and no element is walked that an iterator could give.
pub fn tick(words: &mut [u32; 40], pending: u32, paper: &mut [u8]) -> u32
    requires { (length words.old ≡ 40) × (length paper.old ≤ 65536) }
    ensures { TicksIs words.old pending paper.old result words.new paper.new }
{
    let mut map = pending;
    for n in 0..8 {
        let finished = tick_at(words, n, paper);
        map = pending_on(n, finished, map);
    }
    map
}

// The ticks left after a tick that does not end.
fn waited(status: u32, left: u32) -> u32
    requires { (status == 3) ≡ true → 1 ≤ left }
    ensures { result ≡ (if nat_eq status 3 then left - 1 else left) }
{
    if status == BUSY {
        return left - 1;
    }
    left
}

// The tick of printer `n`, which does not end by it.
fn wait_at(words: &mut [u32; 40], n: usize)
    requires { (n < 8) × (length words.old ≡ 40) × GoesOn words.old n }
    ensures { WaitIs n words.old words.new }
{
    words[5 * n + 3] = waited(words[5 * n], words[5 * n + 3]);
}

// The tick of all eight, none of which ends by it: no paper and no map is asked for.
pub fn wait(words: &mut [u32; 40])
    requires { (length words.old ≡ 40) × ((n : ℕ) → n < 8 → GoesOn words.old n) }
    ensures { WaitsIs words.old words.new }
{
    for n in 0..8 {
        wait_at(words, n);
    }
}

// `soon` with printer `n` in mind.
fn least(words: &[u32; 40], n: usize, soon: u32) -> u32
    requires { n < 8 }
    ensures { result ≡ least_of (printer_in words.now n) soon }
{
    let left = words[5 * n + 3];
    if words[5 * n] != BUSY {
        return soon;
    }
    if left <= 1 {
        return 1;
    }
    if soon == 0 {
        return left;
    }
    left.min(soon)
}

// In how many ticks the next printer ends; 0 where none works.
pub fn soon_in(words: &[u32; 40]) -> u32
    ensures { Waits result words.now }
{
    let mut soon: u32 = 0;
    for n in 0..8 {
        soon = least(words, n, soon);
    }
    soon
}

// Whether a printer finishes at the next tick.
pub fn ending_in(words: &[u32; 40]) -> bool
    ensures { result ≡ any_ending (printers_in words.now) }
{
    (0..8).any(|n| (words[5 * n] == BUSY) & (words[5 * n + 3] <= 1))
}

// A write to COMMAND: the pending map after it.
pub fn command(
    words: &mut [u32; 40],
    pending: u32,
    installed: u32,
    delay: u32,
    n: usize,
    word: u32,
) -> u32
    requires { (n < 8) × (length words.old ≡ 40) }
    ensures { CommandIs installed delay n word words.old pending result words.new }
{
    let p = printer_in(words, n);
    if !takes_writes(n, installed, p.status == BUSY) {
        return pending;
    }
    put_printer(commanded(p, word, delay), words, 5 * n);
    with_bit(n, is_illegal(word), pending)
}

// A write to DATA0.
pub fn data(words: &mut [u32; 40], installed: u32, n: usize, word: u32)
    requires { (n < 8) × (length words.old ≡ 40) }
    ensures { DataIs installed n word words.old words.new }
{
    let p = printer_in(words, n);
    if takes_writes(n, installed, p.status == BUSY) {
        put_printer(Printer { data0: word, ..p }, words, 5 * n);
    }
}

// The byte that printer `n` overwrites in this step, if it prints. Of one that goes on, only the ticks left are looked at.
fn saved_at(words: &[u32; 40], n: usize, paper: &[u8]) -> Option<u8>
    requires { n < 8 }
    ensures { result ≡ kept_at n words.now paper.now }
{
    if 1 < words[5 * n + 3] {
        return None;
    }
    saved_byte(n, printer_in(words, n), paper)
}

// What a record keeps of paper.
pub fn saved_paper(words: &[u32; 40], paper: &[u8]) -> SavedPaper
    ensures { result ≡ saved_paper_of (printers_in words.now) paper.now }
{
    let mut mask: u32 = 0;
    let mut bytes = [0u8; 8];
    for n in 0..8 {
        let byte = saved_at(words, n, paper);
        mask = with_bit(n, byte.is_some(), mask);
        bytes[n] = byte.unwrap_or(0);
    }
    SavedPaper { mask, bytes }
}
