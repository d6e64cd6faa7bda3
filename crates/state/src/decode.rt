// From bytes to a machine. `body` is the 736 bytes after the length word and the version.
ghost use Rattle.std.specs.Prelude.{◌≡◌, ◌+◌, ◌<◌, length, ◌∷◌};
ghost use Rattle.word.specs.Lists.{tabulate};
ghost use Rattle.state.specs.Layout.{cp0_from, core_from, clock_from, settings_from, journal_from, core_base, clock_base, settings_base, journal_base, slot_base, body_word, row_at, cpu_at, printer_at, line_at, board_at, machine_at, machine_of};

use crate::machine::{Board, Core, Cpu, Journal, Machine, Settings};
use clock::Clock;
use cp0::registers::Cp0;
use printer::{Line, Printer};
use std::array;
use tlb::Row;

fn word(body: &[u8; 736], k: usize) -> u32
    requires { k < 184 }
    ensures { result ≡ body_word body.now k }
{
    word::big::word_at(body, 4 * k)
}

fn registers(body: &[u8; 736]) -> [u32; 32]
    ensures { result ≡ 0 ∷ tabulate 31 (body_word body.now) }
{
    let mut regs = [0u32; 32];
    word::big::get_words(body, &mut regs[1..]);
    regs
}

fn cp0(body: &[u8; 736]) -> Cp0
    ensures { result ≡ cp0_from (core_base + 4) (body_word body.now) }
{
    Cp0 {
        index: word(body, 35),
        random: word(body, 36),
        entry_hi: word(body, 37),
        entry_lo: word(body, 38),
        bad_vaddr: word(body, 39),
        status: word(body, 40),
        cause: word(body, 41),
        epc: word(body, 42),
    }
}

fn core(body: &[u8; 736]) -> Core
    ensures { result ≡ core_from core_base slot_base (body_word body.now) }
{
    Core {
        hi: word(body, 31),
        lo: word(body, 32),
        pc: word(body, 33),
        next_pc: word(body, 34),
        cp0: cp0(body),
        slot: word(body, 124),
        branch: word(body, 125),
    }
}

fn row(body: &[u8; 736], i: usize) -> Row
    requires { i < 16 }
    ensures { result ≡ row_at (body_word body.now) i }
{
    let at = 2 * i + 43;
    Row {
        high: word(body, at),
        low: word(body, at + 1),
    }
}

fn tlb(body: &[u8; 736]) -> [Row; 16]
    ensures { result ≡ tabulate 16 (row_at (body_word body.now)) }
{
    array::from_fn(|i| row(body, i))
}

fn cpu(body: &[u8; 736]) -> Cpu
    ensures { result ≡ cpu_at (body_word body.now) }
{
    Cpu {
        regs: registers(body),
        core: core(body),
        tlb: tlb(body),
    }
}

fn clock(body: &[u8; 736]) -> Clock
    ensures { result ≡ clock_from clock_base (body_word body.now) }
{
    Clock {
        high: word(body, 75),
        low: word(body, 76),
        timer: word(body, 77),
    }
}

fn settings(body: &[u8; 736]) -> Settings
    ensures { result ≡ settings_from settings_base (body_word body.now) }
{
    Settings {
        scale: word(body, 78),
        delay: word(body, 79),
        installed: word(body, 80),
    }
}

fn printer(body: &[u8; 736], i: usize) -> Printer
    requires { i < 8 }
    ensures { result ≡ printer_at (body_word body.now) i }
{
    let at = 5 * i + 81;
    Printer {
        status: word(body, at),
        command: word(body, at + 1),
        data0: word(body, at + 2),
        left: word(body, at + 3),
        count: word(body, at + 4),
    }
}

fn printers(body: &[u8; 736]) -> [Printer; 8]
    ensures { result ≡ tabulate 8 (printer_at (body_word body.now)) }
{
    array::from_fn(|i| printer(body, i))
}

fn line(body: &[u8; 736]) -> Line
    ensures { result ≡ line_at (body_word body.now) }
{
    Line {
        printers: printers(body),
        pending: word(body, 121),
    }
}

fn board(body: &[u8; 736]) -> Board
    ensures { result ≡ board_at (body_word body.now) }
{
    Board {
        clock: clock(body),
        settings: settings(body),
        line: line(body),
    }
}

fn journal(body: &[u8; 736]) -> Journal
    ensures { result ≡ journal_from journal_base (body_word body.now) }
{
    Journal {
        on_hand: word(body, 122),
        next_slot: word(body, 123),
    }
}

fn machine(body: &[u8; 736]) -> Machine
    ensures { result ≡ machine_at (body_word body.now) }
{
    Machine {
        cpu: cpu(body),
        board: board(body),
        journal: journal(body),
    }
}

// The machine that an image of the right length holds.
pub fn decode(image: &[u8]) -> Machine
    requires { length image.now ≡ 741 }
    ensures { result ≡ machine_of image.now }
{
    let Some(body) = image[5..].first_chunk() else {
        unreachable!()
    };
    machine(body)
}
