// From bytes to a record: any 512 bytes give one. Whether they keep the layout is asked in `keeps`.
ghost use Rattle.std.specs.Prelude.{◌≡◌, ◌<◌, length};
ghost use Rattle.word.specs.Lists.{tabulate};
ghost use Rattle.state.specs.Layout.{cp0_from, core_from};
ghost use Rattle.record.specs.Layout.{slot_word, paper_at, saved_at, printer_at, record_of};

use crate::{KIND, OLD, PC, PLACE, RAM, REGISTER, Record, Saved, TLB_ROW};
use cp0::registers::Cp0;
use memory::load_word;
use memory::words::put_words;
use printer::Printer;
use printer::saved::SavedPaper;
use state::machine::Core;
use std::array;
use tlb::Row;

pub fn word(slot: &[u8], k: usize) -> u32
    requires slot_len { length slot.now ≡ 512 }
    requires k_bound { k < 128 }
    ensures { result ≡ slot_word slot.now k }
{
    load_word(slot, 4 * k)
}

fn cp0(slot: &[u8]) -> Cp0
    requires { length slot.now ≡ 512 }
    ensures { result ≡ cp0_from 4 (slot_word slot.now) }
{
    Cp0 {
        index: word(slot, 4),
        random: word(slot, 5),
        entry_hi: word(slot, 6),
        entry_lo: word(slot, 7),
        bad_vaddr: word(slot, 8),
        status: word(slot, 9),
        cause: word(slot, 10),
        epc: word(slot, 11),
    }
}

fn core(slot: &[u8]) -> Core
    requires { length slot.now ≡ 512 }
    ensures { result ≡ core_from 0 12 (slot_word slot.now) }
{
    Core {
        hi: word(slot, 0),
        lo: word(slot, 1),
        pc: word(slot, PC),
        next_pc: word(slot, 3),
        cp0: cp0(slot),
        slot: word(slot, 12),
        branch: word(slot, 13),
    }
}

pub fn paper(slot: &[u8]) -> SavedPaper
    requires { length slot.now ≡ 512 }
    ensures { result ≡ paper_at (slot_word slot.now) }
{
    let words = [word(slot, 17), word(slot, 18)];
    let mut bytes = [0u8; 8];
    put_words(&words, &mut bytes, 0);
    SavedPaper {
        mask: word(slot, 16),
        bytes,
    }
}

fn saved_by(kind: u32, which: u32, first: u32, second: u32) -> Saved
    ensures { result ≡ saved_at kind which first second }
{
    let row = Row {
        high: first,
        low: second,
    };
    match kind {
        REGISTER => Saved::Register(which, first),
        TLB_ROW => Saved::TlbRow(which, row),
        RAM => Saved::RamWord(which, first, second),
        _ => Saved::Nothing,
    }
}

// What the record that a slot holds saved: all that the index asks of it.
pub fn saved(slot: &[u8]) -> Saved
    requires { length slot.now ≡ 512 }
    ensures { result ≡ (record_of slot.now).saved }
{
    saved_by(
        word(slot, KIND),
        word(slot, PLACE),
        word(slot, OLD),
        word(slot, 62),
    )
}

fn printer(slot: &[u8], i: usize) -> Printer
    requires slot_len { length slot.now ≡ 512 }
    requires i_bound { i < 8 }
    ensures { result ≡ printer_at (slot_word slot.now) i }
{
    let at = 5 * i + 19;
    Printer {
        status: word(slot, at),
        command: word(slot, at + 1),
        data0: word(slot, at + 2),
        left: word(slot, at + 3),
        count: word(slot, at + 4),
    }
}

fn printers(slot: &[u8]) -> [Printer; 8]
    requires { length slot.now ≡ 512 }
    ensures { result ≡ tabulate 8 (printer_at (slot_word slot.now)) }
{
    array::from_fn(|i| printer(slot, i))
}

// The record that a slot holds.
pub fn decode(slot: &[u8]) -> Record
    requires { length slot.now ≡ 512 }
    ensures { result ≡ record_of slot.now }
{
    Record {
        core: core(slot),
        timer: word(slot, 14),
        pending: word(slot, 15),
        paper: paper(slot),
        saved: saved(slot),
        printers: printers(slot),
    }
}
