// Undoing a record, part by part.
ghost use Rattle.std.specs.Prelude.{◌≡◌, true, length};
ghost use Rattle.record.specs.Keeps.{saved_ranged};
ghost use Rattle.step.specs.World.{world_in};
ghost use Rattle.undo.specs.Undo.{regs_back, rows_back, ram_back, clock_back, cpu_back, board_back, machine_back, undo_of};
ghost use Rattle.undo.specs.Fit.{ram_place_fits, Undoable};

use clock::Clock;
use memory::store_word;
use printer::Line;
use printer::saved::restore_paper;
use record::{Record, Saved};
use state::machine::{Board, Cpu, Machine};
use tlb::Row;

fn regs_back(s: Saved, regs: [u32; 32]) -> [u32; 32]
    requires { saved_ranged s ≡ true }
    ensures { result ≡ regs_back s regs }
{
    let mut back = regs;
    if let Saved::Register(n, old) = s {
        back[n as usize] = old;
    }
    back
}

fn rows_back(s: Saved, rows: [Row; 16]) -> [Row; 16]
    requires { saved_ranged s ≡ true }
    ensures { result ≡ rows_back s rows }
{
    let mut back = rows;
    if let Saved::TlbRow(i, row) = s {
        back[i as usize] = row;
    }
    back
}

fn ram_back(s: Saved, ram: &mut [u8])
    requires { ram_place_fits s (length ram.old) ≡ true }
    ensures { ram.new ≡ ram_back s ram.old }
{
    if let Saved::RamWord(place, old, _) = s {
        store_word(ram, place as usize, old);
    }
}

// The clock goes down by one and wraps.
fn clock_back(c: Clock, timer: u32) -> Clock
    ensures { result ≡ clock_back timer c }
{
    let time = (c.high as u64) * 0x1_0000_0000 + c.low as u64;
    let before = time.wrapping_sub(1);
    Clock {
        high: (before / 0x1_0000_0000) as u32,
        low: (before % 0x1_0000_0000) as u32,
        timer,
    }
}

fn cpu_back(r: Record, c: Cpu) -> Cpu
    requires { saved_ranged r.saved ≡ true }
    ensures { result ≡ cpu_back r c }
{
    Cpu {
        regs: regs_back(r.saved, c.regs),
        core: r.core,
        tlb: rows_back(r.saved, c.tlb),
    }
}

fn board_back(r: Record, b: Board) -> Board
    ensures { result ≡ board_back r b }
{
    let printers = r.printers;
    Board {
        clock: clock_back(b.clock, r.timer),
        line: Line {
            printers,
            pending: r.pending,
        },
        ..b
    }
}

// The machine before the step. On hand and next slot stay.
pub fn machine_back(r: Record, m: Machine) -> Machine
    requires { saved_ranged r.saved ≡ true }
    ensures { result ≡ machine_back r m }
{
    Machine {
        cpu: cpu_back(r, m.cpu),
        board: board_back(r, m.board),
        ..m
    }
}

// The machine, RAM and paper as they were before the step that wrote the record.
pub fn undo(r: Record, m: Machine, ram: &mut [u8], paper: &mut [u8]) -> Machine
    requires { Undoable r (length ram.old) }
    ensures { (result ≡ machine_back r m)
        × (world_in result ram.new paper.new ≡ undo_of r (world_in m ram.old paper.old)) }
{
    ram_back(r.saved, ram);
    restore_paper(r.paper, r.printers, paper);
    machine_back(r, m)
}
