// Reset: the lent image becomes that of a machine that was just switched on.
#![tactic(auto)]

ghost use Rattle.std.specs.Prelude.{◌≡◌, ℕ, length, replicate};
ghost use Rattle.word.specs.Lists.{tabulate};
ghost use Rattle.word.specs.Map.{bit};
ghost use Rattle.reset.specs.Reset.{fresh_printer, reset_cpu, reset_board, reset_machine, ResetIs};

use answer::lent::any_index_fits;
use answer::{Answer, Done, Reason, Refusal};
use clock::Clock;
use cp0::registers::Cp0;
use printer::{Line, Printer};
use rules::ranges_keep;
use state::IMAGE;
use state::encode::encode;
use state::machine::{Board, Core, Cpu, Journal, Machine, Settings};
use tlb::Row;
use word::map::has_bit;

fn fresh_printer(installed: bool) -> Printer
    ensures { result ≡ fresh_printer installed }
{
    Printer {
        status: u32::from(installed),
        command: 0,
        data0: 0,
        left: 0,
        count: 0,
    }
}

fn fresh_printers(installed: u32) -> [Printer; 8]
    ensures { result ≡ tabulate 8 (λ (k : ℕ). fresh_printer (bit k installed)) }
{
    let absent = fresh_printer(false);
    let mut printers = [absent; 8];
    for (k, printer) in printers.iter_mut().enumerate() {
        *printer = fresh_printer(has_bit(k, installed));
    }
    printers
}

#[tactic(auto, unfolding(crate::specs::Reset::reset_cpu))]
fn reset_cpu() -> Cpu
    ensures { result ≡ reset_cpu }
{
    let regs = [0u32; 32];
    let cp0 = Cp0 {
        index: 0,
        random: 0xF00,
        entry_hi: 0,
        entry_lo: 0,
        bad_vaddr: 0,
        status: 0x1040_0000,
        cause: 0,
        epc: 0,
    };
    let core = Core {
        hi: 0,
        lo: 0,
        pc: 0x1FC0_0000,
        next_pc: 0x1FC0_0004,
        cp0,
        slot: 0,
        branch: 0,
    };
    let empty = Row { high: 0, low: 0 };
    let tlb = [empty; 16];
    Cpu { regs, core, tlb }
}

#[tactic(auto, unfolding(crate::specs::Reset::reset_board))]
fn reset_board(scale: u32, delay: u32, installed: u32) -> Board
    ensures { result ≡ reset_board scale delay installed }
{
    let clock = Clock {
        high: 0,
        low: 0,
        timer: 0xFFFF_FFFF,
    };
    let settings = Settings {
        scale,
        delay,
        installed,
    };
    let printers = fresh_printers(installed);
    let line = Line {
        printers,
        pending: 0,
    };
    Board {
        clock,
        settings,
        line,
    }
}

#[tactic(auto, unfolding(crate::specs::Reset::reset_machine))]
fn reset_machine(scale: u32, delay: u32, installed: u32) -> Machine
    ensures { result ≡ reset_machine scale delay installed }
{
    let cpu = reset_cpu();
    let board = reset_board(scale, delay, installed);
    let journal = Journal {
        on_hand: 0,
        next_slot: 0,
    };
    Machine {
        cpu,
        board,
        journal,
    }
}

// No frame has a last change. A host that writes to RAM empties the journal, and the index with it.
pub fn empty(index: &mut [u8])
    ensures { index.new ≡ replicate (length index.old) 0 }
{
    index.fill(0);
}

pub fn reset(image: &mut [u8], index: &mut [u8], scale: u64, delay: u64, installed: u64) -> Answer
    ensures { ResetIs image.old index.old scale delay installed result image.new index.new }
{
    if image.len() != IMAGE {
        return Err(Refusal::Image);
    }
    if !ranges_keep(scale, delay, installed) {
        return Err(Refusal::Range);
    }
    if !any_index_fits(index.len()) {
        return Err(Refusal::Index);
    }
    let m = reset_machine(scale as u32, delay as u32, installed as u32);
    encode(m, image);
    empty(index);
    Ok(Done {
        steps: 0,
        reason: Reason::NoReason,
    })
}
