// The run loop. It holds the machine's parts as locals, so that no step copies them all: the registers, and as words the core and the printers, are lent to each step
// and changed where they stand; the translation table is passed by value to what asks it, and handed back whole where a row is written.
#![tactic(auto)]

ghost use Rattle.std.specs.Prelude.{◌≡◌};
ghost use Rattle.turn.specs.Buffers.{beside_of};
ghost use Rattle.run.specs.Run.{Fits, RunIs};
ghost use Rattle.run.specs.Spin.{parts_of, machine_of, Ready, SpinIs};

use decide::effect::Effect;
use decide::step::decide;
use held::core_words::{core_in, core_words};
use held::{Held, packed, unpacked};
use look::{Stop, looked, next_look};
use pages::{Pages, follow};
use printer::Line;
use state::machine::{Board, Cpu, Machine, Settings};
use step::saved::old_row;
use tlb::Row;
use turn::{Parts, finish, start};

#[derive(Clone, Copy)]
pub struct Outcome {
    pub machine: Machine,
    pub steps: u32,
    pub why: Stop,
}

#[derive(Clone, Copy)]
pub struct Spun {
    pub parts: Parts,
    pub steps: u32,
    pub why: Stop,
}

fn opened(machine: Machine) -> Parts
    ensures { result ≡ parts_of machine }
{
    let cpu = machine.cpu;
    let core = core_words(cpu.core);
    let regs = cpu.regs;
    let rows = cpu.tlb;
    let board = machine.board;
    let clock = board.clock;
    let line = board.line;
    let printers = line.printers;
    let held = Held {
        clock,
        pending: line.pending,
        soon: 1,
    };
    let words = packed(printers);
    let mark = machine.journal;
    Parts {
        core,
        held,
        regs,
        rows,
        words,
        mark,
    }
}

fn closed(parts: Parts, settings: Settings) -> Machine
    ensures { result ≡ machine_of parts settings }
{
    let held = parts.held;
    let clock = held.clock;
    let words = parts.words;
    let printers = unpacked(&words);
    let line = Line {
        printers,
        pending: held.pending,
    };
    let regs = parts.regs;
    let fourteen = parts.core;
    let core = core_in(&fourteen);
    let tlb = parts.rows;
    let journal = parts.mark;
    Machine {
        cpu: Cpu { regs, core, tlb },
        board: Board {
            clock,
            settings,
            line,
        },
        journal,
    }
}

fn spin(
    parts: Parts,
    settings: Settings,
    execution: &[u8],
    bootstrap: &[u8],
    ram: &mut [u8],
    paper: &mut [u8],
    journal: &mut [u8],
    index: &mut [u8],
    budget: u32,
    stop: bool,
) -> Spun
    requires { Ready parts (beside_of execution.now bootstrap.now ram.old paper.old journal.old index.old) }
    ensures { SpinIs budget stop settings parts
        (beside_of execution.now bootstrap.now ram.old paper.old journal.old index.old)
        result
        (beside_of execution.now bootstrap.now ram.new paper.new journal.new index.new) }
{
    let mut core = parts.core;
    let mut held = parts.held;
    let mut regs = parts.regs;
    let mut rows = parts.rows;
    let mut words = parts.words;
    let mut mark = parts.mark;
    let mut pages = Pages {
        fetches: None,
        accesses: None,
    };
    let mut steps: u32 = 0;
    let mut limit = next_look(rows, steps, budget);
    let why = loop {
        let look = looked(
            steps, limit, budget, &core, held, &words, &regs, rows, execution, bootstrap, ram,
        );
        if look.ends {
            break look.why;
        }
        limit = look.limit;
        let after = start(&mut core, held, settings, &mut words, paper, journal, mark);
        let now = core_in(&core);
        let cp0 = now.cp0;
        follow(
            &mut pages,
            cp0.status,
            cp0.entry_hi,
            now.pc,
            &regs,
            rows,
            ram,
        );
        let d = decide(now, &regs, rows, &pages, execution, bootstrap, ram);
        let effect = d.effect;
        let old = old_row(effect, rows);
        let turned = finish(
            &mut core, after, settings, &mut words, d, old, &mut regs, execution, bootstrap, ram,
            journal, mark, index,
        );
        held = turned.held;
        mark = turned.mark;
        steps = steps + 1;
        match effect {
            Effect::Raise(_) => {
                if stop {
                    break Stop::Exception;
                }
            }
            Effect::TlbRow(i, high, low) => {
                let written = tlb::write(rows, i as usize, Row { high, low });
                rows = written;
                pages = Pages {
                    fetches: None,
                    accesses: None,
                };
                limit = next_look(rows, steps, budget);
            }
            Effect::Nothing => {}
            Effect::Register(_, _) => {}
            Effect::HiLo(_, _) => {}
            Effect::Control(_, _) => {}
            Effect::Entry(_) => {}
            Effect::Ram(_, _) => {}
            Effect::DeviceLoad(_, _) => {}
            Effect::DeviceStore(_, _) => {}
        }
    };
    Spun {
        parts: Parts {
            core,
            held,
            regs,
            rows,
            words,
            mark,
        },
        steps,
        why,
    }
}

pub fn run(
    machine: Machine,
    execution: &[u8],
    bootstrap: &[u8],
    ram: &mut [u8],
    paper: &mut [u8],
    journal: &mut [u8],
    index: &mut [u8],
    budget: u32,
    stop: bool,
) -> Outcome
    requires { Fits (beside_of execution.now bootstrap.now ram.old paper.old journal.old index.old) machine }
    ensures { RunIs budget stop machine
        (beside_of execution.now bootstrap.now ram.old paper.old journal.old index.old)
        result
        (beside_of execution.now bootstrap.now ram.new paper.new journal.new index.new) }
{
    let board = machine.board;
    let settings = board.settings;
    let parts = opened(machine);
    let spun = spin(
        parts, settings, execution, bootstrap, ram, paper, journal, index, budget, stop,
    );
    let left = spun.parts;
    let after = closed(left, settings);
    let why = spun.why;
    Outcome {
        machine: after,
        steps: spun.steps,
        why,
    }
}
