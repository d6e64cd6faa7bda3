// The effect of a decision on registers, RAM and the printers' words, in place, and on the rest by value. A row of the table is the caller's to change: it holds the
// table as a local and touches it only where the effect says so.
ghost use Rattle.std.specs.Prelude.{◌≡◌, ◌+◌, ◌<◌, ◌≤◌, length, Some};
ghost use Rattle.bus.specs.Stored.{InLine};
ghost use Rattle.bus.specs.Words.{bus_word_of};
ghost use Rattle.cp0.specs.Entry.{entered_of};
ghost use Rattle.cp0.specs.Registers.{with_register};
ghost use Rattle.state.specs.Slot.{in_slot, return_of, slot_after};
ghost use Rattle.isa.specs.declared.instr.ControlRegister.TheVariants.{Cause};
ghost use Rattle.held.specs.Board.{printers_in, Told};
ghost use Rattle.held.specs.Core.{core_in};
ghost use Rattle.step.specs.Apply.{with_hi_lo, with_cp0, with_pc};
ghost use Rattle.step.specs.Parts.{regs_after, ram_after, core_after};
ghost use Rattle.step.specs.Held.{StoredIs, HeldIs, ApplyIs};
ghost use Rattle.decide.specs.Range.{Within};

use board::places::Sizes;
use bus::read::Bus;
use bus::store::{Store, cause_stored, write};
use clock::Clock;
use cp0::entry::{Exception, entered};
use cp0::registers::{Cp0, with_entry, with_register};
use decide::effect::{Decision, Effect};
use held::core_words::{core_in, put_core};
use held::line::{command, data};
use held::{Held, printer_in};
use isa::instr::ControlRegister;
use printer::BUSY;
use state::machine::{Core, Settings};
use state::slot::{in_slot, return_of};

// What LW reads. Of the printers only the one that the offset names is looked at, and where it stands: code that took them all would keep all forty words apart,
// and move each of them at every step.
fn device_word(bus: Bus, words: &[u32; 40], offset: u32) -> u32
    ensures { result ≡ bus_word_of bus (printers_in words.now) offset }
{
    let n = (offset as usize / 0x10 + 3) % 8;
    let named = printer_in(words, n);
    bus::read::read(bus, [named; 8], offset)
}

pub fn write_back(effect: Effect, bus: Bus, words: &[u32; 40], regs: &mut [u32; 32], ram: &mut [u8])
    requires { Within (length ram.old) 16 effect }
    ensures { (regs.new ≡ regs_after bus (printers_in words.now) effect regs.old)
        × (ram.new ≡ ram_after effect ram.old) }
{
    match effect {
        Effect::Register(d, word) => {
            let at = d as usize;
            regs[at] = word;
        }
        Effect::DeviceLoad(d, offset) => {
            let at = d as usize;
            regs[at] = device_word(bus, words, offset);
        }
        Effect::Ram(at, word) => memory::store_word(ram, at as usize, word),
        _ => {}
    }
}

fn with_cp0(c: Core, cp0: Cp0) -> Core
    ensures { result ≡ with_cp0 cp0 c }
{
    Core { cp0, ..c }
}

fn with_hi_lo(c: Core, hi: u32, lo: u32) -> Core
    ensures { result ≡ with_hi_lo hi lo c }
{
    Core { hi, lo, ..c }
}

// `pending` is the printers' map after the effect. Only what an arm changes is written.
pub fn move_core(core: &mut [u32; 14], effect: Effect, pending: u32)
    ensures { core_in core.new ≡ core_after pending effect (core_in core.old) }
{
    let c = core_in(core);
    match effect {
        Effect::HiLo(hi, lo) => put_core(with_hi_lo(c, hi, lo), core),
        Effect::Control(register, word) => {
            put_core(with_cp0(c, with_register(c.cp0, register, word)), core)
        }
        Effect::Entry(row) => put_core(with_cp0(c, with_entry(c.cp0, row.high, row.low)), core),
        Effect::DeviceStore(offset, word) => put_core(stored_lines(c, offset, word, pending), core),
        Effect::Raise(e) => put_core(raised(c, e), core),
        _ => {}
    }
}

fn raised(c: Core, e: Exception) -> Core
    ensures { result ≡ with_cp0 (entered_of e (in_slot c) (return_of c) c.cp0) c }
{
    with_cp0(c, entered(c.cp0, e, in_slot(c), return_of(c)))
}

fn stored_lines(c: Core, offset: u32, word: u32, pending: u32) -> Core
    ensures { result ≡ core_after pending (Effect.DeviceStore offset word) c }
{
    let cp0 = c.cp0;
    let cause = cause_stored(write(offset, word), pending, cp0.cause);
    with_cp0(c, with_register(cp0, ControlRegister::Cause, cause))
}

pub fn with_pc(c: Core, pc: u32, next_pc: u32, branched: bool) -> Core
    ensures { result ≡ with_pc pc next_pc (slot_after branched c) }
{
    if branched {
        return Core {
            pc,
            next_pc,
            slot: 1,
            branch: c.pc,
            ..c
        };
    }
    Core {
        pc,
        next_pc,
        slot: 0,
        branch: 0,
        ..c
    }
}

// A store in the device area, on the parts that a run holds.
fn stored(s: Option<Store>, held: Held, settings: Settings, words: &mut [u32; 40]) -> Held
    requires in_line { InLine s }
    requires told { Told held words.old }
    ensures { StoredIs settings s held words.old result words.new }
{
    match s {
        None => held,
        Some(Store::Timer(word)) => timed(held, word),
        Some(Store::Command(n, word)) => commanded(held, settings, words, n, word),
        Some(Store::Data(n, word)) => written(held, settings, words, n, word),
    }
}

fn timed(held: Held, timer: u32) -> Held
    ensures { result ≡ record { clock = record { high = held.clock.high; low = held.clock.low; timer = timer }; pending = held.pending; soon = held.soon } }
{
    Held {
        clock: Clock {
            timer,
            ..held.clock
        },
        ..held
    }
}

// A printer at work takes no command.
fn commanded(held: Held, settings: Settings, words: &mut [u32; 40], n: usize, word: u32) -> Held
    requires n_bound { n < 8 }
    requires told { Told held words.old }
    ensures { StoredIs settings (Some (Store.Command n word)) held words.old result words.new }
{
    if words[5 * n] == BUSY {
        return held;
    }
    let pending = command(
        words,
        held.pending,
        settings.installed,
        settings.delay,
        n,
        word,
    );
    Held {
        pending,
        soon: 1,
        ..held
    }
}

// DATA0 leaves every STATUS, and the ticks left.
fn written(held: Held, settings: Settings, words: &mut [u32; 40], n: usize, word: u32) -> Held
    requires n_bound { n < 8 }
    requires told { Told held words.old }
    ensures { StoredIs settings (Some (Store.Data n word)) held words.old result words.new }
{
    data(words, settings.installed, n, word);
    held
}

fn store_device(
    offset: u32,
    word: u32,
    held: Held,
    settings: Settings,
    words: &mut [u32; 40],
) -> Held
    requires { Told held words.old }
    ensures { HeldIs settings (Effect.DeviceStore offset word) held words.old result words.new }
{
    stored(write(offset, word), held, settings, words)
}

fn held_after(effect: Effect, held: Held, settings: Settings, words: &mut [u32; 40]) -> Held
    requires { Told held words.old }
    ensures { HeldIs settings effect held words.old result words.new }
{
    match effect {
        Effect::DeviceStore(offset, word) => store_device(offset, word, held, settings, words),
        _ => held,
    }
}

// A row of the table is the caller's to set, where the effect says so.
pub fn applied(
    core: &mut [u32; 14],
    held: Held,
    settings: Settings,
    words: &mut [u32; 40],
    d: Decision,
    sizes: Sizes,
    regs: &mut [u32; 32],
    ram: &mut [u8],
) -> Held
    requires within { Within (length ram.old) 16 d.effect }
    requires told { Told held words.old }
    ensures { ApplyIs settings sizes d core.old held words.old regs.old ram.old result
        core.new words.new regs.new ram.new }
{
    let effect = d.effect;
    let clock = held.clock;
    let bus = Bus {
        sizes,
        clock,
        scale: settings.scale,
        installed: settings.installed,
        pending: held.pending,
    };
    write_back(effect, bus, words, regs, ram);
    let next = held_after(effect, held, settings, words);
    move_core(core, effect, next.pending);
    let moved = core_in(core);
    put_core(with_pc(moved, d.pc, d.next_pc, d.branched), core);
    next
}
