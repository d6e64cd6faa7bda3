// What an intent then changes: the PC pair and the effect.
ghost use Rattle.std.specs.Prelude.{◌≡◌};
ghost use Rattle.intend.specs.Operand.{reg_of};
ghost use Rattle.state.specs.Layout.{HoldsZero};
ghost use Rattle.decide.specs.Lent.{lent_of};
ghost use Rattle.decide.specs.Settle.{
  on_of,
  raised_of,
  refused_of,
  trapped_of,
  to_register,
  read_of,
  loads_of,
  stores_of,
  loaded_of,
  stored_of,
  written_of,
  branched_of,
  settle_of,
};
ghost use Rattle.decide.specs.Range.{Held, Asks};

use crate::effect::{Decision, Effect};
use crate::lent::word_in;
use crate::part::{load_part, store_part};
use board::places::Place;
use cp0::entry::{Exception, vector};
use intend::intent::Intent;
use intend::operand::{after, reg};
use isa::instr::{LoadOp, StoreOp};
use reach::{Fault, Reached};
use state::machine::Core;

fn on(core: Core, effect: Effect) -> Decision
    ensures { result ≡ on_of core effect }
{
    Decision {
        pc: core.next_pc,
        next_pc: after(core.next_pc),
        branched: false,
        effect,
    }
}

pub fn raised(core: Core, exception: Exception) -> Decision
    ensures { result ≡ raised_of core exception }
{
    let pc = vector(core.cp0.status, exception.miss);
    Decision {
        pc,
        next_pc: after(pc),
        branched: false,
        effect: Effect::Raise(exception),
    }
}

pub fn refused(core: Core, fault: Fault, address: u32) -> Decision
    ensures { result ≡ refused_of core fault.code fault.miss address }
{
    raised(
        core,
        Exception {
            code: fault.code,
            coprocessor: 0,
            address,
            miss: fault.miss,
        },
    )
}

pub fn trapped(core: Core, code: u32, coprocessor: u32) -> Decision
    ensures { result ≡ trapped_of core code coprocessor }
{
    raised(
        core,
        Exception {
            code,
            coprocessor,
            address: 0,
            miss: false,
        },
    )
}

fn to_register(d: u32, effect: Effect) -> Effect
    ensures { result ≡ to_register d effect }
{
    if d == 0 {
        return Effect::Nothing;
    }
    effect
}

fn read(op: LoadOp, d: u32, old: u32, word: u32, at: u32) -> Effect
    ensures { result ≡ read_of op d old word at }
{
    to_register(d, Effect::Register(d, load_part(op, old, word, at)))
}

fn loads(op: LoadOp, d: u32, old: u32, word: u32, place: Place) -> Effect
    ensures { result ≡ loads_of op d old word place }
{
    match place {
        Place::Ram(at) | Place::Execution(at) | Place::Bootstrap(at) => {
            read(op, d, old, word, at)
        }
        Place::Device(at) => to_register(d, Effect::DeviceLoad(d, at)),
    }
}

fn stores(op: StoreOp, x: u32, word: u32, place: Place) -> Effect
    ensures { result ≡ stores_of op x word place }
{
    match place {
        Place::Ram(at) => Effect::Ram(at / 4 * 4, store_part(op, x, word, at)),
        Place::Execution(_) | Place::Bootstrap(_) => Effect::Nothing,
        Place::Device(at) => Effect::DeviceStore(at, x),
    }
}

fn loaded(
    op: LoadOp,
    d: u32,
    va: u32,
    reached: Reached,
    core: Core,
    regs: &[u32; 32],
    execution: &[u8],
    bootstrap: &[u8],
    ram: &[u8],
) -> Decision
    requires held { Held (lent_of execution.now bootstrap.now ram.now) reached }
    requires holds_zero { HoldsZero regs.now }
    ensures { result ≡ loaded_of core (lent_of execution.now bootstrap.now ram.now) op d (reg_of regs.now d) va reached }
{
    match reached {
        Ok(place) => {
            let word = word_in(place, execution, bootstrap, ram);
            on(core, loads(op, d, reg(regs, d), word, place))
        }
        Err(fault) => refused(core, fault, va),
    }
}

fn stored(
    op: StoreOp,
    x: u32,
    va: u32,
    reached: Reached,
    core: Core,
    execution: &[u8],
    bootstrap: &[u8],
    ram: &[u8],
) -> Decision
    requires { Held (lent_of execution.now bootstrap.now ram.now) reached }
    ensures { result ≡ stored_of core (lent_of execution.now bootstrap.now ram.now) op x va reached }
{
    match reached {
        Ok(place) => {
            let word = word_in(place, execution, bootstrap, ram);
            on(core, stores(op, x, word, place))
        }
        Err(fault) => refused(core, fault, va),
    }
}

fn written(d: u32, v: u32) -> Effect
    ensures { result ≡ written_of d v }
{
    to_register(d, Effect::Register(d, v))
}

fn branched(core: Core, d: u32, v: u32, next: u32) -> Decision
    ensures { result ≡ branched_of core d v next }
{
    Decision {
        pc: core.next_pc,
        next_pc: next,
        branched: true,
        effect: written(d, v),
    }
}

#[tactic(auto, unfolding(crate::specs::Settle::settle_of))]
pub fn settle(
    intent: Intent,
    core: Core,
    regs: &[u32; 32],
    execution: &[u8],
    bootstrap: &[u8],
    ram: &[u8],
) -> Decision
    requires asks { Asks (lent_of execution.now bootstrap.now ram.now) 16 intent }
    requires holds_zero { HoldsZero regs.now }
    ensures { result ≡ settle_of core regs.now (lent_of execution.now bootstrap.now ram.now) intent }
{
    match intent {
        Intent::Write(d, v) => on(core, written(d, v)),
        Intent::Branch(d, v, next) => branched(core, d, v, next),
        Intent::HiLo(hi, lo) => on(core, Effect::HiLo(hi, lo)),
        Intent::Load(op, d, va, to) => loaded(op, d, va, to, core, regs, execution, bootstrap, ram),
        Intent::Store(op, x, va, to) => stored(op, x, va, to, core, execution, bootstrap, ram),
        Intent::SetControl(r, word) => on(core, Effect::Control(r, word)),
        Intent::SetEntry(row) => on(core, Effect::Entry(row)),
        Intent::SetRow(i, row) => on(core, Effect::TlbRow(i, row.high, row.low)),
        Intent::Trap(code, z) => trapped(core, code, z),
    }
}
