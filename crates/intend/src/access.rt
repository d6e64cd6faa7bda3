// Loads and stores: the virtual address, and where it lands. Each tries the plain access first, on its own, and then the page that is remembered, so that what is common goes straight through.
ghost use Rattle.std.specs.Prelude.{◌≡◌};
ghost use Rattle.pages.specs.Pages.{Known};
ghost use Rattle.state.specs.Layout.{HoldsZero};
ghost use Rattle.intend.specs.Operand.{reg_of};
ghost use Rattle.intend.specs.Access.{load_width, store_width, reached_of, load_of, store_of};

use crate::intent::Intent;
use crate::operand::reg;
use alu::sum::addiu;
use board::places::{Place, RAM, Sizes};
use cp0::privilege::mode_of;
use cp0::registers::Cp0;
use isa::instr::{LoadOp, StoreOp};
use pages::{Pages, near, place};
use reach::Reached;
use reach::access::{Access, Kind, Width};
use reach::plain::plain;
use tlb::Row;

pub fn load_width(op: LoadOp) -> Width
    ensures { result ≡ load_width op }
{
    match op {
        LoadOp::Lb | LoadOp::Lbu => Width::One,
        LoadOp::Lh | LoadOp::Lhu => Width::Two,
        LoadOp::Lw => Width::Four,
        LoadOp::Lwl | LoadOp::Lwr => Width::Part,
    }
}

pub fn store_width(op: StoreOp) -> Width
    ensures { result ≡ store_width op }
{
    match op {
        StoreOp::Sb => Width::One,
        StoreOp::Sh => Width::Two,
        StoreOp::Sw => Width::Four,
        StoreOp::Swl | StoreOp::Swr => Width::Part,
    }
}

pub fn reached(
    kind: Kind,
    width: Width,
    cp0: Cp0,
    rows: [Row; 16],
    sizes: Sizes,
    va: u32,
) -> Reached
    ensures { result ≡ reached_of kind width cp0 rows sizes va }
{
    let access = Access { kind, width };
    let to = reach::physical(mode_of(cp0.status), access, va, rows, cp0.entry_hi);
    reach::landed(access, sizes, to)
}

pub fn load(
    op: LoadOp,
    rt: u32,
    base: u32,
    offset: u32,
    cp0: Cp0,
    regs: &[u32; 32],
    rows: [Row; 16],
    pages: &Pages,
    sizes: Sizes,
) -> Intent
    requires holds_zero { HoldsZero regs.now }
    requires known { Known pages.now rows sizes.ram }
    ensures { result ≡ load_of op rt (reg_of regs.now base) offset cp0 rows sizes }
{
    let va = addiu(reg(regs, base), offset);
    let width = load_width(op);
    if plain(cp0.status, width, sizes.ram, va) {
        return Intent::Load(op, rt, va, Ok(Place::Ram(va - RAM)));
    }
    if let Some(page) = near(pages.accesses, width, cp0.status, cp0.entry_hi, va) {
        return Intent::Load(op, rt, va, Ok(Place::Ram(place(page.frame, va))));
    }
    let answer = reached(Kind::Load, width, cp0, rows, sizes, va);
    Intent::Load(op, rt, va, answer)
}

// Stays: (b) beside `load` and not one function with it: a function that two call is no longer laid into the loop (docs/SPEED.md, "What costs is not the work").
pub fn store(
    op: StoreOp,
    rt: u32,
    base: u32,
    offset: u32,
    cp0: Cp0,
    regs: &[u32; 32],
    rows: [Row; 16],
    pages: &Pages,
    sizes: Sizes,
) -> Intent
    requires holds_zero { HoldsZero regs.now }
    requires known { Known pages.now rows sizes.ram }
    ensures { result ≡ store_of op (reg_of regs.now rt) (reg_of regs.now base) offset cp0 rows sizes }
{
    let va = addiu(reg(regs, base), offset);
    let width = store_width(op);
    if plain(cp0.status, width, sizes.ram, va) {
        return Intent::Store(op, reg(regs, rt), va, Ok(Place::Ram(va - RAM)));
    }
    match near(pages.accesses, width, cp0.status, cp0.entry_hi, va) {
        Some(page) if page.dirty => {
            let place = Place::Ram(place(page.frame, va));
            return Intent::Store(op, reg(regs, rt), va, Ok(place));
        }
        _ => {}
    }
    let answer = reached(Kind::Store, width, cp0, rows, sizes, va);
    Intent::Store(op, reg(regs, rt), va, answer)
}
