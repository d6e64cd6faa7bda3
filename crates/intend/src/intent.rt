// What an instruction asks for, once its operands are read.
use isa::instr::{ControlRegister, LoadOp, StoreOp};
use reach::Reached;
use tlb::Row;

// Stays: (d) a register is a number and 0 is none: the machine writes no register 0, and an Option would say so twice.
#[derive(Clone, Copy)]
pub enum Intent {
    Write(u32, u32), // register (0: none), its value
    Branch(u32, u32, u32), // the link's register (0: none), its value, the next PC
    HiLo(u32, u32),
    Load(LoadOp, u32, u32, Reached), // rt, the virtual address, its answer
    Store(StoreOp, u32, u32, Reached), // the value of rt, the virtual address, its answer
    SetControl(ControlRegister, u32), // the whole word that is to be there
    SetEntry(Row), // TLBR: EntryHi and EntryLo
    SetRow(u32, Row), // TLBWI, TLBWR: index below 16
    Trap(u32, u32), // the exception's code, the coprocessor
}
