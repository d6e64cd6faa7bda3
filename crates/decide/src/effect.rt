// What a step changes besides the clocks: the PC pair, the slot, and one kind of place.
use cp0::entry::Exception;
use isa::instr::ControlRegister;
use tlb::Row;

#[derive(Clone, Copy)]
pub enum Effect {
    Nothing,
    Register(u32, u32), // 1 to 31, its value
    HiLo(u32, u32),
    Control(ControlRegister, u32),
    Entry(Row), // EntryHi and EntryLo
    TlbRow(u32, u32, u32), // index below 16, EntryHi, EntryLo
    Ram(u32, u32), // place, a multiple of 4, and the word there
    DeviceLoad(u32, u32), // register 1 to 31, offset in the device area: the caller reads the bus
    DeviceStore(u32, u32), // offset in the device area, word
    Raise(Exception),
}

#[derive(Clone, Copy)]
pub struct Decision {
    pub pc: u32,
    pub next_pc: u32,
    // Whether the step executes a branch or jump, so that the next one is a slot.
    pub branched: bool,
    pub effect: Effect,
}
