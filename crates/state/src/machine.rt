// All that the image holds, as values, grouped by who changes it.
use clock::Clock;
use cp0::registers::Cp0;
use printer::Line;
use tlb::Row;

#[derive(Clone, Copy)]
pub struct Machine {
    pub cpu: Cpu,
    pub board: Board,
    pub journal: Journal,
}

#[derive(Clone, Copy)]
pub struct Cpu {
    // Register 0 is always 0.
    pub regs: [u32; 32],
    pub core: Core,
    pub tlb: [Row; 16],
}

#[derive(Clone, Copy)]
pub struct Core {
    pub hi: u32,
    pub lo: u32,
    pub pc: u32,
    pub next_pc: u32,
    pub cp0: Cp0,
    // Request L2: 1 where the next step is a slot, and then the address of its branch.
    // Stays: two words, since an image holds any numbers there till its rules are asked (`machine_of`, `slot_keeps`).
    pub slot: u32,
    pub branch: u32,
}

#[derive(Clone, Copy)]
pub struct Board {
    pub clock: Clock,
    pub settings: Settings,
    pub line: Line,
}

// The three parameters of reset.
#[derive(Clone, Copy)]
pub struct Settings {
    pub scale: u32,
    pub delay: u32,
    pub installed: u32,
}

#[derive(Clone, Copy)]
pub struct Journal {
    pub on_hand: u32,
    pub next_slot: u32,
}
