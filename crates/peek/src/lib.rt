// What the host sees of the machine's memory by virtual addresses, through the translation table as it stands. The host is not held to
// privilege nor to D: it reads what is there, and writes RAM.
#![tactic(auto)]

use base16::put_pair;
use board::places::{Place, Sizes, mapped};
use cp0::privilege::{Mode, mode_of};
use reach::access::Kind;
use reach::translate::translate;
use state::IMAGE;
use state::decode::decode;
use tlb::Row;

// The table and the ASID, and whether addresses below 0x80000000 go through it too. From there on all do: nothing physical is there.
#[derive(Clone, Copy)]
pub struct Eyes {
    pub low: bool,
    pub entry: u32,
    pub rows: [Row; 16],
}

// With nothing in the table: for an image that is none.
fn blind() -> Eyes {
    let row = Row { high: 0, low: 0 };
    Eyes {
        low: false,
        entry: 0,
        rows: [row; 16],
    }
}

// A user program has no addresses below 0x80000000, so there they are the kernel's own, who uses them with translation off.
pub fn look(image: &[u8]) -> Eyes {
    if image.len() != IMAGE {
        return blind();
    }
    let machine = decode(image);
    let cpu = machine.cpu;
    let rows = cpu.tlb;
    let core = cpu.core;
    let cp0 = core.cp0;
    let mode = mode_of(cp0.status);
    Eyes {
        low: mode.vm & !mode.user,
        entry: cp0.entry_hi,
        rows,
    }
}

fn sizes(execution: usize, bootstrap: usize, ram: usize) -> Sizes {
    Sizes {
        ram: (ram % 0x1_0000_0000) as u32,
        execution: (execution % 0x1_0000_0000) as u32,
        bootstrap: (bootstrap % 0x1_0000_0000) as u32,
    }
}

// The place in RAM or a ROM of an address, where these have such lengths, if there is one: a device's registers are no memory.
pub fn at_address(
    eyes: Eyes,
    execution: usize,
    bootstrap: usize,
    ram: usize,
    address: u32,
) -> Option<Place> {
    let mode = Mode {
        user: false,
        vm: eyes.low | (0x8000_0000 <= address),
    };
    let physical = translate(mode, Kind::Load, address, eyes.rows, eyes.entry).ok()?;
    mapped(sizes(execution, bootstrap, ram), physical).filter(|place| !matches!(
        place,
        Place::Device(_)
    ))
}

// The byte at an address, if RAM or a ROM has one there.
fn byte(eyes: Eyes, execution: &[u8], bootstrap: &[u8], ram: &[u8], address: u32) -> Option<u8> {
    match at_address(eyes, execution.len(), bootstrap.len(), ram.len(), address)? {
        Place::Ram(at) => ram.get(at as usize).copied(),
        Place::Execution(at) => execution.get(at as usize).copied(),
        Place::Bootstrap(at) => bootstrap.get(at as usize).copied(),
        Place::Device(_) => None,
    }
}

// The address so many bytes behind another.
fn behind(address: u32, count: usize) -> u32 {
    address.wrapping_add((count % 0x1_0000_0000) as u32)
}

// The digits of up to `count` bytes from an address on, up to the first that is not there.
pub fn read(
    out: &mut [u8],
    eyes: Eyes,
    execution: &[u8],
    bootstrap: &[u8],
    ram: &[u8],
    address: u32,
    count: usize,
) -> usize {
    let mut next = 0;
    for byte in (0..count).map_while(|k| byte(
        eyes,
        execution,
        bootstrap,
        ram,
        behind(address, k),
    )) {
        next = put_pair(out, next, byte as u64);
    }
    next
}

// The place in RAM of an address, if it is in RAM.
pub fn in_ram(eyes: Eyes, ram: usize, address: u32) -> Option<usize> {
    let Place::Ram(at) = at_address(eyes, 0, 0, ram, address)? else {
        return None;
    };
    Some(at as usize)
}

// Whether all of so many bytes from an address on lie in RAM.
pub fn writable(eyes: Eyes, ram: usize, address: u32, count: usize) -> bool {
    (0..count).all(|k| in_ram(eyes, ram, behind(address, k)).is_some())
}

// Bytes are written from an address on, those that lie in RAM.
pub fn write(ram: &mut [u8], eyes: Eyes, address: u32, bytes: &[u8]) {
    for (k, byte) in bytes.iter().enumerate() {
        if let Some(place) = in_ram(eyes, ram.len(), behind(address, k)) {
            text::put_byte(ram, place, *byte);
        }
    }
}
