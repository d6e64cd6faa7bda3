// The physical address map: where each area begins, and which of them an address lies in.
ghost use Rattle.std.specs.Prelude.{◌≡◌};
ghost use Rattle.board.specs.Places.{spans, mapped_of};

pub const EXECUTION: u32 = 0;

pub const DEVICES: u32 = 0x1000_0000;

pub const DEVICES_SIZE: u32 = 0x2D0;

pub const BOOTSTRAP: u32 = 0x1FC0_0000;

pub const RAM: u32 = 0x2000_0000;

// The bytes that are installed.
#[derive(Clone, Copy)]
pub struct Sizes {
    pub ram: u32,
    pub execution: u32,
    pub bootstrap: u32,
}

// An area with the offset there.
#[derive(Clone, Copy)]
pub enum Place {
    Ram(u32),
    Execution(u32),
    Bootstrap(u32),
    Device(u32),
}

// In 64 bits, so that the ROM calls can ask it of any address.
pub fn spans(start: u32, size: u64, p: u64) -> bool
    ensures { result ≡ spans start size p }
{
    let first = start as u64;
    first <= p && p - first < size
}

// Where an address is on the bus, if anywhere. RAM first: nearly every access is one of RAM.
pub fn mapped(sizes: Sizes, p: u32) -> Option<Place>
    ensures { result ≡ mapped_of sizes p }
{
    let at = p as u64;
    if spans(RAM, sizes.ram as u64, at) {
        return Some(Place::Ram(p - RAM));
    }
    if spans(EXECUTION, sizes.execution as u64, at) {
        return Some(Place::Execution(p - EXECUTION));
    }
    if spans(BOOTSTRAP, sizes.bootstrap as u64, at) {
        return Some(Place::Bootstrap(p - BOOTSTRAP));
    }
    if spans(DEVICES, DEVICES_SIZE as u64, at) {
        return Some(Place::Device(p - DEVICES));
    }
    None
}
