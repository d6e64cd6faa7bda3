// Where an address lands, or which exception it is, by the machine of an image.
use board::places::Sizes;
use cp0::privilege::mode_of;
use reach::access::Access;
use reach::{Fault, Reached};
use state::IMAGE;
use state::decode::decode;

const ADEL: u32 = 4;

// An address that the machine itself would use: through privilege and table.
pub fn through_table(image: &[u8], access: Access, sizes: Sizes, address: u32) -> Reached {
    if image.len() != IMAGE {
        return Err(Fault {
            miss: false,
            code: ADEL,
        });
    }
    let machine = decode(image);
    let cpu = machine.cpu;
    let rows = cpu.tlb;
    let core = cpu.core;
    let cp0 = core.cp0;
    let to = reach::physical(mode_of(cp0.status), access, address, rows, cp0.entry_hi);
    reach::landed(access, sizes, to)
}

// Whether two entries of the table match, so that a run stops before the access.
pub fn meets_two(image: &[u8], access: Access, address: u32) -> bool {
    if image.len() != IMAGE {
        return false;
    }
    let machine = decode(image);
    let cpu = machine.cpu;
    let rows = cpu.tlb;
    let core = cpu.core;
    let cp0 = core.cp0;
    reach::meets_two(mode_of(cp0.status), access, address, rows, cp0.entry_hi)
}

// An address on the bus.
pub fn on_bus(access: Access, sizes: Sizes, address: u32) -> Reached {
    reach::landed(access, sizes, Ok(address))
}
