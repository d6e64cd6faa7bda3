// One turn of a session of a technician: the call for C.
use image::lent::Lent;

// Stays: the parameters are those of the C call station_panel_turn in include/station.h.
#[unsafe(no_mangle)]
pub extern "C" fn station_panel_turn(
    session: &mut [u64; 32],
    event: u64,
    input: &[u8],
    out: &mut [u8],
    image: &mut [u8],
    execution: &[u8],
    bootstrap: &[u8],
    ram: &mut [u8],
    paper: &mut [u8],
    journal: &mut [u8],
    index: &mut [u8],
) -> u64 {
    let mut lent = Lent {
        image,
        execution,
        bootstrap,
        ram,
        paper,
        journal,
        index,
    };
    panel::turn(session, event, input, out, &mut lent)
}
