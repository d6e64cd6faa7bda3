// One turn of a session with gdb: it is heard what there is to do, the machine does it, and gdb is told what came of it.
use gdb::hear::hear;
use gdb::tell::tell;
use image::lent::Lent;
use serve::perform;

// Stays: the parameters are those of the C call station_gdb_turn in include/station.h.
#[unsafe(no_mangle)]
pub extern "C" fn station_gdb_turn(
    session: &mut [u64; 256],
    event: u64,
    input: &[u8],
    out: &mut [u8],
    packet: &mut [u8],
    reply: &mut [u8],
    image: &mut [u8],
    execution: &[u8],
    bootstrap: &[u8],
    ram: &mut [u8],
    paper: &mut [u8],
    journal: &mut [u8],
    index: &mut [u8],
    kept: &mut [u8],
) -> u64 {
    let task = hear(session, event, input, packet);
    let mut lent = Lent {
        image,
        execution,
        bootstrap,
        ram,
        paper,
        journal,
        index,
    };
    let next = perform(task, session, reply, packet, &mut lent, kept);
    tell(session, out, reply, lent.image, task, next)
}
