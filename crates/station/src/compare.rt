// compare: in what another station differs. The C side has loaded it.
use differ::{Comparison, Station};
use phrase::lay;
use session::ending::{Then, answer};

// Stays: the parameters are those of the C call station_compare_turn in include/station.h.
#[unsafe(no_mangle)]
pub extern "C" fn station_compare_turn(
    session: &mut [u64; 32],
    out: &mut [u8],
    image: &[u8],
    ram: &[u8],
    paper: &[u8],
    journal: &[u8],
    other_image: &[u8],
    other_ram: &[u8],
    other_paper: &[u8],
    other_journal: &[u8],
) -> u64 {
    let here = Station {
        image,
        ram,
        paper,
        journal,
    };
    let there = Station {
        image: other_image,
        ram: other_ram,
        paper: other_paper,
        journal: other_journal,
    };
    let at = lay(out, 0, Comparison { here, there });
    answer(session, Then::Ask, out, at)
}
