// The newest stop among the steps on hand, going back. A watched byte is still as it is now behind the newest step that changed it, so RAM says what it was then.
use crate::Stop;
use crate::says::{pc, present, record};
use crate::watched::{change, stored};
use journal::SLOT;
use points::breaks;

// The address of a watched byte that the step of a record changed.
pub fn watched(session: &[u64; 256], record: &[u8; SLOT], ram: &[u8]) -> Option<u32> {
    let store = stored(session, record)?;
    change(session, store, present(ram, store.place))
}

// The stop at the k-th newest step: it is still done for a watch, and taken back for a breakpoint. Where there is no such record its PC is taken as 0.
fn at(session: &[u64; 256], journal: &[u8], ram: &[u8], next: usize, k: usize) -> Option<Stop> {
    let record = record(journal, next, k);
    if let Some(address) = record.and_then(|record| watched(session, record, ram)) {
        return Some(Stop {
            steps: k.saturating_sub(1),
            watch: Some(address),
        });
    }
    breaks::is_at(session, record.map_or(0, pc)).then_some(Stop {
        steps: k,
        watch: None,
    })
}

// Of `hand` steps, the newest first.
pub fn newest(
    session: &[u64; 256],
    journal: &[u8],
    ram: &[u8],
    next: usize,
    hand: usize,
) -> Option<Stop> {
    (1..=hand).find_map(|k| at(session, journal, ram, next, k))
}
