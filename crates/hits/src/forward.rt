// The first stop among some steps that were just run. It lies before a step: where its PC stops the run, or where it changes a watched byte.
use crate::Stop;
use crate::says::{self, pc, present, record};
use crate::watched::{change, stored};
use points::{breaks, watches};
use stub::kinds::Mode;
use stub::words::{MODE, RANGE_FROM, RANGE_TO};

fn is_outside(session: &[u64; 256], pc: u32) -> bool {
    if Mode::from(session[MODE]) != Mode::Range {
        return false;
    }
    !(session[RANGE_FROM]..session[RANGE_TO]).contains(&(pc as u64))
}

// Whether a run stops at a PC.
pub fn stops_at(session: &[u64; 256], pc: u32) -> bool {
    is_outside(session, pc) || breaks::is_at(session, pc)
}

// The word at a place behind the k-th newest step: what the next step that wrote it found there, or what RAM holds.
fn after(journal: &[u8], ram: &[u8], next: usize, k: usize, place: u32) -> u32 {
    (1..k)
        .rev()
        .filter_map(|newer| says::stored(record(journal, next, newer)?))
        .find(|store| store.place == place)
        .map_or_else(|| present(ram, place), |store| store.old)
}

// The address of a watched byte that the k-th newest step changed. Watches are looked at only where there are any.
fn watched(session: &[u64; 256], journal: &[u8], ram: &[u8], next: usize, k: usize) -> Option<u32> {
    if watches::count(session) == 0 {
        return None;
    }
    let store = stored(session, record(journal, next, k)?)?;
    change(session, store, after(journal, ram, next, k, store.place))
}

// Whether the run stops at the PC of the k-th newest step, 0 where there is no such record. That of the first, from which the steps were run, was looked at before.
fn stops_before(session: &[u64; 256], journal: &[u8], next: usize, k: usize, count: usize) -> bool {
    k != count && stops_at(session, record(journal, next, k).map_or(0, pc))
}

// The stop before the k-th newest step, if there is one.
fn before(
    session: &[u64; 256],
    journal: &[u8],
    ram: &[u8],
    next: usize,
    k: usize,
    count: usize,
) -> Option<Stop> {
    if stops_before(session, journal, next, k, count) {
        return Some(Stop {
            steps: k,
            watch: None,
        });
    }
    let address = watched(session, journal, ram, next, k)?;
    Some(Stop {
        steps: k,
        watch: Some(address),
    })
}

// Of the `count` newest steps, the oldest first.
pub fn first(
    session: &[u64; 256],
    journal: &[u8],
    ram: &[u8],
    next: usize,
    count: usize,
) -> Option<Stop> {
    (1..=count)
        .rev()
        .find_map(|k| before(session, journal, ram, next, k, count))
}
