// Watches: some bytes from a virtual address on. gdb takes every watch out at a stop and puts it in again before the next run, so one that
// is off is remembered, with the place that it had.
ghost use Rattle.std.specs.Prelude.{◌≡◌, ◌+◌, ◌%◌, ◌↔◌, ◌==◌, not, IfSome, IsTrue, slice_index_or, slice_range};
ghost use Rattle.std.specs.Simd.{first_chunks};

use peek::{Eyes, in_ram};
use stub::words::{FIRST_BREAK, FIRST_WATCH, WATCHED_FROM, WATCHED_TO, WATCHES};

#[derive(Clone, Copy)]
pub struct Watch {
    pub address: u64,
    pub length: u64,
    // In RAM, once it is known.
    pub place: Option<u64>,
    pub on: bool,
}

// In the words of a session its place is the third, plus 1; 0: it is not known.
impl From<[u64; 4]> for Watch {
    ghost from_gives = { λ words watch.
        (watch.address ≡ slice_index_or words 0 0)
        × (watch.length ≡ slice_index_or words 1 0)
        × IfSome watch.place (λ place. place + 1 ≡ slice_index_or words 2 0)
        × (watch.on ≡ not (slice_index_or words 3 0 == 0)) };

    fn from(words: [u64; 4]) -> Watch {
        let [address, length, place, on] = words;
        Watch {
            address,
            length,
            place: place.checked_sub(1),
            on: on != 0,
        }
    }
}

// The word of a place.
fn word(place: Option<u64>) -> u64 {
    match place {
        Some(place) => place.wrapping_add(1),
        None => 0,
    }
}

impl From<Watch> for [u64; 4] {
    ghost from_gives = { λ watch words.
        (slice_index_or words 0 0 ≡ watch.address)
        × (slice_index_or words 1 0 ≡ watch.length)
        × (IsTrue watch.on ↔ (slice_index_or words 3 0 ≡ 1)) };

    fn from(watch: Watch) -> [u64; 4] {
        [
            watch.address,
            watch.length,
            word(watch.place),
            u64::from(watch.on),
        ]
    }
}

// The words of all of them, on or off.
pub fn rows(session: &[u64; 256]) -> &[[u64; 4]]
    ensures { result.now ≡ first_chunks 4 16 (slice_range session.now 32 96) }
{
    let (rows, _) = session[FIRST_WATCH..FIRST_BREAK].as_chunks::<4>();
    rows
}

fn rows_mut(session: &mut [u64; 256]) -> &mut [[u64; 4]] {
    let (rows, _) = session[FIRST_WATCH..FIRST_BREAK].as_chunks_mut::<4>();
    rows
}

// How many are on.
pub fn count(session: &[u64; 256]) -> u64 {
    session[WATCHES] % 32
}

// Whether a row counts as on. A watch is on where its fourth word is not 0, and this module writes 1 there; of any other number, which only a caller
// can have put there, the last bit counts.
fn counts(row: &[u64; 4]) -> bool
    ensures { IsTrue result ↔ (slice_index_or row.now 3 0 % 2 ≡ 1) }
{
    row[3] % 2 == 1
}

fn count_again(session: &mut [u64; 256]) {
    let count = rows(session).iter().filter(|row| counts(*row)).count();
    session[WATCHES] = count as u64;
}

fn is_same(watch: Watch, address: u64, length: u64) -> bool {
    (watch.address == address) & (watch.length == length) & (watch.length != 0)
}

// Where the bytes lie now, if they lie in RAM in one piece. Their first and last byte decide; a last byte that is not in RAM counts as the one behind it.
fn place_of(eyes: Eyes, ram: usize, watch: Watch) -> Option<u64> {
    let address = watch.address % 0x1_0000_0000;
    let behind = address + watch.length % 0x1_0000_0000;
    let first = in_ram(eyes, ram, address as u32)? as u64;
    let last = in_ram(eyes, ram, ((behind + 0xFFFF_FFFF) % 0x1_0000_0000) as u32).unwrap_or(
        ram,
    ) as u64;
    (last == first.wrapping_add(watch.length).wrapping_sub(1)).then_some(first)
}

// With the place that it has now, or else the one that it had.
fn placed(watch: Watch, eyes: Eyes, ram: usize) -> Watch {
    Watch {
        place: place_of(eyes, ram, watch).or(watch.place),
        ..watch
    }
}

// From where to where the watched bytes lie.
fn span(session: &[u64; 256]) -> (u64, u64) {
    let mut from = 0xFFFF_FFFF;
    let mut to = 0;
    for row in rows(session) {
        let watch = Watch::from(*row);
        if let (true, Some(place)) = (watch.on, watch.place) {
            from = place.min(from);
            to = place.wrapping_add(watch.length).max(to);
        }
    }
    (from, to)
}

// The row of a watch, with the place that it has now.
fn replaced(row: [u64; 4], eyes: Eyes, ram: usize) -> [u64; 4]
    ensures on { slice_index_or result 3 0 ≡ slice_index_or row 3 0 }
{
    let [address, length, _, on] = row;
    let watch = placed(Watch::from(row), eyes, ram);
    [address, length, word(watch.place), on]
}

// All are placed anew, by the table as it stands.
pub fn place_all(session: &mut [u64; 256], eyes: Eyes, ram: usize) {
    for row in rows_mut(session) {
        *row = replaced(*row, eyes, ram);
    }
    let (from, to) = span(session);
    session[WATCHED_FROM] = from;
    session[WATCHED_TO] = to;
}

// A watch that is there goes on or off. Answers whether there is such one.
fn switch(session: &mut [u64; 256], address: u64, length: u64, on: bool) -> bool {
    let Some(row) = rows_mut(session)
        .iter_mut()
        .find(|row| is_same(Watch::from(**row), address, length))
    else {
        return false;
    };
    let watch = Watch::from(*row);
    *row = Watch { on, ..watch }.into();
    count_again(session);
    true
}

// The first that is off makes room for it. Answers whether there is one.
fn add(session: &mut [u64; 256], address: u64, length: u64) -> bool {
    let Some(row) = rows_mut(session)
        .iter_mut()
        .find(|row| !Watch::from(**row).on)
    else {
        return false;
    };
    *row = Watch {
        address,
        length,
        place: None,
        on: true,
    }
    .into();
    count_again(session);
    true
}

// Answers whether there was room for it.
pub fn insert(session: &mut [u64; 256], address: u64, length: u64) -> bool {
    switch(session, address, length, true) || add(session, address, length)
}

pub fn remove(session: &mut [u64; 256], address: u64, length: u64) {
    switch(session, address, length, false);
}
