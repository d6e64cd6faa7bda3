// Breakpoints. One is a word: its address, and its kind above it. No byte of RAM changes for either kind.
ghost use Rattle.std.specs.Prelude.{◌≤◌};

use stub::words::{BREAKS, FIRST_BREAK, MOST_BREAKS};

#[derive(Clone, Copy)]
pub enum Kind {
    Software,
    Hardware,
}

fn named(kind: Kind, address: u64) -> u64 {
    kind as u64 * 0x1_0000_0000 + address % 0x1_0000_0000
}

// How many there are.
pub fn count(session: &[u64; 256]) -> usize
    ensures { result ≤ 160 }
{
    session[BREAKS].min(MOST_BREAKS as u64) as usize
}

fn all(session: &[u64; 256]) -> &[u64] {
    let end = FIRST_BREAK + count(session);
    &session[FIRST_BREAK..end]
}

// Whether there is one at a PC.
pub fn is_at(session: &[u64; 256], pc: u32) -> bool {
    all(session)
        .iter()
        .any(|point| *point % 0x1_0000_0000 == pc as u64)
}

// Answers whether there was room for it.
pub fn insert(session: &mut [u64; 256], kind: Kind, address: u64) -> bool {
    let point = named(kind, address);
    if all(session).contains(&point) {
        return true;
    }
    let count = count(session);
    if MOST_BREAKS <= count {
        return false;
    }
    session[FIRST_BREAK + count] = point;
    session[BREAKS] = count as u64 + 1;
    true
}

// The last takes its place.
pub fn remove(session: &mut [u64; 256], kind: Kind, address: u64) {
    let point = named(kind, address);
    let end = FIRST_BREAK + count(session);
    let points = &mut session[FIRST_BREAK..end];
    let Some(i) = points.iter().position(|other| *other == point) else {
        return;
    };
    let last = points.len() - 1;
    points[i] = points[last];
    session[BREAKS] = last as u64;
}
