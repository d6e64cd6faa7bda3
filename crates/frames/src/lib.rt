// For each frame of RAM the last step on hand that changed it: the index of 02, L6, in lent bytes. The theory is in specs/ and proofs/.
#![tactic(auto)]

ghost use Rattle.std.specs.Prelude.{◌≡◌, ◌+◌, ◌*◌, ◌%◌, ◌≤◌, length};
ghost use Rattle.frames.specs.Keep.{up_to, distance, restored};
ghost use Rattle.frames.specs.Bytes.{whole, entry_words, entry_at, put_entry, replace_in, note_in};

use word::big::{put_words, word_at};

// An entry is the clock of that step (after its own tick), if there is one.
fn entry_words(e: Option<u64>) -> [u32; 4]
    ensures { result ≡ entry_words e }
{
    match e {
        None => [0, 0, 0, 0],
        Some(c) => [1, (c / 4294967296) as u32, (c % 4294967296) as u32, 0],
    }
}

fn joined(high: u32, low: u32) -> u64
    ensures { result ≡ high * 4294967296 + low }
{
    u64::from(high) * 4294967296 + u64::from(low)
}

#[tactic(auto, unfolding(crate::specs::Bytes::entry_at))]
pub fn entry_at(index: &[u8], frame: usize) -> Option<u64>
    requires { 16 * frame + 16 ≤ length index.now }
    ensures { result ≡ entry_at index.now frame }
{
    let at = 16 * frame;
    if word_at(index, at) == 1 {
        return Some(joined(word_at(index, at + 4), word_at(index, at + 8)));
    }
    None
}

pub fn put_entry(index: &mut [u8], frame: usize, e: Option<u64>)
    requires { 16 * frame + 16 ≤ length index.old }
    ensures { index.new ≡ put_entry index.old frame e }
{
    let words = entry_words(e);
    put_words(&words, index, 16 * frame);
}

// An entry that names the step at `clock` becomes `e`; any other stays. For the step that drops off `e` is None, for the one taken back `restored`.
pub fn replace(index: &mut [u8], clock: u64, frame: usize, e: Option<u64>)
    requires { 16 * frame + 16 ≤ length index.old }
    ensures { index.new ≡ replace_in clock frame e index.old }
{
    if entry_at(index, frame) == Some(clock) {
        put_entry(index, frame, e);
    }
}

// The same for any frame: the record of a step that drops off is any bytes that the host lent, and no one has judged it. Past the end nothing is named.
pub fn replace_any(index: &mut [u8], clock: u64, frame: usize, e: Option<u64>)
    requires { length index.old % 16 ≡ 0 }
    ensures { index.new ≡ replace_in clock frame e index.old }
{
    if frame < index.len() / 16 {
        replace(index, clock, frame, e);
    }
}

fn distance_to(clock: u64, e: Option<u64>) -> u64
    ensures { result ≡ distance whole clock e }
{
    match e {
        None => 0,
        Some(c) => clock.wrapping_sub(c),
    }
}

// What the record of the step at `clock` keeps of an entry, with `below` records on hand below it.
fn kept(clock: u64, below: u64, e: Option<u64>) -> u64
    ensures { result ≡ up_to below (distance whole clock e) }
{
    let d = distance_to(clock, e);
    if d <= below {
        return d;
    }
    0
}

// The entry that the record of the step at `clock` kept as `d`, with `hand` records on hand, its own too.
pub fn restored(clock: u64, hand: u64, d: u64) -> Option<u64>
    ensures { result ≡ restored whole clock hand d }
{
    if (0 < d) & (d < hand) {
        return Some(clock.wrapping_sub(d));
    }
    None
}

// The step at `clock` wrote in `frame`, and changed it if told so; the answer is what its record keeps, with `below` records on hand below it.
pub fn note(index: &mut [u8], clock: u64, below: u64, frame: usize, changed: bool) -> u64
    requires { 16 * frame + 16 ≤ length index.old }
    ensures { record { saved = result; bytes = index.new } ≡ note_in clock below frame changed index.old }
{
    let d = kept(clock, below, entry_at(index, frame));
    if changed {
        put_entry(index, frame, Some(clock));
    }
    d
}
