// From what a run holds to the bytes of a record.
ghost use Rattle.std.specs.Prelude.{◌≡◌, length};
ghost use Rattle.record.specs.Layout.{small_words, saved_words, laid_of};

use crate::{NOTHING, RAM, REGISTER, Saved, TLB_ROW};
use memory::load_word;
use memory::words::put_words;
use printer::saved::SavedPaper;

fn small_words(timer: u32, pending: u32, mask: u32, bytes: [u8; 8]) -> [u32; 5]
    ensures { result ≡ small_words timer pending mask bytes }
{
    [
        timer,
        pending,
        mask,
        load_word(&bytes, 0),
        load_word(&bytes, 4),
    ]
}

// What is saved, as words. A record that is laid down in two parts gets them last.
pub fn saved_words(s: Saved) -> [u32; 4]
    ensures { result ≡ saved_words s }
{
    match s {
        Saved::Nothing => [NOTHING, 0, 0, 0],
        Saved::Register(n, old) => [REGISTER, n, old, 0],
        Saved::TlbRow(i, row) => [TLB_ROW, i, row.high, row.low],
        Saved::RamWord(place, old, distance) => [RAM, place, old, distance],
    }
}

// Lays down the record of what a run holds, each part as the words that it is held as, since this runs at every step. What the step overwrites is known only when it
// is decided: till then the words from there on stay as they are, since those of the oldest record may stand there and are asked for once more. The copies to a local,
// and the printers' words in two halves, let the compiler move many words at a time.
pub fn encode(
    core: &[u32; 14],
    timer: u32,
    pending: u32,
    paper: SavedPaper,
    words: &[u32; 40],
    slot: &mut [u8],
)
    requires slot_len { length slot.old ≡ 512 }
    requires core_len { length core.now ≡ 14 }
    requires words_len { length words.now ≡ 40 }
    ensures { slot.new ≡ laid_of core.now (small_words timer pending paper.mask paper.bytes) words.now slot.old }
{
    let bytes = paper.bytes;
    let small = small_words(timer, pending, paper.mask, bytes);
    let first = *core;
    put_words(&first, slot, 0);
    put_words(&small, slot, 56);
    let printers = *words;
    put_words(&printers[0..20], slot, 76);
    put_words(&printers[20..40], slot, 156);
}
