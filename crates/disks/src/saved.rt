// What a record keeps of all eight disks, and giving it back.
ghost use Rattle.std.specs.Prelude.{◌≡◌, ◌*◌, ◌<◌, length};
ghost use Rattle.std.proofs.lemmas.List.Edits.{sets};
ghost use Rattle.disk.specs.Saved.{kept_of};
ghost use Rattle.disk.specs.Words.{kept_words};
ghost use Rattle.disks.specs.Tick.{turned, spinning, eight};
ghost use Rattle.disks.specs.Saved.{note_words, kept_in, kepts_in, back_of, undo_of, word_back, undo_word};
ghost use Rattle.disks.specs.Words.{disk_in, line_in};

use crate::Line;
use crate::words::disk_in;
use disk::Disk;
use disk::saved::{Kept, bytes_back, given_back, ram_back};
use disk::words::{kept_from, put_kept};
use std::array;

// Disk `n` of the line given back, with its bytes.
fn back(n: usize, k: Kept, mut line: Line, ram: &mut [u8], bytes: &mut [u8]) -> Line
    requires { n < 8 }
    ensures { turned result ram.new bytes.new ≡ back_of n k line ram.old bytes.old }
{
    let was = given_back(k, line.disks[n]);
    ram_back(k, ram);
    bytes_back(k, was, bytes);
    line.disks[n] = was;
    line
}

// What a record keeps of disk `n`, as its four words.
fn keep_one(words: &[u32; 56], n: usize, ram: &[u8], bytes: &[u8], kept: &mut [u32; 32])
    requires { n < 8 }
    ensures { kept.new ≡ sets kept.old (4 * n) (kept_words (kept_of ram.now bytes.now (disk_in words.now n))) }
{
    put_kept(
        disk::saved::keep(disk_in(words, n), ram, bytes),
        kept,
        4 * n,
    );
}

// What a record keeps of all eight, before the step.
pub fn keep(
    words: &[u32; 56],
    ram: &[u8],
    b0: &[u8],
    b1: &[u8],
    b2: &[u8],
    b3: &[u8],
    b4: &[u8],
    b5: &[u8],
    b6: &[u8],
    b7: &[u8],
    kept: &mut [u32; 32],
)
    requires { length kept.old ≡ 32 }
    ensures { kept.new ≡ note_words (spinning (line_in words.now 0) ram.now (eight b0.now b1.now b2.now b3.now b4.now b5.now b6.now b7.now)) }
{
    keep_one(words, 0, ram, b0, kept);
    keep_one(words, 1, ram, b1, kept);
    keep_one(words, 2, ram, b2, kept);
    keep_one(words, 3, ram, b3, kept);
    keep_one(words, 4, ram, b4, kept);
    keep_one(words, 5, ram, b5, kept);
    keep_one(words, 6, ram, b6, kept);
    keep_one(words, 7, ram, b7, kept);
}

fn kept_in(words: &[u32; 32], n: usize) -> Kept
    requires { n < 8 }
    ensures { result ≡ kept_in words.now n }
{
    let at = 4 * n;
    kept_from(words[at], words[at + 1], words[at + 2], words[at + 3])
}

// The words of a record, read back.
pub fn kept_line(words: &[u32; 32]) -> [Kept; 8]
    ensures { result ≡ kepts_in words.now }
{
    array::from_fn(|n| kept_in(words, n))
}

// All eight given back, the last first, each with its own bytes.
pub fn back_line(
    kept: [Kept; 8],
    pending: u32,
    line: Line,
    ram: &mut [u8],
    b0: &mut [u8],
    b1: &mut [u8],
    b2: &mut [u8],
    b3: &mut [u8],
    b4: &mut [u8],
    b5: &mut [u8],
    b6: &mut [u8],
    b7: &mut [u8],
) -> Line
    ensures { spinning result ram.new (eight b0.new b1.new b2.new b3.new b4.new b5.new b6.new b7.new)
        ≡ undo_of (record { kept = kept; pending = pending }) (spinning line ram.old (eight b0.old b1.old b2.old b3.old b4.old b5.old b6.old b7.old)) }
{
    let l7 = back(7, kept[7], line, ram, b7);
    let l6 = back(6, kept[6], l7, ram, b6);
    let l5 = back(5, kept[5], l6, ram, b5);
    let l4 = back(4, kept[4], l5, ram, b4);
    let l3 = back(3, kept[3], l4, ram, b3);
    let l2 = back(2, kept[2], l3, ram, b2);
    let l1 = back(1, kept[1], l2, ram, b1);
    let l0 = back(0, kept[0], l1, ram, b0);
    Line { pending, ..l0 }
}

// COMMAND, or DATA0, of a disk as it was before a store of the step.
fn word_back(d: Disk, data0: bool, word: u32, status: u32) -> Disk
    ensures { result ≡ word_back data0 word status d }
{
    let stopped = Disk {
        status,
        ticks: 0,
        words: 0,
        ..d
    };
    if data0 {
        return Disk {
            data0: word,
            ..stopped
        };
    }
    Disk {
        command: word,
        ..stopped
    }
}

// A store to COMMAND, or to DATA0, of disk `n` taken back, before the disks are given back.
pub fn undo_word(mut line: Line, data0: bool, n: usize, word: u32, status: u32) -> Line
    requires { n < 8 }
    ensures { result ≡ undo_word data0 n word status line }
{
    line.disks[n] = word_back(line.disks[n], data0, word, status);
    line
}
