// Writes to COMMAND and DATA0 of a disk where a run holds it. `room` is the length of the RAM lent.
ghost use Rattle.std.specs.Prelude.{◌≡◌, ◌<◌, length};
ghost use Rattle.disks.specs.Words.{CommandIs, DataIs};

use crate::words::{disk_in, put_disk};
use device::writes::takes_writes;
use disk::BUSY;
use disk::command::{commanded, is_refused, with_data};
use word::map::with_bit;

// A write to COMMAND of disk `n`: the pending map after it.
pub fn command(
    words: &mut [u32; 56],
    pending: u32,
    installed: u32,
    delay: u32,
    room: usize,
    n: usize,
    word: u32,
) -> u32
    requires { (n < 8) × (length words.old ≡ 56) }
    ensures { CommandIs installed delay room n word words.old pending result words.new }
{
    let d = disk_in(words, n);
    if !takes_writes(n, installed, d.status == BUSY) {
        return pending;
    }
    let next = commanded(d, room, word, delay);
    put_disk(next, words, 7 * n);
    with_bit(n, is_refused(next.status), pending)
}

// A write to DATA0 of disk `n`.
pub fn data(words: &mut [u32; 56], installed: u32, n: usize, word: u32)
    requires { (n < 8) × (length words.old ≡ 56) }
    ensures { DataIs installed n word words.old words.new }
{
    let d = disk_in(words, n);
    if !takes_writes(n, installed, d.status == BUSY) {
        return;
    }
    put_disk(with_data(d, word), words, 7 * n);
}
