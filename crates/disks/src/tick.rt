// Part 2 of a step: the tick of all eight disks where a run holds them, in number order. One that is not busy costs a comparison.
ghost use Rattle.std.specs.Prelude.{◌≡◌, ◌<◌, length};
ghost use Rattle.disk.specs.Tick.{finishes};
ghost use Rattle.disks.specs.Tick.{any_busy, any_ending, eight};
ghost use Rattle.disks.specs.Words.{disk_in, disks_in, TurnIs, TicksIs};

use crate::words::{disk_in, put_disk};
use device::pending_on;
use disk::BUSY;
use disk::tick::{is_last, tick_one};

// The tick of disk `n`, with its bytes: the pending map after it.
fn turn(words: &mut [u32; 56], n: usize, pending: u32, ram: &mut [u8], bytes: &mut [u8]) -> u32
    requires { (n < 8) × (length words.old ≡ 56) }
    ensures { TurnIs n words.old pending ram.old bytes.old result words.new ram.new bytes.new }
{
    if words[7 * n] != BUSY {
        return pending;
    }
    let d = disk_in(words, n);
    let one = tick_one(d, ram, bytes);
    put_disk(one.disk, words, 7 * n);
    pending_on(n, one.finished, pending)
}

// All eight, each with its own bytes: the pending map after them.
pub fn tick(
    words: &mut [u32; 56],
    pending: u32,
    ram: &mut [u8],
    b0: &mut [u8],
    b1: &mut [u8],
    b2: &mut [u8],
    b3: &mut [u8],
    b4: &mut [u8],
    b5: &mut [u8],
    b6: &mut [u8],
    b7: &mut [u8],
) -> u32
    requires { length words.old ≡ 56 }
    ensures { TicksIs words.old pending ram.old (eight b0.old b1.old b2.old b3.old b4.old b5.old b6.old b7.old)
        result words.new ram.new (eight b0.new b1.new b2.new b3.new b4.new b5.new b6.new b7.new) }
{
    let m0 = turn(words, 0, pending, ram, b0);
    let m1 = turn(words, 1, m0, ram, b1);
    let m2 = turn(words, 2, m1, ram, b2);
    let m3 = turn(words, 3, m2, ram, b3);
    let m4 = turn(words, 4, m3, ram, b4);
    let m5 = turn(words, 5, m4, ram, b5);
    let m6 = turn(words, 6, m5, ram, b6);
    turn(words, 7, m6, ram, b7)
}

// Whether a disk is busy: else a tick does nothing, and a record keeps nothing.
pub fn is_spinning(words: &[u32; 56]) -> bool
    ensures { result ≡ any_busy (disks_in words.now) }
{
    (0..8).any(|n| words[7 * n] == BUSY)
}

fn ends(words: &[u32; 56], n: usize) -> bool
    requires { n < 8 }
    ensures { result ≡ finishes (disk_in words.now n) }
{
    if words[7 * n] != BUSY {
        return false;
    }
    is_last(disk_in(words, n))
}

// Whether a disk finishes at the next tick: with the pending map, all that an interrupt waits for (proofs/Ticks: pending-after).
pub fn is_ending(words: &[u32; 56]) -> bool
    ensures { result ≡ any_ending (disks_in words.now) }
{
    (0..8).any(|n| ends(words, n))
}
