// How a run holds the eight disks: as their fifty-six words, seven a disk, changed where they stand.
ghost use Rattle.std.specs.Prelude.{◌≡◌, ◌+◌, ◌<◌, ◌≤◌};
ghost use Rattle.std.proofs.lemmas.List.Edits.{sets};
ghost use Rattle.word.specs.Lists.{flat};
ghost use Rattle.disks.specs.Words.{disk_in, disks_in, disk_words};

use disk::Disk;
use std::array;

pub fn disk_in(words: &[u32; 56], n: usize) -> Disk
    requires { n < 8 }
    ensures { result ≡ disk_in words.now n }
{
    let at = 7 * n;
    Disk {
        status: words[at],
        command: words[at + 1],
        data0: words[at + 2],
        data1: words[at + 3],
        ticks: words[at + 4],
        words: words[at + 5],
        cylinder: words[at + 6],
    }
}

pub fn put_disk(d: Disk, words: &mut [u32; 56], at: usize)
    requires { at + 7 ≤ 56 }
    ensures { words.new ≡ sets words.old at (disk_words d) }
{
    words[at] = d.status;
    words[at + 1] = d.command;
    words[at + 2] = d.data0;
    words[at + 3] = d.data1;
    words[at + 4] = d.ticks;
    words[at + 5] = d.words;
    words[at + 6] = d.cylinder;
}

pub fn unpacked(words: &[u32; 56]) -> [Disk; 8]
    ensures { result ≡ disks_in words.now }
{
    array::from_fn(|n| disk_in(words, n))
}

pub fn packed(disks: [Disk; 8]) -> [u32; 56]
    ensures { result ≡ flat disk_words disks }
{
    let mut words = [0u32; 56];
    for (n, &d) in disks.iter().enumerate() {
        put_disk(d, &mut words, 7 * n);
    }
    words
}
