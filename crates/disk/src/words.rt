// The four words of a record that say what it keeps of a disk.
ghost use Rattle.std.specs.Prelude.{◌≡◌, ◌+◌, ◌≤◌, length};
ghost use Rattle.std.proofs.lemmas.List.Edits.{sets};
ghost use Rattle.disk.specs.Words.{pair_of, four_word, four_from, kept_words, kept_from};

use crate::four::Four;
use crate::saved::Kept;

fn pair_of(low: u32, high: u32) -> u32
    ensures { result ≡ pair_of low high }
{
    low % 65536 + 65536 * (high % 65536)
}

fn four_word(f: Four) -> u32
    ensures { result ≡ four_word f }
{
    u32::from_le_bytes([f.a, f.b, f.c, f.d])
}

fn four_from(word: u32) -> Four
    ensures { result ≡ four_from word }
{
    let [a, b, c, d] = word.to_le_bytes();
    Four { a, b, c, d }
}

// From `at` on.
pub fn put_kept(k: Kept, words: &mut [u32; 32], at: usize)
    requires { at + 4 ≤ 32 }
    ensures { words.new ≡ sets words.old at (kept_words k) }
{
    words[at] = pair_of(k.how, k.cylinder);
    words[at + 1] = pair_of(k.ticks, k.words);
    words[at + 2] = k.place;
    words[at + 3] = four_word(k.four);
}

pub fn kept_from(first: u32, second: u32, third: u32, fourth: u32) -> Kept
    ensures { result ≡ kept_from first second third fourth }
{
    Kept {
        how: first % 65536,
        cylinder: first / 65536,
        ticks: second % 65536,
        words: second / 65536,
        place: third,
        four: four_from(fourth),
    }
}
