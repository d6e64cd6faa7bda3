// Words of 32 bits as bytes, big-endian: one word at a place, and a list of them.
ghost use Rattle.std.specs.Prelude.{◌≡◌, ℕ, ◌+◌, ◌*◌, ◌/◌, ◌%◌, ◌≤◌, length};
ghost use Rattle.std.proofs.lemmas.List.Edits.{sets};
ghost use Rattle.word.specs.Lists.{tabulate, flat};
ghost use Rattle.word.specs.Big.{word_bytes, word_at};

#[tactic(auto, unfolding(crate::specs::Big::word_at))]
pub fn word_at(bytes: &[u8], at: usize) -> u32
    requires { at + 4 ≤ length bytes.now }
    ensures { result ≡ word_at bytes.now at }
{
    u32::from_be_bytes([bytes[at], bytes[at + 1], bytes[at + 2], bytes[at + 3]])
}

pub fn put_word(bytes: &mut [u8], at: usize, word: u32)
    requires { at + 4 ≤ length bytes.old }
    ensures { bytes.new ≡ sets bytes.old at (word_bytes word) }
{
    let [first, second, third, last] = word.to_be_bytes();
    bytes[at] = first;
    bytes[at + 1] = second;
    bytes[at + 2] = third;
    bytes[at + 3] = last;
}

// Fills `words` from the start of `bytes`.
pub fn get_words(bytes: &[u8], words: &mut [u32])
    requires { 4 * length words.old ≤ length bytes.now }
    ensures { words.new ≡ tabulate (length words.old) (λ (i : ℕ). word_at bytes.now (4 * i)) }
{
    for (i, word) in words.iter_mut().enumerate() {
        *word = word_at(bytes, 4 * i);
    }
}

// Stores `words` from `at` on.
pub fn put_words(words: &[u32], bytes: &mut [u8], at: usize)
    requires { at + 4 * length words.now ≤ length bytes.old }
    ensures { bytes.new ≡ sets bytes.old at (flat word_bytes words.now) }
{
    for (i, word) in words.iter().enumerate() {
        put_word(bytes, at + 4 * i, *word);
    }
}
