// A list of words in a lent slice, one after the other.
ghost use Rattle.std.specs.Prelude.{◌≡◌, ◌+◌, ◌*◌, ◌≤◌, length};
ghost use Rattle.std.proofs.lemmas.List.Edits.{sets};
ghost use Rattle.word.specs.Lists.{flat};
ghost use Rattle.word.specs.Little.{to_bytes};

use crate::store_word;

// Stores `words` from `at` on.
pub fn put_words(words: &[u32], m: &mut [u8], at: usize)
    requires { at + 4 * length words.now ≤ length m.old }
    ensures { m.new ≡ sets m.old at (flat (to_bytes 4) words.now) }
{
    for (i, word) in words.iter().enumerate() {
        store_word(m, at + 4 * i, *word);
    }
}
