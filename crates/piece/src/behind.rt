// What stands behind what was read and a gap.
ghost use Rattle.std.specs.Prelude.{◌≡◌};
ghost use Rattle.piece.specs.Behind.{counted_of, named_of, past_of};

use crate::mark::{Found, Mark, Span, end, gap, name, number, word};

// A number behind what was read, at the line's end.
pub fn counted(line: &[u8], m: Mark) -> Found<u64>
    ensures { result ≡ counted_of line.now m }
{
    let n = number(line, gap(line, m));
    Found {
        mark: end(line, n.mark),
        ..n
    }
}

// A name behind what was read.
pub fn named(line: &[u8], m: Mark) -> Found<Span>
    ensures { result ≡ named_of line.now m }
{
    name(line, gap(line, m))
}

// Past a word and the gap behind it.
pub fn past(line: &[u8], m: Mark, bytes: &[u8]) -> Mark
    ensures { result ≡ past_of line.now m bytes.now }
{
    gap(line, word(line, m, bytes))
}
