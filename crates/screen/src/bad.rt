// A line that is no command, with the place marked from which it fits none.
ghost use Rattle.std.specs.Prelude.{◌≤◌};

use std::fmt;

#[derive(Clone, Copy)]
pub struct Misfit<'a> {
    pub line: &'a [u8],
    pub place: usize,
}

// The most columns that are shown of a line.
const COLUMNS: usize = 78;

// A long line is shown from here on, so that the place is in sight.
fn start(place: usize) -> usize
    ensures { result ≤ place }
{
    if place < 70 { 0 } else { place - 60 }
}

// A byte that is not printable is shown as a dot.
fn face(byte: u8) -> char {
    match byte {
        b' '..=b'~' => byte as char,
        _ => '.',
    }
}

impl fmt::Display for Misfit<'_> {
    fn fmt<W: fmt::Write>(&self, f: &mut fmt::Formatter<W>) -> fmt::Result {
        if self.line.len() < self.place {
            return Ok(());
        }
        let start = start(self.place);
        for &byte in self.line[start..].iter().take(COLUMNS) {
            f.write_char(face(byte))?;
        }
        let column = self.place - start;
        write!(
            f,
            "\n{:column$}^\nThe line fits no command from the ^ on. Say help, or help and a word.\n",
            "",
        )
    }
}
