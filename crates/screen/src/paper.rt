// What a printer printed: printable characters and line feeds as they are, all other bytes as \xNN.
use phrase::{Character, Decimal, Grouped};
use std::fmt;

#[derive(Clone, Copy)]
pub struct Paper<'a> {
    // The printer's number.
    pub printer: usize,
    pub printed: &'a [u8],
}

impl fmt::Display for Paper<'_> {
    fn fmt<W: fmt::Write>(&self, f: &mut fmt::Formatter<W>) -> fmt::Result {
        write!(
            f,
            "Printer {}, bytes printed: {}\n",
            Decimal(self.printer as u64),
            Grouped(self.printed.len() as u64),
        )?;
        for &byte in self.printed {
            match byte {
                b'\n' | b' '..=b'~' => f.write_char(byte as char)?,
                _ => write!(f, "{}", Character(byte))?,
            }
        }
        // A line that the paper left open is ended.
        match self.printed.last() {
            None | Some(b'\n') => Ok(()),
            Some(_) => f.write_str("\n"),
        }
    }
}
