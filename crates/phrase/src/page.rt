// A lent buffer with a place in it, which `write!` lays text into.
ghost use Rattle.std.specs.Prelude.{◌≡◌, IsOk};
ghost use Rattle.text.specs.Laid.{Laid};

use std::fmt;
use std::fmt::Write;

// Text is laid from the place on. Bytes that do not fit are dropped, so that a page takes any text.
#[derive(Drop)]
pub struct Page<'a> {
    out: &'a mut [u8],
    at: usize,
}

impl<'a> Page<'a> {
    pub fn new(out: &'a mut [u8], at: usize) -> Page<'a> {
        Page { out, at }
    }

    // The place behind what is laid.
    pub fn at(&self) -> usize
        ensures { result ≡ self.now.at }
    {
        self.at
    }
}

impl Write for Page<'_> {
    ghost write_str_gives = { λ s bytes t. Laid s.out.now s.at bytes t.out.now t.at };

    fn write_str(&mut self, s: &str) -> fmt::Result
        ensures laid { Laid self.old.out.now self.old.at s.now self.new.out.now self.new.at }
        ensures taken { IsOk result }
    {
        self.at = text::put(self.out, self.at, s.as_bytes());
        Ok(())
    }
}

// Lays a value from a place on, and answers the place behind it. No value here fails, and a page takes any text.
pub fn lay<D: fmt::Display + Drop>(out: &mut [u8], at: usize, value: D) -> usize {
    let mut page = Page::new(out, at);
    let _ = page.write(value);
    page.at
}
