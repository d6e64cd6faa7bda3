// What a record keeps of paper, and taking it back.
ghost use Rattle.std.specs.Prelude.{◌≡◌, ◌<◌, get_or, cond, Some, None};
ghost use Rattle.printer.specs.Tick.{room_of, place_of, prints};
ghost use Rattle.printer.specs.Saved.{put_at, restored_paper};

use crate::Printer;
use crate::tick::prints;
use word::map::has_bit;

// Stays: a map and eight bytes, as the record's words hold them (`small_words` and `paper_at` of the crate record).
#[derive(Clone, Copy)]
pub struct SavedPaper {
    // The printers that print.
    pub mask: u32,
    // What each of them overwrites.
    pub bytes: [u8; 8],
}

// The byte that a printer overwrites in this step, if it prints.
pub fn saved_byte(n: usize, p: Printer, paper: &[u8]) -> Option<u8>
    requires { n < 8 }
    ensures { result
        ≡ cond (prints (room_of paper.now) p)
        (Some (get_or paper.now (place_of (room_of paper.now) n p.count) 0))
        None }
{
    let room = paper.len() / 8;
    if prints(room, p) {
        return Some(paper[n * room + p.count as usize]);
    }
    None
}

// A place beyond the paper, as only a record that does not fit has, is passed over.
fn put_at(on: bool, n: usize, p: Printer, byte: u8, paper: &mut [u8])
    requires { n < 8 }
    ensures { paper.new ≡ put_at on n p byte paper.old }
{
    let place = n * (paper.len() / 8) + p.count as usize;
    if !on {
        return;
    }
    if place < paper.len() {
        paper[place] = byte;
    }
}

// `printers` are those before the tick.
pub fn restore_paper(saved: SavedPaper, printers: [Printer; 8], paper: &mut [u8])
    ensures { paper.new ≡ restored_paper saved printers paper.old }
{
    for (n, &p) in printers.iter().enumerate().rev() {
        put_at(has_bit(n, saved.mask), n, p, saved.bytes[n], paper);
    }
}
