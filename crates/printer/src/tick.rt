// Step part 2: the tick of one printer. All eight tick where a run holds them (held::line), and only while one is busy: else nothing is written
// (proofs/Ticks: idle-tick).
ghost use Rattle.std.specs.Prelude.{◌≡◌, ◌<◌, ◌≤◌, length};
ghost use Rattle.printer.specs.Tick.{
  prints,
  ended_with,
  finished_of,
  printer_ticked,
  paper_ticked,
  OneIs,
};

use crate::{BUSY, PRINT_ERROR, PRINTCHR, Printer, READY};
pub use device::pending_on;

// The tick of one printer, its byte on paper aside.
#[derive(Clone, Copy)]
pub struct One {
    pub printer: Printer,
    pub finished: bool,
}

fn ended_with(status: u32, count: u32, p: Printer) -> Printer
    ensures { result ≡ ended_with status count p }
{
    Printer {
        status,
        left: 0,
        count,
        ..p
    }
}

fn finished(room: usize, p: Printer) -> Printer
    requires { room ≤ 8192 }
    ensures { result ≡ finished_of room p }
{
    let count = p.count;
    if p.command != PRINTCHR {
        return ended_with(READY, count, p);
    }
    if room <= count as usize {
        return ended_with(PRINT_ERROR, count, p);
    }
    ended_with(READY, count + 1, p)
}

// Whether the printer writes a byte in this step.
pub fn prints(room: usize, p: Printer) -> bool
    ensures { result ≡ prints room p }
{
    ((p.status == BUSY) & (p.left <= 1)) & ((p.command == PRINTCHR) & ((p.count as usize) < room))
}

// A printer that finishes, with its byte.
fn finish(n: usize, p: Printer, paper: &mut [u8])
    requires { n < 8 }
    ensures { paper.new ≡ paper_ticked n p paper.old }
{
    let room = paper.len() / 8;
    if prints(room, p) {
        paper[n * room + p.count as usize] = (p.data0 % 256) as u8;
    }
}

pub fn tick_one(n: usize, p: Printer, paper: &mut [u8]) -> One
    requires { (n < 8) × (length paper.old ≤ 65536) }
    ensures { OneIs n p paper.old result paper.new }
{
    if p.status != BUSY {
        return One {
            printer: p,
            finished: false,
        };
    }
    if 1 < p.left {
        return One {
            printer: Printer {
                left: p.left - 1,
                ..p
            },
            finished: false,
        };
    }
    let room = paper.len() / 8;
    finish(n, p, paper);
    One {
        printer: finished(room, p),
        finished: true,
    }
}
