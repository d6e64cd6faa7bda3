// Whether the printers of a lent image keep their rules: each test is one line of `&` and `|`, so its term is the definition's.
ghost use Rattle.std.specs.Prelude.{◌≡◌};
ghost use Rattle.printer.specs.Rules.{absent_keeps, work_keeps, present_keeps, printer_keeps, line_keeps};

use crate::{BUSY, Line, PRINTCHR, Printer, RESET};
use word::map::has_bit;

fn absent_keeps(p: Printer) -> bool
    ensures { result ≡ absent_keeps p }
{
    p == Printer::default()
}

fn work_keeps(pending: bool, delay: u32, p: Printer) -> bool
    ensures { result ≡ work_keeps pending delay p }
{
    if p.status == BUSY {
        ((1 <= p.left) & (p.left <= delay))
            & (!pending & ((p.command == RESET) | (p.command == PRINTCHR)))
    } else {
        p.left == 0
    }
}

fn present_keeps(pending: bool, delay: u32, room: usize, p: Printer) -> bool
    ensures { result ≡ present_keeps pending delay room p }
{
    ((1 <= p.status) & (p.status <= 4)) & work_keeps(pending, delay, p) & (p.count as usize <= room)
}

fn printer_keeps(installed: bool, pending: bool, delay: u32, room: usize, p: Printer) -> bool
    ensures { result ≡ printer_keeps installed pending delay room p }
{
    if installed {
        present_keeps(pending, delay, room, p)
    } else {
        absent_keeps(p)
    }
}

// Stays: one `line_keeps` for printers and disks would want a trait with a law and an impl for each, and this is one `all`.
pub fn line_keeps(line: Line, installed: u32, delay: u32, room: usize) -> bool
    ensures { result ≡ line_keeps installed delay room line }
{
    let pending = line.pending;
    let each = line.printers.iter().enumerate().all(|(n, &p)| {
        printer_keeps(has_bit(n, installed), has_bit(n, pending), delay, room, p)
    });
    (pending & !installed == 0) & each
}
