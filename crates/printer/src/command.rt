// What a write to COMMAND makes of a printer that takes it.
ghost use Rattle.std.specs.Prelude.{◌≡◌};
ghost use Rattle.printer.specs.Command.{is_illegal, commanded_of};

use crate::{ACK, BUSY, ILLEGAL, PRINTCHR, Printer, READY, RESET};

pub fn is_illegal(word: u32) -> bool
    ensures { result ≡ is_illegal word }
{
    !((word == RESET) | (word == PRINTCHR)) & !(word == ACK)
}

pub fn commanded(p: Printer, word: u32, delay: u32) -> Printer
    ensures { result ≡ commanded_of delay word p }
{
    if (word == RESET) | (word == PRINTCHR) {
        return Printer {
            status: BUSY,
            command: word,
            left: delay,
            ..p
        };
    }
    let status = if word == ACK { READY } else { ILLEGAL };
    Printer {
        status,
        command: word,
        ..p
    }
}
