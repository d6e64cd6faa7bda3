// paper: what the printers printed, one printer in a turn.
use message::refused::Refused;
use session::ending::{Then, Wants};
use session::event::Event;
use session::mode::Mode;
use session::turn::{Turn, View, begins, quietly, refuses};
use session::words::{LAST_PRINTER, PRINTER};

fn from(session: &mut [u64; 32], first: u64, last: u64) -> Turn {
    session[PRINTER] = first;
    session[LAST_PRINTER] = last;
    begins(session, Mode::Printing, Wants::GoOn)
}

pub fn one(session: &mut [u64; 32], printer: u64) -> Turn {
    if 7 < printer {
        return refuses(Refused::NoPrinter);
    }
    from(session, printer, printer + 1)
}

pub fn all(session: &mut [u64; 32]) -> Turn {
    from(session, 0, 8)
}

pub fn next(session: &mut [u64; 32], event: Event) -> Turn {
    if event == Event::Interrupt {
        return quietly(Then::Pause);
    }
    let printer = session[PRINTER];
    if session[LAST_PRINTER] <= printer {
        return quietly(Then::Ask);
    }
    session[PRINTER] = printer.wrapping_add(1);
    Turn {
        view: Some(View::Paper { printer }),
        then: Then::Want(Wants::GoOn),
    }
}
