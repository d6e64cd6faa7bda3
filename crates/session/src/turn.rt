// What a turn does: what a person is shown, and how it ends.
use crate::ending::{Then, Wants};
use crate::exit::Exit;
use crate::mode::Mode;
use crate::words::enter;
use forms::kinds::{Look, Topic};
use message::Message;
use message::refused::Refused;

#[derive(Clone, Copy)]
pub enum View {
    Said(Message),
    Registers,
    Tlb,
    Printers,
    Cp0,
    Clocks,
    Station,
    Units(Look),
    // What a printer printed.
    Paper { printer: u64 },
    Help(Topic),
    // The line is no command from this place on.
    Bad { place: usize },
}

#[derive(Clone, Copy)]
pub struct Turn {
    pub view: Option<View>,
    pub then: Then,
}

pub fn says(message: Message, then: Then) -> Turn {
    Turn {
        view: Some(View::Said(message)),
        then,
    }
}

// What was asked for can't be done.
pub fn refuses(refused: Refused) -> Turn {
    says(Message::Refused(refused), Then::Refuse(Exit::Refused))
}

// Something is begun that goes on in the next turn.
pub fn begins(session: &mut [u64; 32], mode: Mode, wants: Wants) -> Turn {
    enter(session, mode);
    quietly(Then::Want(wants))
}

pub fn quietly(then: Then) -> Turn {
    Turn { view: None, then }
}

pub fn shows(view: View) -> Turn {
    Turn {
        view: Some(view),
        then: Then::Ask,
    }
}
