// How the session goes on when the machine has worked.
use actions::load::loaded;
use actions::make::{accepted, made};
use actions::running::ran;
use message::Message;
use message::blame::{Change, Frame};
use message::refused::Refused;
use session::ending::Then;
use session::turn::{Turn, refuses, says};
use session::words::set_changed;
use session::work::Worked;

fn taken_back(session: &mut [u64; 32], steps: u64) -> Turn {
    set_changed(session, true);
    says(Message::TakenBack { steps }, Then::Ask)
}

fn blamed(session: &mut [u64; 32], change: Change, frame: Frame) -> Turn {
    if matches!(change, Change::Stood(_)) {
        set_changed(session, true);
    }
    says(Message::Blamed { change, frame }, Then::Ask)
}

fn done(session: &mut [u64; 32], worked: Worked) -> Turn {
    match worked {
        Worked::Accepted(fresh) => accepted(session, fresh),
        Worked::Made => made(session),
        Worked::Loaded { bytes, address } => loaded(session, bytes, address),
        Worked::Ran { steps, end } => ran(session, steps, end),
        Worked::TakenBack { steps } => taken_back(session, steps),
        Worked::Blamed { change, frame } => blamed(session, change, frame),
    }
}

pub fn after(session: &mut [u64; 32], worked: Result<Worked, Refused>) -> Turn {
    match worked {
        Ok(worked) => done(session, worked),
        Err(refused) => refuses(refused),
    }
}
