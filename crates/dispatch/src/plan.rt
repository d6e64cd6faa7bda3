// What a turn does, by what has happened and what the session is in the middle of.
use actions::{load, make, paper, running, save};
use line::line;
use message::Message;
use message::refused::Refused;
use session::ending::Then;
use session::event::Event;
use session::exit::Exit;
use session::mode::Mode;
use session::plan::Plan;
use session::turn::{Turn, quietly, refuses, says};
use session::words::{LINES, is_at_prompt, is_there, mode, save_failed, set_save_failed};

fn start(session: &[u64; 32]) -> Turn {
    if !is_at_prompt(session) {
        return quietly(Then::Ask);
    }
    let is_there = is_there(session);
    says(Message::Welcome { is_there }, Then::Ask)
}

// A second end of input behind a save that failed ends the session: nobody types any more.
fn ended(session: &[u64; 32]) -> Turn {
    if save_failed(session) {
        return quietly(Then::End(Exit::File));
    }
    quietly(Then::Finish(Exit::Done))
}

fn another(session: &mut [u64; 32]) {
    session[LINES] = session[LINES].wrapping_add(1);
    set_save_failed(session, false);
}

fn too_long(session: &mut [u64; 32]) -> Turn {
    another(session);
    refuses(Refused::LineTooLong)
}

fn without_line(session: &mut [u64; 32], event: Event) -> Turn {
    match event {
        // Ctrl-C: at a prompt there is a new one, a script ends.
        Event::Interrupt => says(Message::LineFeed, Then::Refuse(Exit::Refused)),
        Event::EndOfInput => ended(session),
        Event::TooLong => too_long(session),
        _ => quietly(Then::Ask),
    }
}

fn idle(session: &mut [u64; 32], event: Event, input: &[u8]) -> Plan {
    if event == Event::Line {
        another(session);
        return line(session, input);
    }
    Plan::Turns(without_line(session, event))
}

fn goes_on(session: &mut [u64; 32], event: Event, input: &[u8]) -> Plan {
    match mode(session) {
        Mode::Idle => idle(session, event, input),
        Mode::Running => running::planned(session, event),
        Mode::Loading => load::planned(session, event),
        Mode::Making => make::planned(session, event),
        Mode::Saving => Plan::Turns(save::saved(session, event)),
        Mode::Ending => Plan::Turns(save::ending(session, event)),
        Mode::Restoring => Plan::Turns(save::restoring(session, event)),
        // The other station could not be read, and the C side has said so.
        Mode::Comparing => Plan::Turns(quietly(Then::Refuse(Exit::File))),
        Mode::Printing => Plan::Turns(paper::next(session, event)),
    }
}

pub fn planned(session: &mut [u64; 32], event: Event, input: &[u8]) -> Plan {
    if event == Event::Start {
        return Plan::Turns(start(session));
    }
    goes_on(session, event, input)
}
