// What a turn has to do, by what has happened, by what the session is in the middle of and by what stands at the start of the input.
use crate::{Event, Task};
use remote::Heard;
use stub::kinds::Mode;
use stub::words;

// So much input without a whole packet is no packet.
const MOST_INPUT: usize = 60_000;

fn more(session: &mut [u64; 256], input: usize) -> Task {
    if MOST_INPUT <= input {
        session[words::USED] = input as u64;
        return Task::Damaged;
    }
    session[words::USED] = 0;
    Task::Wait
}

// Ctrl-C while the machine stands is for the next run.
fn interrupted(session: &mut [u64; 256]) -> Task {
    session[words::INTERRUPTED] = 1;
    Task::GoOn
}

// What is heard but is no packet.
fn between(session: &mut [u64; 256], input: usize, heard: Heard) -> Task {
    session[words::USED] = 1;
    match heard {
        Heard::More => more(session, input),
        Heard::Nak => Task::Again,
        Heard::Interrupt => interrupted(session),
        Heard::Damaged(used) => {
            session[words::USED] = used as u64;
            Task::Damaged
        }
        Heard::Ack | Heard::Noise | Heard::Packet(_, _) => Task::GoOn,
    }
}

// The machine stands: what stands at the start of the input is heard.
fn listens(session: &mut [u64; 256], input: &[u8], packet: &mut [u8]) -> Task {
    let heard = remote::hear(input, packet);
    match heard {
        Heard::Packet(used, length) => {
            session[words::USED] = used as u64;
            Task::Answer(length, session[words::QUIET] != 1)
        }
        _ => between(session, input.len(), heard),
    }
}

// Whether gdb wants the run to stop. Only 0x03 is to come while the machine runs; any other byte but an acknowledgement stops it too, and is heard then.
fn is_interrupted(session: &mut [u64; 256], event: Event, input: &[u8]) -> bool {
    if event == Event::Interrupt {
        return true;
    }
    if matches!(input.first(), Some(b'+' | b'-' | 3)) {
        session[words::USED] = 1;
    }
    !matches!(input.first(), None | Some(b'+' | b'-'))
}

fn runs(session: &mut [u64; 256], event: Event, input: &[u8]) -> Task {
    if is_interrupted(session, event, input) {
        return Task::Stop;
    }
    Task::Piece
}

// The machine stands. An interrupt is then for the next run.
fn stands(session: &mut [u64; 256], event: Event, input: &[u8], packet: &mut [u8]) -> Task {
    if event == Event::Interrupt {
        return interrupted(session);
    }
    listens(session, input, packet)
}

// A packet that is heard is laid into `packet`.
pub fn hear(session: &mut [u64; 256], event: u64, input: &[u8], packet: &mut [u8]) -> Task {
    session[words::USED] = 0;
    session[words::SAID] = 0;
    session[words::LINE] = 0;
    let event = Event::from(event);
    match Mode::from(session[words::MODE]) {
        Mode::Detaching | Mode::Ending => Task::Saved(event == Event::Saved),
        _ if event == Event::EndOfInput => Task::Finish,
        Mode::Continue | Mode::Step | Mode::Range => runs(session, event, input),
        Mode::Idle => stands(session, event, input, packet),
    }
}
