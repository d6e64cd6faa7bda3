// What gdb is told of what a turn did, and what is wanted next.
use crate::Task;
use remote::say;
use replies::{plain, stops};
use stub::kinds::{Line, Mode};
use stub::{Next, words};
use text::put;

// What is wanted next, by the numbers of include/station.h.
#[derive(Clone, Copy)]
enum Wants {
    Input,
    GoOn,
    Save,
    End,
}

// Exit statuses.
#[derive(Clone, Copy)]
enum Status {
    Done = 0,
    FileTrouble = 3,
}

// What a turn answers: what it wants, the exit status, and how many bytes of `out` are laid.
fn packed(wants: Wants, status: Status, bytes: usize) -> u64 {
    wants as u64 + status as u64 * 256 + bytes as u64 % 0x1_0000_0000 * 0x1_0000_0000
}

fn said(line: Line) -> &'static [u8] {
    match line {
        Line::Emptied => {
            b"lavushmir-gdb: the journal is empty now: what gdb writes is no step to be taken back\n"
        }
        Line::TwoMatches => {
            b"lavushmir-gdb: the next step meets two matching entries: see monitor info tlb\n"
        }
        Line::Refused => {
            b"lavushmir-gdb: the machine can not go on: its state or journal is damaged\n"
        }
    }
}

// The line for standard error behind what goes to gdb.
fn line(session: &mut [u64; 256], out: &mut [u8], at: usize) -> usize {
    let end = match Line::try_from(session[words::LINE]) {
        Ok(line) => put(out, at, said(line)),
        Err(_) => at,
    };
    session[words::SAID] = (end as u64).wrapping_sub(at as u64);
    end
}

// The acknowledgement of a packet, unless none is wanted.
fn acknowledged(out: &mut [u8], is_wanted: bool) -> usize {
    if is_wanted {
        return put(out, 0, b"+");
    }
    0
}

// A reply as a packet. Answers how many bytes it has: none where it does not fit.
fn put_packet(out: &mut [u8], at: usize, reply: &[u8]) -> usize {
    let Some(out) = out.get_mut(at..) else {
        return 0;
    };
    say(reply, out).unwrap_or(0)
}

// The machine stands, and gdb gets the reply, which is kept in case it asks for it again.
fn stands(
    session: &mut [u64; 256],
    out: &mut [u8],
    at: usize,
    reply: &[u8],
    count: usize,
    wants: Wants,
) -> u64 {
    session[words::MODE] = Mode::Idle.into();
    session[words::REPLY] = count as u64;
    let said = put_packet(out, at, &reply[..count.min(reply.len())]);
    let end = line(session, out, at.wrapping_add(said));
    packed(wants, Status::Done, end)
}

fn saves(session: &mut [u64; 256], mode: Mode, at: usize) -> u64 {
    session[words::MODE] = mode.into();
    packed(Wants::Save, Status::Done, at)
}

fn refuses(session: &mut [u64; 256], out: &mut [u8], reply: &mut [u8]) -> u64 {
    let count = plain::refused(reply);
    stands(session, out, 0, reply, count, Wants::GoOn)
}

// The station is saved before gdb is told that it is detached.
fn detaches(session: &mut [u64; 256], out: &mut [u8], at: usize, reply: &mut [u8]) -> u64 {
    if session[words::CHANGED] == 1 {
        return saves(session, Mode::Detaching, at);
    }
    let count = plain::done(reply);
    stands(session, out, at, reply, count, Wants::GoOn)
}

// The reply to what came of a packet or a piece. Answers how many bytes it has.
fn laid(session: &mut [u64; 256], reply: &mut [u8], image: &[u8], next: Next) -> usize {
    match next {
        Next::Stopped(signal) => stops::stopped(session, reply, image, signal),
        Next::Watched(address) => stops::watched(session, reply, image, address),
        Next::Begins => stops::begins(session, reply, image),
        Next::Reply(count) | Next::Kill(count) => count,
        _ => 0,
    }
}

fn wanted(next: Next) -> Wants {
    match next {
        Next::Kill(_) => Wants::End,
        _ => Wants::GoOn,
    }
}

// What is told of what came of a packet or a piece; `at` is behind what is laid in `out` already.
fn told(
    session: &mut [u64; 256],
    out: &mut [u8],
    at: usize,
    reply: &mut [u8],
    image: &[u8],
    next: Next,
) -> u64 {
    match next {
        Next::Run => packed(Wants::GoOn, Status::Done, at),
        Next::Detach => detaches(session, out, at, reply),
        _ => {
            let count = laid(session, reply, image, next);
            stands(session, out, at, reply, count, wanted(next))
        }
    }
}

// The session ends, and what has changed is saved before.
fn finishes(session: &mut [u64; 256]) -> u64 {
    if session[words::CHANGED] == 1 {
        return saves(session, Mode::Ending, 0);
    }
    packed(Wants::End, Status::Done, 0)
}

// Behind a save: of a detach, or at the end.
fn saved(session: &mut [u64; 256], is_saved: bool, out: &mut [u8], reply: &mut [u8]) -> u64 {
    if Mode::from(session[words::MODE]) == Mode::Ending {
        let status = if is_saved {
            Status::Done
        } else {
            Status::FileTrouble
        };
        return packed(Wants::End, status, 0);
    }
    if is_saved {
        session[words::CHANGED] = 0;
        let count = plain::done(reply);
        return stands(session, out, 0, reply, count, Wants::GoOn);
    }
    refuses(session, out, reply)
}

// A packet that is damaged or too long: gdb is to send it again, or, where nothing is acknowledged, is told that it went wrong.
fn damaged(session: &mut [u64; 256], out: &mut [u8], reply: &mut [u8]) -> u64 {
    if session[words::QUIET] != 1 {
        return packed(Wants::GoOn, Status::Done, put(out, 0, b"-"));
    }
    refuses(session, out, reply)
}

// The last reply once more. Where nothing is acknowledged gdb says `-` after each 2 seconds of waiting, and means nothing by it.
fn again(session: &mut [u64; 256], out: &mut [u8], reply: &[u8]) -> u64 {
    if session[words::QUIET] == 1 {
        return packed(Wants::GoOn, Status::Done, 0);
    }
    let count = (session[words::REPLY] % 0x1_0000_0000) as usize;
    stands(session, out, 0, reply, count, Wants::GoOn)
}

// Of what the machine had no part in.
fn shortly(session: &mut [u64; 256], out: &mut [u8], reply: &mut [u8], task: Task) -> u64 {
    match task {
        Task::Wait => packed(Wants::Input, Status::Done, 0),
        Task::Again => again(session, out, reply),
        Task::Damaged => damaged(session, out, reply),
        Task::Saved(is_saved) => saved(session, is_saved, out, reply),
        Task::Finish => finishes(session),
        _ => packed(Wants::GoOn, Status::Done, 0),
    }
}

// `next` is what came of the task.
pub fn tell(
    session: &mut [u64; 256],
    out: &mut [u8],
    reply: &mut [u8],
    image: &[u8],
    task: Task,
    next: Next,
) -> u64 {
    match task {
        Task::Answer(_, is_wanted) => {
            let at = acknowledged(out, is_wanted);
            told(session, out, at, reply, image, next)
        }
        Task::Piece | Task::Stop => told(session, out, 0, reply, image, next),
        _ => shortly(session, out, reply, task),
    }
}
