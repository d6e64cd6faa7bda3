// c, s, vCont, bc, bs: the machine is to run, and the reply comes when it stops.
#![tactic(auto)]

ghost use Rattle.std.specs.Prelude.{◌≡◌};
ghost use Rattle.image.specs.Lent.{StaysLent};

use image::lent::{Lent, Seen};
use peek::look;
use points::watches::place_all;
use resume::reverse;
use stub::Next;
use stub::kinds::{Mode, Signal};
use stub::packet::two;
use stub::words::{INTERRUPTED, MODE, RANGE_FROM, RANGE_TO, UNSEEN};
use text::put;

// A 0x03 came while the machine stood: gdb waits for the stop that it asked for.
fn was_interrupted(session: &mut [u64; 256]) -> bool {
    let was = session[INTERRUPTED] == 1;
    session[INTERRUPTED] = 0;
    was
}

// The watches are placed before a run, unless an interrupt came before it.
fn is_ready(session: &mut [u64; 256], lent: Seen) -> bool {
    if was_interrupted(session) {
        return false;
    }
    place_all(session, look(lent.image), lent.ram.len());
    true
}

// gdb itself steps off a breakpoint before it goes on, so only a run that is to go on looks at the PC where it begins.
pub fn begin(session: &mut [u64; 256], lent: Seen, mode: Mode) -> Next {
    if !is_ready(session, lent) {
        return Next::Stopped(Signal::Interrupt);
    }
    session[MODE] = mode.into();
    session[UNSEEN] = u64::from(mode != Mode::Continue);
    Next::Run
}

// Without two numbers the range is empty.
fn ranges(session: &mut [u64; 256], lent: Seen, packet: &[u8]) -> Next {
    let range = two(packet, 7, b',').unwrap_or_default();
    session[RANGE_FROM] = range.first % 0x1_0000_0000;
    session[RANGE_TO] = range.second % 0x1_0000_0000;
    begin(session, lent, Mode::Range)
}

// vCont: there is one thread, so the first action is what counts. Signals are not for the machine.
pub fn continues(session: &mut [u64; 256], reply: &mut [u8], packet: &[u8], lent: Seen) -> Next {
    if packet.starts_with(b"vCont?") {
        return Next::Reply(put(reply, 0, b"vCont;c;C;s;S;r"));
    }
    match packet.get(6) {
        Some(b'c' | b'C') => begin(session, lent, Mode::Continue),
        Some(b's' | b'S') => begin(session, lent, Mode::Step),
        Some(b'r') => ranges(session, lent, packet),
        _ => Next::Reply(put(reply, 0, b"E01")),
    }
}

// How far back.
#[derive(Clone, Copy)]
enum Travel {
    Run,
    Step,
}

fn back(session: &mut [u64; 256], lent: &mut Lent, travel: Travel) -> Next
    ensures lent { StaysLent lent.old lent.new }
    ensures journal { lent.new.journal.now ≡ lent.old.journal.now }
{
    if !is_ready(session, lent.seen()) {
        return Next::Stopped(Signal::Interrupt);
    }
    match travel {
        Travel::Run => reverse::run(session, lent),
        Travel::Step => reverse::step(session, lent),
    }
}

// bc, bs.
pub fn reverses(session: &mut [u64; 256], packet: &[u8], lent: &mut Lent) -> Next
    ensures lent { StaysLent lent.old lent.new }
    ensures journal { lent.new.journal.now ≡ lent.old.journal.now }
{
    match packet.get(1) {
        Some(b'c') => back(session, lent, Travel::Run),
        Some(b's') => back(session, lent, Travel::Step),
        _ => Next::Reply(0),
    }
}
