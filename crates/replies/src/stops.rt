// The reply when the machine has stopped: the signal, the registers that gdb asks for at every stop, and why.
use base16::{put_address, put_pair};
use registers::numbers::{PC, RA, S8, SP};
use registers::show;
use stub::kinds::Signal;
use stub::words::SIGNAL;
use text::put;

fn register(out: &mut [u8], at: usize, image: &[u8], n: usize) -> usize {
    let at = put_pair(out, at, n as u64);
    let at = put(out, at, b":");
    let at = show::one(out, at, image, n);
    put(out, at, b";")
}

// By the number of a signal. With these four registers gdb needs to ask for no others at a step.
fn told(reply: &mut [u8], image: &[u8], signal: u64) -> usize {
    let at = put(reply, 0, b"T");
    let mut at = put_pair(reply, at, signal);
    for n in [SP, S8, RA, PC] {
        at = register(reply, at, image, n);
    }
    put(reply, at, b"thread:1;")
}

pub fn stopped(session: &mut [u64; 256], reply: &mut [u8], image: &[u8], signal: Signal) -> usize {
    session[SIGNAL] = signal.into();
    told(reply, image, session[SIGNAL])
}

// Before a store to a watched byte, in the direction of travel: gdb does that step itself and then compares.
pub fn watched(session: &mut [u64; 256], reply: &mut [u8], image: &[u8], address: u32) -> usize {
    let at = stopped(session, reply, image, Signal::Trap);
    let at = put(reply, at, b"watch:");
    let at = put_address(reply, at, address as u64);
    put(reply, at, b";")
}

// No step is on hand any more.
pub fn begins(session: &mut [u64; 256], reply: &mut [u8], image: &[u8]) -> usize {
    let at = stopped(session, reply, image, Signal::Trap);
    put(reply, at, b"replaylog:begin;")
}

// The last signal once more.
pub fn last(session: &mut [u64; 256], reply: &mut [u8], image: &[u8]) -> usize {
    if session[SIGNAL] == 0 {
        return stopped(session, reply, image, Signal::Trap);
    }
    told(reply, image, session[SIGNAL])
}
