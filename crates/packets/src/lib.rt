// A packet, by its first byte, and the reply to it.
#![tactic(auto)]

ghost use Rattle.image.specs.Lent.{StaysLent};

use image::lent::{Lent, Seen};
use journal::SLOT;
use replies::{inserts, plain, queries, stops};
use stub::Next;
use stub::kinds::Mode;

// v: vCont, vKill; any other is not known.
fn verbose(session: &mut [u64; 256], reply: &mut [u8], packet: &[u8], lent: Seen) -> Next {
    if packet.starts_with(b"vCont") {
        return resumes::continues(session, reply, packet, lent);
    }
    if packet.starts_with(b"vKill") {
        return Next::Kill(plain::done(reply));
    }
    Next::Reply(0)
}

// What neither writes nor moves the machine.
fn still(session: &mut [u64; 256], reply: &mut [u8], packet: &[u8], lent: Seen) -> Next {
    match packet.first() {
        Some(b'?') => Next::Reply(stops::last(session, reply, lent.image)),
        Some(b'g') => Next::Reply(registers::show::all(reply, lent.image)),
        Some(b'p') => Next::Reply(inspect::show_register(reply, packet, lent.image)),
        Some(b'm') => Next::Reply(inspect::read(reply, packet, lent)),
        Some(b'c' | b'C') => resumes::begin(session, lent, Mode::Continue),
        Some(b's' | b'S') => resumes::begin(session, lent, Mode::Step),
        Some(b'H' | b'T') => Next::Reply(plain::done(reply)),
        Some(b'D') => Next::Detach,
        Some(b'k') => Next::Kill(0),
        Some(b'v') => verbose(session, reply, packet, lent),
        Some(b'q') => Next::Reply(queries::asked(reply, packet)),
        Some(b'Q') => Next::Reply(queries::set(session, reply, packet)),
        Some(b'Z' | b'z') => { inserts::change(session, reply, packet, lent.journal.len() / SLOT) }
        _ => Next::Reply(0),
    }
}

pub fn answer(
    session: &mut [u64; 256],
    reply: &mut [u8],
    packet: &mut [u8],
    lent: &mut Lent,
    kept: &mut [u8],
) -> Next
    ensures lent { StaysLent lent.old lent.new }
{
    match packet.first().copied() {
        Some(b'M') => Next::Reply(inspect::write_digits(session, reply, packet, lent)),
        Some(b'X') => Next::Reply(inspect::write_bytes(session, reply, packet, lent)),
        Some(b'G' | b'P') => {
            Next::Reply(inspect::write_registers(session, reply, packet, lent, kept))
        }
        Some(b'b') => resumes::reverses(session, packet, lent),
        _ => still(session, reply, packet, lent.seen()),
    }
}
