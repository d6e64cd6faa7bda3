// g, G, p, P, m, M, X: registers and memory. What the host writes is no step: see the crate host.
#![tactic(auto)]

ghost use Rattle.std.specs.Prelude.{◌≡◌};
ghost use Rattle.image.specs.Lent.{StaysLent};

use base16::{gather, number};
use image::lent::{Lent, Seen};
use kept::keep_image;
use peek::look;
use registers::numbers::{COUNT, is_read_only};
use replies::plain::{done, refused, said};
use stub::packet::{Both, two};

// The most bytes that one reply has.
const MOST: u64 = 8192;

// p N
pub fn show_register(reply: &mut [u8], packet: &[u8], image: &[u8]) -> usize {
    let n = number(packet, 1).value;
    if COUNT as u64 <= n {
        return refused(reply);
    }
    registers::show::one(reply, 0, image, n as usize)
}

// G and the digits of all registers. Answers whether something changed, unless it is refused.
fn wrote_all(packet: &[u8], image: &mut [u8], kept: &mut [u8]) -> Option<bool> {
    if packet.len() != 8 * COUNT + 1 {
        return None;
    }
    keep_image(image, kept);
    Some(registers::write::all(image, packet))
}

// P N=DIGITS
fn wrote_one(packet: &[u8], image: &mut [u8], kept: &mut [u8]) -> Option<bool> {
    let register = number(packet, 1);
    let n = (register.value % 256) as usize;
    if (packet.get(register.to).copied() != Some(b'=')) | is_read_only(n) {
        return None;
    }
    let value = base16::word(packet, register.to % 0x1_0000_0000 + 1)?;
    keep_image(image, kept);
    Some(registers::write::one(image, n, value as u64))
}

// `kept` has the image as it was, where something is written.
fn wrote(packet: &[u8], image: &mut [u8], kept: &mut [u8]) -> Option<bool> {
    if packet.starts_with(b"G") {
        return wrote_all(packet, image, kept);
    }
    wrote_one(packet, image, kept)
}

// G, P: what the machine does not take is refused, and the image is as it was.
pub fn write_registers(
    session: &mut [u64; 256],
    reply: &mut [u8],
    packet: &[u8],
    lent: &mut Lent,
    kept: &mut [u8],
) -> usize
    ensures lent { StaysLent lent.old lent.new }
{
    let is_done = match wrote(packet, lent.image, kept) {
        None => false,
        Some(false) => true,
        Some(true) => host::judged(session, lent, kept),
    };
    said(reply, is_done)
}

// m ADDRESS,LENGTH
pub fn read(reply: &mut [u8], packet: &[u8], lent: Seen) -> usize {
    let Some(asked) = two(packet, 1, b',') else {
        return refused(reply);
    };
    let address = (asked.first % 0x1_0000_0000) as u32;
    let count = asked.second.min(MOST) as usize;
    let eyes = look(lent.image);
    let laid = peek::read(
        reply,
        eyes,
        lent.execution,
        lent.bootstrap,
        lent.ram,
        address,
        count,
    );
    if (laid == 0) & (count != 0) {
        return refused(reply);
    }
    laid
}

// ADDRESS,LENGTH: and the place behind the colon.
fn asked(packet: &[u8]) -> Option<Both> {
    let asked = two(packet, 1, b',')?;
    if packet.get(asked.to).copied() != Some(b':') {
        return None;
    }
    Some(Both {
        to: asked.to % 0x1_0000_0000 + 1,
        ..asked
    })
}

// As many bytes as were asked for are written: all of them or none.
fn lay(
    session: &mut [u64; 256],
    reply: &mut [u8],
    bytes: Option<&[u8]>,
    asked: Both,
    lent: &mut Lent,
) -> usize
    ensures lent { StaysLent lent.old lent.new }
    ensures paper { lent.new.paper.now ≡ lent.old.paper.now }
    ensures journal { lent.new.journal.now ≡ lent.old.journal.now }
{
    let Some(bytes) = bytes else {
        return refused(reply);
    };
    let address = (asked.first % 0x1_0000_0000) as u32;
    let eyes = look(lent.image);
    let fits = bytes.len() as u64 == asked.second;
    if !fits || !peek::writable(eyes, lent.ram.len(), address, bytes.len()) {
        return refused(reply);
    }
    if bytes.is_empty() {
        return done(reply);
    }
    peek::write(lent.ram, eyes, address, bytes);
    host::wrote(session, lent);
    done(reply)
}

// M ADDRESS,LENGTH:DIGITS
pub fn write_digits(
    session: &mut [u64; 256],
    reply: &mut [u8],
    packet: &mut [u8],
    lent: &mut Lent,
) -> usize
    ensures lent { StaysLent lent.old lent.new }
    ensures paper { lent.new.paper.now ≡ lent.old.paper.now }
    ensures journal { lent.new.journal.now ≡ lent.old.journal.now }
{
    let Some(asked) = asked(packet) else {
        return refused(reply);
    };
    let count = gather(packet, asked.to);
    lay(session, reply, packet.get(..count), asked, lent)
}

// X ADDRESS,LENGTH:BYTES
pub fn write_bytes(
    session: &mut [u64; 256],
    reply: &mut [u8],
    packet: &[u8],
    lent: &mut Lent,
) -> usize
    ensures lent { StaysLent lent.old lent.new }
    ensures paper { lent.new.paper.now ≡ lent.old.paper.now }
    ensures journal { lent.new.journal.now ≡ lent.old.journal.now }
{
    let Some(asked) = asked(packet) else {
        return refused(reply);
    };
    lay(session, reply, packet.get(asked.to..), asked, lent)
}
