// q, Q, v: what gdb asks about the target.
use crate::plain::{done, refused};
use description::part;
use stub::packet::two;
use stub::words::QUIET;
use text::put;

// qXfer:features:read:target.xml:OFFSET,LENGTH
fn features(reply: &mut [u8], packet: &[u8]) -> usize {
    if !packet.starts_with(b"qXfer:features:read:target.xml:") {
        return put(reply, 0, b"E00");
    }
    let Some(asked) = two(packet, 31, b',') else {
        return refused(reply);
    };
    part(reply, asked.first, asked.second)
}

fn threads(reply: &mut [u8], packet: &[u8]) -> usize {
    if packet.starts_with(b"qfThreadInfo") {
        return put(reply, 0, b"m1");
    }
    if packet.starts_with(b"qsThreadInfo") {
        return put(reply, 0, b"l");
    }
    if packet == b"qC".as_slice() {
        return put(reply, 0, b"QC1");
    }
    // With 1, gdb detaches when it ends, and so saves; with 0 it would kill.
    if packet.starts_with(b"qAttached") {
        return put(reply, 0, b"1");
    }
    if packet.starts_with(b"qSymbol") {
        return done(reply);
    }
    0
}

// What is not known has an empty reply.
pub fn asked(reply: &mut [u8], packet: &[u8]) -> usize {
    if packet.starts_with(b"qSupported") {
        return put(
            reply,
            0,
            b"PacketSize=4000;QStartNoAckMode+;qXfer:features:read+;ReverseStep+;ReverseContinue+;vContSupported+",
        );
    }
    if packet.starts_with(b"qXfer:features:") {
        return features(reply, packet);
    }
    threads(reply, packet)
}

// From the next packet on nothing is acknowledged.
pub fn set(session: &mut [u64; 256], reply: &mut [u8], packet: &[u8]) -> usize {
    if packet.starts_with(b"QStartNoAckMode") {
        session[QUIET] = 1;
        return done(reply);
    }
    0
}
