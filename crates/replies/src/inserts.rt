// Z, z: breakpoints and watches.
use crate::plain::{refused, said};
use points::breaks::Kind;
use points::{breaks, watches};
use stub::Next;
use stub::packet::{Both, two};

// What a packet puts in or takes out. Reads are not in the record, so gdb's kinds 3 and 4 of watches are not known.
#[derive(Clone, Copy)]
enum Point {
    Break(Kind),
    Watch,
}

// The point of a packet, by gdb's number for its kind.
fn named(packet: &[u8]) -> Option<Point> {
    match packet.get(1)? {
        b'0' => Some(Point::Break(Kind::Software)),
        b'1' => Some(Point::Break(Kind::Hardware)),
        b'2' => Some(Point::Watch),
        _ => None,
    }
}

// A breakpoint of another kind than 4, or at an odd address, is one of MIPS16.
fn breakpoint(session: &mut [u64; 256], kind: Kind, address: u64, size: u64) -> bool {
    if (size != 4) | (address % 4 != 0) {
        return false;
    }
    breaks::insert(session, kind, address)
}

// Without slots there are no records to look at.
fn watch(session: &mut [u64; 256], address: u64, length: u64, slots: usize) -> bool {
    if (slots == 0) | (length == 0) | (0xFFFF_FFFF < length) {
        return false;
    }
    watches::insert(session, address, length)
}

// Answers whether there was room for it.
fn put_in(session: &mut [u64; 256], point: Point, at: Both, slots: usize) -> bool {
    let address = at.first % 0x1_0000_0000;
    match point {
        Point::Break(kind) => breakpoint(session, kind, address, at.second),
        Point::Watch => watch(session, address, at.second, slots),
    }
}

fn take_out(session: &mut [u64; 256], point: Point, at: Both) {
    let address = at.first % 0x1_0000_0000;
    match point {
        Point::Break(kind) => breaks::remove(session, kind, address),
        Point::Watch => watches::remove(session, address, at.second),
    }
}

// Z puts in, z takes out.
pub fn change(session: &mut [u64; 256], out: &mut [u8], packet: &[u8], slots: usize) -> Next {
    let Some(at) = two(packet, 3, b',') else {
        return Next::Reply(refused(out));
    };
    let Some(point) = named(packet) else {
        return Next::Reply(0);
    };
    if packet.starts_with(b"Z") {
        let is_done = put_in(session, point, at, slots);
        return Next::Reply(said(out, is_done));
    }
    take_out(session, point, at);
    Next::Reply(said(out, true))
}
