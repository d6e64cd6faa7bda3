// OK and E01.
use text::put;

pub fn refused(reply: &mut [u8]) -> usize {
    put(reply, 0, b"E01")
}

pub fn done(reply: &mut [u8]) -> usize {
    put(reply, 0, b"OK")
}

pub fn said(reply: &mut [u8], is_done: bool) -> usize {
    if is_done {
        return done(reply);
    }
    refused(reply)
}
