// The frame of a packet: its mark, its end and its checksum.
ghost use Rattle.std.specs.Prelude.{◌≡◌, ◌+◌, length, drop};
ghost use Rattle.text.specs.Head.{head_of};
ghost use Rattle.remote.specs.Course.{answer_of};
ghost use Rattle.remote.specs.Heard.{in_body, outside_of, packet_of, heard_of, told_of};

use crate::course::{Course, decode};
use crate::kind::Heard;
use crate::sum::{says, sum};

// The payload of a packet is laid down from the start of the room that is lent; after any other answer nothing is said of what stands there.
pub fn hear(input: &[u8], payload: &mut [u8]) -> Heard
    ensures { told_of result payload.new ≡ heard_of input.now (length payload.old) }
{
    match input {
        [] => Heard::More,
        [b'$', ..] => packet(input, payload),
        [b, ..] => outside(*b),
    }
}

// A byte that stands outside of a packet.
fn outside(b: u8) -> Heard
    ensures { result ≡ outside_of b }
{
    match b {
        b'+' => Heard::Ack,
        b'-' => Heard::Nak,
        3 => Heard::Interrupt,
        _ => Heard::Noise,
    }
}

// What begins with a `$`.
fn packet(input: &[u8], payload: &mut [u8]) -> Heard
    ensures { told_of result payload.new ≡ packet_of (length payload.old) (drop 1 input.now) }
{
    let end = body_end(input);
    if input.len() <= end {
        return Heard::More;
    }
    if input[end] == b'$' {
        return Heard::Damaged(end);
    }
    if input.len() - end < 3 {
        return Heard::More;
    }
    let body = &input[1..end];
    if says(input[end + 1], input[end + 2], sum(body)) {
        return answer(decode(body, payload), end + 3);
    }
    Heard::Damaged(end + 3)
}

// The place of the first `#` or `$` behind the first byte.
fn body_end(input: &[u8]) -> usize
    ensures { result ≡ 1 + head_of in_body (drop 1 input.now) }
{
    let behind = input.iter().skip(1);
    1 + behind.take_while(|&&b| !matches!(b, b'#' | b'$')).count()
}

fn answer(course: Course, used: usize) -> Heard
    ensures { result ≡ answer_of course used }
{
    match course {
        Course::Plain(n) => Heard::Packet(used, n),
        Course::Escape(_) | Course::Run(_) | Course::Broken => Heard::Damaged(used),
    }
}
