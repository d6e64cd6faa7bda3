// A reply as a packet: `$`, the reply with four of its bytes coded, `#`, and the checksum in two hex digits.
ghost use Rattle.std.specs.Prelude.{◌≡◌, ◌+◌, ◌%◌};
ghost use Rattle.text.specs.Laid.{Laid};
ghost use Rattle.remote.specs.Sum.{total_of};
ghost use Rattle.remote.specs.Said.{is_coded, coded_of, Says, Bodied};

use crate::sum::added;

// The place behind the bytes that are laid, and their checksum.
#[derive(Clone, Copy)]
struct Body {
    next: usize,
    sum: u64,
}

// The length of the packet. Where it does not fit there is none, and nothing is said of what stands in the buffer.
pub fn say(reply: &[u8], out: &mut [u8]) -> Option<usize>
    ensures { Says reply.now out.old out.new result }
{
    let first = text::put_byte(out, 0, b'$');
    let body = put_body(out, first, reply);
    let end = text::put_byte(out, body.next, b'#');
    let last = text::put_digit(out, end, body.sum / 16);
    if out.len() <= last {
        return None;
    }
    Some(text::put_digit(out, last, body.sum % 16))
}

fn put_body(out: &mut [u8], at: usize, reply: &[u8]) -> Body
    ensures { Bodied out.old at reply.now out.new result }
{
    let mut next = at;
    let mut sum: u64 = 0;
    for &b in reply {
        next = put_coded(out, next, b);
        sum = added_coded(sum, b);
    }
    Body { next, sum }
}

// `#`, `$`, `*` and `}` are laid as a `}` and the byte with bit 5 turned over.
#[tactic(auto, unfolding(crate::specs::Said::coded_of))]
fn put_coded(out: &mut [u8], at: usize, b: u8) -> usize
    ensures { Laid out.old at (coded_of b) out.new result }
{
    if is_coded(b) {
        let next = text::put_byte(out, at, b'}');
        return text::put_byte(out, next, b ^ 0x20);
    }
    text::put_byte(out, at, b)
}

#[tactic(auto, unfolding(crate::specs::Said::coded_of, crate::specs::Sum::total_of))]
fn added_coded(sum: u64, b: u8) -> u64
    ensures { result ≡ (sum + total_of (coded_of b)) % 256 }
{
    if is_coded(b) {
        return added(added(sum, b'}'), b ^ 0x20);
    }
    added(sum, b)
}

fn is_coded(b: u8) -> bool
    ensures { result ≡ is_coded b }
{
    matches!(b, b'#' | b'$' | b'*' | b'}')
}
