// qRcmd: a line for the station that gdb passes on.
#![tactic(auto)]

ghost use Rattle.image.specs.Lent.{StaysLent};

use base16::{gather, spread};
use image::lent::Lent;
use monitor::monitor;
use replies::plain;
use stub::Next;

// What a line for the station said comes back as digits.
fn replied(reply: &mut [u8], said: usize) -> Next {
    if said == 0 {
        return Next::Reply(plain::done(reply));
    }
    Next::Reply(spread(reply, said))
}

// The line stands behind `qRcmd,`, as digits.
pub fn command(
    session: &mut [u64; 256],
    reply: &mut [u8],
    packet: &mut [u8],
    lent: &mut Lent,
) -> Next
    ensures lent { StaysLent lent.old lent.new }
{
    let count = gather(packet, 6).min(packet.len());
    let said = monitor(session, &packet[..count], reply, lent);
    replied(reply, said)
}
