// The machine does what a turn of a session with gdb asks of it: a packet is answered, a line for the station is done, or a piece is run.
#![tactic(auto)]

ghost use Rattle.image.specs.Lent.{StaysLent};

use gdb::Task;
use image::lent::Lent;
use packets::answer;
use rcmd::command;
use resume::piece::piece;
use stub::Next;
use stub::kinds::Signal;

// A packet, or a line for the station that it passes on.
fn answered(
    session: &mut [u64; 256],
    reply: &mut [u8],
    packet: &mut [u8],
    lent: &mut Lent,
    kept: &mut [u8],
) -> Next
    ensures lent { StaysLent lent.old lent.new }
{
    if packet.starts_with(b"qRcmd,") {
        return command(session, reply, packet, lent);
    }
    answer(session, reply, packet, lent, kept)
}

// What came of the task of a turn. A packet stands at the start of `packet`.
pub fn perform(
    task: Task,
    session: &mut [u64; 256],
    reply: &mut [u8],
    packet: &mut [u8],
    lent: &mut Lent,
    kept: &mut [u8],
) -> Next
    ensures lent { StaysLent lent.old lent.new }
{
    match task {
        Task::Answer(length, _) => {
            let end = length.min(packet.len());
            answered(session, reply, &mut packet[..end], lent, kept)
        }
        Task::Piece => piece(session, lent, kept),
        Task::Stop => Next::Stopped(Signal::Interrupt),
        _ => Next::Run,
    }
}
