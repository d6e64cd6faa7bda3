// The machine runs for gdb, piece by piece, forward and backward, and stops where gdb wants it to.
#![tactic(auto)]

ghost use Rattle.std.specs.Prelude.{◌≡◌};

pub mod piece; // a piece of a run forward
pub mod reverse; // a run or a step backward

use answer::Answer;
use backward::take_back;
use hits::Stop;
use stub::Next;
use stub::kinds::{Line, Signal};
use stub::words::LINE;

// The machine can't take a step: two entries of the table match, or a call was refused.
fn stuck(session: &mut [u64; 256], line: Line) -> Next {
    session[LINE] = line.into();
    Next::Stopped(Signal::Bus)
}

// The machine stands at a stop.
fn stands(stop: Stop) -> Next {
    match stop.watch {
        Some(address) => Next::Watched(address),
        None => Next::Stopped(Signal::Trap),
    }
}

// Taking back only reads the journal.
fn taken_back(
    image: &mut [u8],
    ram: &mut [u8],
    paper: &mut [u8],
    journal: &mut [u8],
    index: &mut [u8],
    steps: usize,
) -> Answer
    ensures journal { journal.new ≡ journal.old }
{
    take_back(image, ram, paper, journal, index, steps as u64)
}
