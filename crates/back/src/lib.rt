// Taking back steps: one pass over the newest records that checks and writes nothing, one that undoes. A call that can be refused for other reasons asks the
// first before it lets the second write.
#![tactic(auto)]

ghost use Rattle.std.specs.Prelude.{◌≡◌, ◌≤◌, length};
ghost use Rattle.ring.specs.Back.{done};
ghost use Rattle.journal.specs.Journal.{Ready};
ghost use Rattle.turn.specs.Buffers.{beside_back};
ghost use Rattle.back.specs.Back.{Fits, refusal_of, how_of, asked_of, TakeIs};

use crate::fitting::all_fit;
use crate::undoing::undo_all;
use answer::Refusal;
use journal::SLOT;
use state::machine::{Journal, Machine};

mod fitting; // the pass that checks
mod undoing; // the pass that undoes

// Why steps cannot be taken back.
#[derive(Clone, Copy, PartialEq, Eq)]
pub enum Fault {
    TooFar,
    Bad,
}

impl From<Fault> for Refusal {
    ghost from_gives = { λ fault refusal. refusal ≡ refusal_of fault };

    fn from(fault: Fault) -> Refusal {
        match fault {
            Fault::TooFar => Refusal::TooFar,
            Fault::Bad => Refusal::BadRecord,
        }
    }
}

// Can `steps` steps be taken back. RAM and paper are not lent: their lengths are enough.
pub fn asked(m: Machine, ram: usize, paper: usize, journal: &[u8], steps: u64) -> Result<(), Fault>
    requires paper_bound { paper ≤ 65536 }
    requires ready { Ready journal.now m.journal }
    ensures { how_of result ≡ asked_of steps m ram paper journal.now }
{
    let mark = m.journal;
    let hand = mark.on_hand as usize;
    let next = mark.next_slot as usize;
    if (hand as u64) < steps {
        return Err(Fault::TooFar);
    }
    if !all_fit(m, ram, paper, journal, next, steps as usize) {
        return Err(Fault::Bad);
    }
    Ok(())
}

// Takes back `steps` steps, which can be.
pub fn take_back(
    m: Machine,
    ram: &mut [u8],
    paper: &mut [u8],
    journal: &[u8],
    index: &mut [u8],
    steps: u64,
) -> Machine
    requires fits { Fits (beside_back ram.old paper.old journal.now index.old) m }
    requires journal_value { asked_of steps m (length ram.old) (length paper.old) journal.now ≡ done }
    ensures { TakeIs steps m (beside_back ram.old paper.old journal.now index.old)
        result
        (beside_back ram.new paper.new journal.now index.new) }
{
    let mark = m.journal;
    let hand = mark.on_hand as usize;
    let next = mark.next_slot as usize;
    let k = steps as usize;
    let before = undo_all(m, ram, paper, journal, index, next, hand, k);
    let fewer = (hand - k) as u32;
    let turned = ring::slot_back(journal.len() / SLOT, next, k) as u32;
    Machine {
        journal: Journal {
            on_hand: fewer,
            next_slot: turned,
        },
        ..before
    }
}
