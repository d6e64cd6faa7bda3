// Take-back: some of the newest steps undone from their records in the journal.
#![tactic(auto)]

ghost use Rattle.std.specs.Prelude.{◌≡◌, length};
ghost use Rattle.ring.specs.Back.{done};
ghost use Rattle.back.specs.Back.{Fits, asked_of};
ghost use Rattle.state.specs.Layout.{machine_of};
ghost use Rattle.turn.specs.Buffers.{beside_back, buffers_back};
ghost use Rattle.answer.specs.Lent.{passed};
ghost use Rattle.accepted.specs.Left.{left_of};
ghost use Rattle.backward.specs.Back.{buffers_test, beside_back_test, Judged, tried_back, rule_leaves, back_leaves};

use answer::lent::{index_fits, journal_fits, paper_fits, ram_fits};
use answer::{Answer, Done, Reason, Refusal};
use rules::judged;
use state::IMAGE;
use state::encode::encode;
use state::machine::Machine;

// Rows 1, 3 and 4: no ROM is lent.
#[tactic(auto, unfolding(crate::specs::Back::buffers_test))]
pub fn buffers_test(ram: usize, paper: usize, journal: usize) -> Result<(), Refusal>
    ensures { result ≡ buffers_test ram paper journal }
{
    if !ram_fits(ram) {
        return Err(Refusal::Ram);
    }
    if !paper_fits(paper) {
        return Err(Refusal::Paper);
    }
    if !journal_fits(journal) {
        return Err(Refusal::Journal);
    }
    Ok(())
}

// With nothing left to refuse.
fn done(
    machine: Machine,
    image: &mut [u8],
    ram: &mut [u8],
    paper: &mut [u8],
    journal: &[u8],
    index: &mut [u8],
    steps: u64,
) -> Answer
    requires machine_value { machine ≡ machine_of image.old }
    requires image_len { length image.old ≡ 741 }
    requires fits { Fits (beside_back ram.old paper.old journal.now index.old) machine }
    requires journal_value { asked_of steps machine (length ram.old) (length paper.old) journal.now ≡ done }
    ensures { left_of result (buffers_back image.new ram.new paper.new journal.now index.new)
        ≡ tried_back (buffers_back image.old ram.old paper.old journal.now index.old) steps }
{
    let after = back::take_back(machine, ram, paper, journal, index, steps);
    encode(after, image);
    Ok(Done {
        steps: steps as u32,
        reason: Reason::NoReason,
    })
}

// Rows 7, 8 and 10, with nothing else left to refuse.
fn tried(
    machine: Machine,
    image: &mut [u8],
    ram: &mut [u8],
    paper: &mut [u8],
    journal: &[u8],
    index: &mut [u8],
    steps: u64,
) -> Answer
    requires machine_value { machine ≡ machine_of image.old }
    requires image_len { length image.old ≡ 741 }
    requires judged { Judged (beside_back ram.old paper.old journal.now index.old) machine }
    ensures { left_of result (buffers_back image.new ram.new paper.new journal.now index.new)
        ≡ tried_back (buffers_back image.old ram.old paper.old journal.now index.old) steps }
{
    back::asked(machine, ram.len(), paper.len(), journal, steps)?;
    if !index_fits(ram.len(), index.len()) {
        return Err(Refusal::Index);
    }
    done(machine, image, ram, paper, journal, index, steps)
}

// Row 5, of lengths that are allowed.
fn with_image(
    image: &mut [u8],
    ram: &mut [u8],
    paper: &mut [u8],
    journal: &[u8],
    index: &mut [u8],
    steps: u64,
) -> Answer
    requires { beside_back_test (beside_back ram.old paper.old journal.now index.old) ≡ passed }
    ensures { left_of result (buffers_back image.new ram.new paper.new journal.now index.new)
        ≡ rule_leaves (buffers_back image.old ram.old paper.old journal.now index.old) steps }
{
    if image.len() != IMAGE {
        return Err(Refusal::Image);
    }
    let verdict = judged(image, paper.len(), journal.len());
    if !verdict.keeps {
        return Err(Refusal::Image);
    }
    let machine = verdict.machine;
    tried(machine, image, ram, paper, journal, index, steps)
}

pub fn take_back(
    image: &mut [u8],
    ram: &mut [u8],
    paper: &mut [u8],
    journal: &[u8],
    index: &mut [u8],
    steps: u64,
) -> Answer
    ensures { left_of result (buffers_back image.new ram.new paper.new journal.now index.new)
        ≡ back_leaves (buffers_back image.old ram.old paper.old journal.now index.old) steps }
{
    buffers_test(ram.len(), paper.len(), journal.len())?;
    with_image(image, ram, paper, journal, index, steps)
}
