// What the host writes is no step: it can not be taken back, and the records of the steps before it do not fit any more.
#![tactic(auto)]

ghost use Rattle.std.specs.Prelude.{◌≡◌};
ghost use Rattle.image.specs.Lent.{StaysLent};

use image::lent::Lent;
use kept::put_back_image;
use reset::empty;
use stub::kinds::Line;
use stub::words::{CHANGED, LINE};
use text::put;

// Where the words steps on hand and next slot stand in the image.
const JOURNAL: usize = 493;

// The journal is emptied, and with it the index. The user is told where that loses a step.
pub fn wrote(session: &mut [u64; 256], lent: &mut Lent)
    ensures lent { StaysLent lent.old lent.new }
    ensures ram { lent.new.ram.now ≡ lent.old.ram.now }
    ensures paper { lent.new.paper.now ≡ lent.old.paper.now }
    ensures journal { lent.new.journal.now ≡ lent.old.journal.now }
{
    if image::word(lent.image, image::ON_HAND) != 0 {
        session[LINE] = Line::Emptied.into();
    }
    session[CHANGED] = 1;
    put(lent.image, JOURNAL, &[0u8; 8]);
    empty(lent.index);
}

// Whether the machine takes the image as it is: a run of no steps judges it.
fn is_taken(lent: &mut Lent) -> bool
    ensures lent { StaysLent lent.old lent.new }
{
    forward::run(
        lent.image,
        lent.execution,
        lent.bootstrap,
        lent.ram,
        lent.paper,
        lent.journal,
        lent.index,
        0,
        0,
    )
    .is_ok()
}

// Behind a write of registers into the image, which `kept` has as it was. Answers whether it stands; where the machine does not take it, it is put back.
pub fn judged(session: &mut [u64; 256], lent: &mut Lent, kept: &[u8]) -> bool
    ensures lent { StaysLent lent.old lent.new }
{
    if is_taken(lent) {
        wrote(session, lent);
        return true;
    }
    put_back_image(lent.image, kept);
    false
}
