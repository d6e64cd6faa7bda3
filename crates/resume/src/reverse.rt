// A run or a step backward: one look through the records, and one take-back.
ghost use Rattle.std.specs.Prelude.{◌≡◌};
ghost use Rattle.image.specs.Lent.{StaysLent};

use crate::{stands, stuck, taken_back};
use hits::Stop;
use hits::backward::{newest, watched};
use hits::says::record;
use image::lent::{Lent, Seen};
use stub::Next;
use stub::kinds::Line;
use stub::words::CHANGED;

// Back to a stop, or to where the journal begins.
fn back(session: &mut [u64; 256], lent: &mut Lent, stop: Option<Stop>) -> Next
    ensures lent { StaysLent lent.old lent.new }
    ensures journal { lent.new.journal.now ≡ lent.old.journal.now }
{
    let hand = image::word(lent.image, image::ON_HAND) as usize;
    let steps = stop.map_or(hand, |stop| stop.steps);
    let answer = taken_back(
        lent.image,
        lent.ram,
        lent.paper,
        lent.journal,
        lent.index,
        steps,
    );
    if steps != 0 {
        session[CHANGED] = 1;
    }
    match answer {
        Ok(_) => stop.map_or(Next::Begins, stands),
        Err(_) => stuck(session, Line::Refused),
    }
}

// The newest stop among the steps on hand.
fn any(session: &[u64; 256], lent: Seen) -> Option<Stop> {
    let next = image::word(lent.image, image::NEXT_SLOT) as usize;
    let hand = image::word(lent.image, image::ON_HAND) as usize;
    newest(session, lent.journal, lent.ram, next, hand)
}

// bc: back to the newest stop.
pub fn run(session: &mut [u64; 256], lent: &mut Lent) -> Next
    ensures lent { StaysLent lent.old lent.new }
    ensures journal { lent.new.journal.now ≡ lent.old.journal.now }
{
    let stop = any(session, lent.seen());
    back(session, lent, stop)
}

// The stop of one step back, where a step is on hand: it is not taken where it changes a watched byte.
fn one(session: &[u64; 256], lent: Seen) -> Option<Stop> {
    if image::word(lent.image, image::ON_HAND) == 0 {
        return None;
    }
    let next = image::word(lent.image, image::NEXT_SLOT) as usize;
    let watch = record(lent.journal, next, 1).and_then(|record| watched(session, record, lent.ram));
    let steps = if watch.is_some() { 0 } else { 1 };
    Some(Stop { steps, watch })
}

// bs: one step back.
pub fn step(session: &mut [u64; 256], lent: &mut Lent) -> Next
    ensures lent { StaysLent lent.old lent.new }
    ensures journal { lent.new.journal.now ≡ lent.old.journal.now }
{
    let stop = one(session, lent.seen());
    back(session, lent, stop)
}
