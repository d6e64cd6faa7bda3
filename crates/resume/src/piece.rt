// A piece of a run forward. With a breakpoint or a watch it is short, and its records are then looked at for the first stop. If there is one, the piece is taken back
// whole, what it overwrote is put back, and exactly the steps before the stop are run: the same as if it had stopped there (demand 3), with no step on hand lost.
ghost use Rattle.image.specs.Lent.{StaysLent};

use crate::{stands, stuck, taken_back};
use answer::{Answer, Done, Reason};
use hits::Stop;
use hits::forward::{first, stops_at};
use image::lent::{Lent, Seen};
use journal::SLOT;
use kept::{keep, put_back};
use points::{breaks, watches};
use stub::Next;
use stub::kinds::{Line, Mode, Signal};
use stub::words::{CHANGED, MODE, UNSEEN};

// The most steps of a piece whose records are looked at, and of one with nothing to look for.
const LOOKED_AT: usize = 512;

const PLAIN: usize = 100_000;

// Whether there is nothing to look for.
fn is_plain(session: &[u64; 256]) -> bool {
    if watches::count(session) != 0 {
        return false;
    }
    match Mode::from(session[MODE]) {
        Mode::Step => true,
        Mode::Continue => breaks::count(session) == 0,
        _ => false,
    }
}

// How many steps the piece has. Of a journal without slots there is nothing to look at, so each PC is looked at before its step.
fn length(session: &[u64; 256], slots: usize) -> usize {
    if (Mode::from(session[MODE]) == Mode::Step) | (slots == 0) {
        return 1;
    }
    if is_plain(session) {
        return PLAIN;
    }
    slots.min(LOOKED_AT)
}

// No stop lies within the piece. Where it ended before two matches, the PC that it came to is looked at first, by the piece after it.
fn whole(session: &mut [u64; 256], done: Done) -> Next {
    session[UNSEEN] = 0;
    if (done.steps == 0) & (done.reason == Reason::TwoMatches) {
        return stuck(session, Line::TwoMatches);
    }
    if Mode::from(session[MODE]) == Mode::Step {
        return Next::Stopped(Signal::Trap);
    }
    Next::Run
}

fn run(lent: &mut Lent, steps: usize) -> Answer
    ensures lent { StaysLent lent.old lent.new }
{
    forward::run(
        lent.image,
        lent.execution,
        lent.bootstrap,
        lent.ram,
        lent.paper,
        lent.journal,
        lent.index,
        steps as u64,
        0,
    )
}

// The piece of so many steps is taken back whole: what it overwrote is put back, and the steps before the stop are run.
fn again(session: &mut [u64; 256], lent: &mut Lent, kept: &[u8], steps: usize, stop: Stop) -> Next
    ensures lent { StaysLent lent.old lent.new }
{
    let undone = taken_back(
        lent.image,
        lent.ram,
        lent.paper,
        lent.journal,
        lent.index,
        steps,
    );
    if undone.is_err() {
        return stuck(session, Line::Refused);
    }
    let length = length(session, lent.journal.len() / SLOT);
    put_back(lent.image, lent.journal, lent.index, kept, length);
    match run(lent, steps.wrapping_sub(stop.steps)) {
        Ok(_) => stands(stop),
        Err(_) => stuck(session, Line::Refused),
    }
}

// The first stop among the steps that were run, by their records.
fn found(session: &[u64; 256], lent: Seen, steps: usize) -> Option<Stop> {
    if is_plain(session) | (lent.journal.len() < SLOT) {
        return None;
    }
    let next = image::word(lent.image, image::NEXT_SLOT) as usize;
    first(session, lent.journal, lent.ram, next, steps)
}

// What the piece will overwrite is kept, where its records will be looked at.
fn kept_for(session: &[u64; 256], lent: Seen, kept: &mut [u8], length: usize) {
    if is_plain(session) {
        return;
    }
    keep(lent.image, lent.journal, lent.index, kept, length);
}

fn ran(session: &mut [u64; 256], lent: &mut Lent, kept: &mut [u8]) -> Next
    ensures lent { StaysLent lent.old lent.new }
{
    let length = length(session, lent.journal.len() / SLOT);
    kept_for(session, lent.seen(), kept, length);
    let done = run(lent, length);
    session[CHANGED] = 1;
    let Ok(done) = done else {
        return stuck(session, Line::Refused);
    };
    let steps = done.steps as usize;
    match found(session, lent.seen(), steps) {
        Some(stop) => again(session, lent, kept, steps, stop),
        None => whole(session, done),
    }
}

// One piece. A run stops at the PC that it has come to, but for that from which a step or a range step begins.
pub fn piece(session: &mut [u64; 256], lent: &mut Lent, kept: &mut [u8]) -> Next
    ensures lent { StaysLent lent.old lent.new }
{
    let pc = image::word(lent.image, image::PC);
    if session[UNSEEN] == 0 && stops_at(session, pc) {
        return Next::Stopped(Signal::Trap);
    }
    ran(session, lent, kept)
}
