// The step that last changed a word of RAM: who it is, and what the index has of the word's frame.
use answer::Refusal;
use forms::kinds::Unit;
use image::lent::Seen;
use inquiry::reading::{instruction, unit_at};
use lastwrite::last_write;
use message::blame::{Change, Culprit, Frame};
use message::refused::Refused;
use word::big;

// The step that last changed the word at `address`.
#[derive(Clone, Copy)]
pub struct Step {
    pub address: u64,
    pub ago: u64,
    pub clock: u64,
    pub old: u32,
    pub new: u32,
}

// From what last_write wrote: clock high, clock low, old word, new word.
fn read_step(told: &[u8; 16], address: u64, ago: u64) -> Step {
    Step {
        address,
        ago,
        clock: big::word_at(told, 0) as u64 * 0x1_0000_0000 + big::word_at(told, 4) as u64,
        old: big::word_at(told, 8),
        new: big::word_at(told, 12),
    }
}

fn not_told(refusal: Refusal, ram: usize) -> Refused {
    match refusal {
        Refusal::Word => Refused::NoWord { ram: ram as u64 },
        _ => Refused::Call(refusal),
    }
}

// The step on hand that last changed a word. last_write answers 0 steps where there is none.
pub fn last_change(lent: Seen, address: u64) -> Result<Option<Step>, Refused> {
    let mut told = [0; 16];
    let answer = last_write(
        lent.image,
        lent.ram,
        lent.paper,
        lent.journal,
        lent.index,
        address,
        &mut told,
    );
    match answer {
        Err(refusal) => Err(not_told(refusal, lent.ram.len())),
        Ok(done) if done.steps == 0 => Ok(None),
        Ok(done) => Ok(Some(read_step(&told, address, done.steps as u64))),
    }
}

// No step on hand changed the word at `address`.
pub fn unchanged(lent: Seen, address: u64) -> Change {
    Change::NotOnHand {
        address,
        holds: unit_at(lent.ram, (address % 0x100_0000) as usize, Unit::Word),
        on_hand: image::word(lent.image, image::ON_HAND) as u64,
    }
}

// Of an address in RAM; any other is refused before it comes here.
fn changed(index: &[u8], address: u64) -> Option<u64> {
    let frame = (address / 0x1000 % 0x1000) as usize;
    if index.len() < 16 * frame + 16 {
        return None;
    }
    frames::entry_at(index, frame)
}

// The last change in the frame of a word.
pub fn in_frame(index: &[u8], address: u64) -> Frame {
    Frame {
        address: address / 0x1000 * 0x1000,
        changed: changed(index, address),
    }
}

// What is seen of the step while the machine stands just before it.
pub fn seen(lent: Seen, step: Step) -> Culprit {
    Culprit {
        address: step.address,
        ago: step.ago,
        old: step.old,
        new: step.new,
        clock: step.clock,
        pc: image::word(lent.image, image::PC),
        // 0 where it can't be fetched.
        instruction: instruction(lent).unwrap_or(0),
    }
}
