// The question of document 02, L6: the latest step on hand that altered a word of RAM, and from what to what.
#![tactic(auto)]

ghost use Rattle.std.specs.Prelude.{◌≡◌, ◌+◌, ◌^◌, ◌<◌, ◌≤◌, length};
ghost use Rattle.board.specs.Places.{ram_base};
ghost use Rattle.turn.specs.Buffers.{beside_back, buffers_back};
ghost use Rattle.answer.specs.Lent.{passed};
ghost use Rattle.backward.specs.Back.{beside_back_test};
ghost use Rattle.lastwrite.specs.LastWrite.{word_fits, rest_test, asked_test, place_of, found_by, answer_words, done_of, LastWriteIs, Fits, Counted, Leaves, TriedIs, RuledIs};

use answer::lent::index_fits;
use answer::{Answer, Done, Reason, Refusal};
use backward::buffers_test;
use clock::time;
use rules::judged;
use seek::{Change, last_change};
use state::IMAGE;
use state::machine::Machine;
use word::big::put_words;

const BASE: u64 = 0x2000_0000; // of RAM

const ROOM: usize = 16; // four words

// Row 11: any number may be asked.
fn word_fits(ram: usize, address: u64) -> bool
    ensures { result ≡ word_fits ram address }
{
    if address < BASE {
        return false;
    }
    (address - BASE < ram as u64) & (address % 4 == 0)
}

// Rows 10, 11 and 12.
#[tactic(auto, unfolding(crate::specs::LastWrite::rest_test))]
fn rest_test(ram: usize, index: usize, address: u64, room: usize) -> Result<(), Refusal>
    ensures { result ≡ rest_test ram index address room }
{
    if !index_fits(ram, index) {
        return Err(Refusal::Index);
    }
    if !word_fits(ram, address) {
        return Err(Refusal::Word);
    }
    if room != ROOM {
        return Err(Refusal::Room);
    }
    Ok(())
}

// Row 8 for every record on hand, then the others. All that is on hand is never too far.
fn asked_test(
    machine: Machine,
    ram: &[u8],
    paper: &[u8],
    journal: &[u8],
    index: &[u8],
    address: u64,
    room: usize,
) -> Result<(), Refusal>
    requires { Fits (beside_back ram.now paper.now journal.now index.now) machine }
    ensures { result ≡ asked_test machine (beside_back ram.now paper.now journal.now index.now) address room }
{
    let hand = machine.journal.on_hand as u64;
    back::asked(machine, ram.len(), paper.len(), journal, hand)?;
    rest_test(ram.len(), index.len(), address, room)
}

// The four words, of the image's clock.
fn answer_words(time: u64, found: Option<Change>) -> [u32; 4]
    requires { Counted found }
    ensures { result ≡ answer_words time found }
{
    match found {
        None => [0, 0, 0, 0],
        Some(change) => {
            let clock = time.wrapping_sub((change.step - 1) as u64);
            [
                (clock / 4294967296) as u32,
                (clock % 4294967296) as u32,
                change.old,
                change.new,
            ]
        }
    }
}

fn done(found: Option<Change>) -> Answer
    ensures { result ≡ done_of found }
{
    let steps = match found {
        None => 0,
        Some(change) => change.step,
    };
    Ok(Done {
        steps,
        reason: Reason::NoReason,
    })
}

fn put_found(time: u64, found: Option<Change>, answer: &mut [u8]) -> Answer
    requires counted { Counted found }
    requires answer_len { length answer.old ≡ 16 }
    ensures { Leaves passed time found answer.old result answer.new }
{
    let words = answer_words(time, found);
    put_words(&words, answer, 0);
    done(found)
}

fn place_of(address: u64) -> u32
    requires { (ram_base ≤ address) × (address < ram_base + 2 ^ 32) }
    ensures { result ≡ place_of address }
{
    (address - BASE) as u32
}

fn found_by(machine: Machine, ram: &[u8], journal: &[u8], address: u64) -> Option<Change>
    requires { (ram_base ≤ address) × (address < ram_base + 2 ^ 32) }
    ensures { result ≡ found_by machine ram.now journal.now address }
{
    let mark = machine.journal;
    last_change(
        ram,
        journal,
        mark.on_hand,
        mark.next_slot,
        place_of(address),
    )
}

// Rows 8, 10, 11 and 12, with nothing else left to refuse.
fn tried(
    machine: Machine,
    ram: &[u8],
    paper: &[u8],
    journal: &[u8],
    index: &[u8],
    address: u64,
    answer: &mut [u8],
) -> Answer
    requires { Fits (beside_back ram.now paper.now journal.now index.now) machine }
    ensures { TriedIs machine (beside_back ram.now paper.now journal.now index.now) address
        answer.old result answer.new }
{
    asked_test(machine, ram, paper, journal, index, address, answer.len())?;
    put_found(
        time(machine.board.clock),
        found_by(machine, ram, journal, address),
        answer,
    )
}

// Row 5, of lengths that are allowed.
fn with_image(
    image: &[u8],
    ram: &[u8],
    paper: &[u8],
    journal: &[u8],
    index: &[u8],
    address: u64,
    answer: &mut [u8],
) -> Answer
    requires { beside_back_test (beside_back ram.now paper.now journal.now index.now) ≡ passed }
    ensures { RuledIs (buffers_back image.now ram.now paper.now journal.now index.now) address
        answer.old result answer.new }
{
    if image.len() != IMAGE {
        return Err(Refusal::Image);
    }
    let verdict = judged(image, paper.len(), journal.len());
    if !verdict.keeps {
        return Err(Refusal::Image);
    }
    let machine = verdict.machine;
    tried(machine, ram, paper, journal, index, address, answer)
}

pub fn last_write(
    image: &[u8],
    ram: &[u8],
    paper: &[u8],
    journal: &[u8],
    index: &[u8],
    address: u64,
    answer: &mut [u8],
) -> Answer
    ensures { LastWriteIs (buffers_back image.now ram.now paper.now journal.now index.now) address
        answer.old result answer.new }
{
    buffers_test(ram.len(), paper.len(), journal.len())?;
    with_image(image, ram, paper, journal, index, address, answer)
}
