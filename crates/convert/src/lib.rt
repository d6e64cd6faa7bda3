// Requests L2 and L4: an image of the version before becomes one of this version.
#![tactic(auto)]

ghost use Rattle.std.specs.Prelude.{◌≡◌, ◌++◌, length, replicate};
ghost use Rattle.convert.specs.Convert.{journal_before, header_before, machine_before, keeps_before, emptied, ConvertIs, PackedConvertIs};

use answer::lent::paper_fits;
use answer::{Answer, Done, Reason, Refusal, packed};
use rules::{Verdict, journal_keeps, state_keeps};
use state::IMAGE;
use state::decode::decode;
use state::encode::encode;
use state::machine::{Journal, Machine};
use word::big::word_at;

// The bytes of an image of the version before.
const OLD: usize = 509;

// The bytes of its record.
const SLOT: usize = 256;

// The old bytes, and 0 for the words that are new.
fn widened(old: &[u8]) -> [u8; 741]
    requires { length old.now ≡ 509 }
    ensures { result ≡ old.now ++ replicate 232 0 }
{
    let mut wide = [0u8; 741];
    wide[..OLD].copy_from_slice(old);
    wide
}

fn journal_before(len: usize) -> bool
    ensures { result ≡ journal_before len }
{
    (len <= 16777216) & (len % SLOT == 0)
}

fn header_keeps(old: &[u8]) -> bool
    requires { length old.now ≡ 509 }
    ensures { result ≡ header_before old.now }
{
    (word_at(old, 0) == 505) & (old[4] == 2)
}

// The machine beside the answer, so that it is decoded once.
#[tactic(auto, unfolding(crate::specs::Convert::machine_before, crate::specs::Convert::keeps_before))]
fn judged(old: &[u8], paper: usize, journal: usize) -> Verdict
    requires { length old.now ≡ 509 }
    ensures { result ≡ record { keeps = keeps_before old.now paper journal; machine = machine_before old.now } }
{
    let wide = widened(old);
    let machine = decode(&wide);
    let keeps = header_keeps(old)
        & (state_keeps(machine, paper) & journal_keeps(machine.journal, journal / SLOT));
    Verdict { keeps, machine }
}

fn emptied(m: Machine) -> Machine
    ensures { result ≡ emptied m }
{
    Machine {
        journal: Journal {
            on_hand: 0,
            next_slot: 0,
        },
        ..m
    }
}

// Writes `image` alone; `paper` and `journal` are lent for their lengths, which the rules name.
pub fn convert(old: &[u8], image: &mut [u8], paper: &[u8], journal: &[u8]) -> Answer
    ensures { ConvertIs old.now image.old (length paper.now) (length journal.now) result image.new }
{
    if !paper_fits(paper.len()) {
        return Err(Refusal::Paper);
    }
    if !journal_before(journal.len()) {
        return Err(Refusal::Journal);
    }
    if old.len() != OLD {
        return Err(Refusal::Image);
    }
    if image.len() != IMAGE {
        return Err(Refusal::Image);
    }
    let verdict = judged(old, paper.len(), journal.len());
    if !verdict.keeps {
        return Err(Refusal::Image);
    }
    let was = verdict.machine;
    let m = emptied(was);
    encode(m, image);
    Ok(Done {
        steps: 0,
        reason: Reason::NoReason,
    })
}

// The same for C: liblavushmir.a exports it, and libstation.a, so that a program links with one of them.
pub fn convert_packed(old: &[u8], image: &mut [u8], paper: &[u8], journal: &[u8]) -> u64
    ensures { PackedConvertIs old.now image.old (length paper.now) (length journal.now) result image.new }
{
    packed(convert(old, image, paper, journal))
}
