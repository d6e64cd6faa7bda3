// run, stepi: some steps, until an exception or two matches stop them. back, reverse-stepi: some of the newest steps are taken back. new: a reset, and a run of no steps that
// judges what was made.
#![tactic(auto)]

ghost use Rattle.std.specs.Prelude.{◌≡◌};
ghost use Rattle.image.specs.Lent.{StaysLent};

use answer::{Answer, Reason};
use image::lent::Lent;
use message::ran::End;
use message::refused::Refused;
use session::work::{Settings, Worked};

fn forward(lent: &mut Lent, steps: u64, stops: bool) -> Answer
    ensures lent { StaysLent lent.old lent.new }
{
    forward::run(
        lent.image,
        lent.execution,
        lent.bootstrap,
        lent.ram,
        lent.paper,
        lent.journal,
        lent.index,
        steps,
        u64::from(stops),
    )
}

fn end(image: &[u8], reason: Reason) -> End {
    match reason {
        Reason::Exception => End::Exception {
            code: image::word(image, image::CAUSE) / 4 % 32,
            at: image::word(image, image::EPC),
        },
        Reason::TwoMatches => End::TwoMatches,
        _ => End::AllRun,
    }
}

pub fn run(lent: &mut Lent, steps: u64, stops: bool) -> Result<Worked, Refused>
    ensures lent { StaysLent lent.old lent.new }
{
    let done = forward(lent, steps, stops)?;
    Ok(Worked::Ran {
        steps: done.steps as u64,
        end: end(lent.image, done.reason),
    })
}

pub fn make(lent: &mut Lent, settings: Settings) -> Result<Worked, Refused>
    ensures lent { StaysLent lent.old lent.new }
{
    reset::reset(
        lent.image,
        lent.index,
        settings.scale,
        settings.delay,
        settings.installed,
    )?;
    forward(lent, 0, false)?;
    Ok(Worked::Made)
}

// Stays: (c) one function with `back`: the call lends the journal for reading, and the check has no rule for a `&` of a field behind a `&mut` to a struct beside `&mut`s of others.
fn taken_back(
    image: &mut [u8],
    ram: &mut [u8],
    paper: &mut [u8],
    journal: &mut [u8],
    index: &mut [u8],
    steps: u64,
) -> Answer
    ensures journal { journal.new ≡ journal.old }
{
    backward::take_back(image, ram, paper, journal, index, steps)
}

pub fn back(lent: &mut Lent, steps: u64) -> Result<Worked, Refused>
    ensures lent { StaysLent lent.old lent.new }
    ensures journal { lent.new.journal.now ≡ lent.old.journal.now }
{
    let done = taken_back(
        lent.image,
        lent.ram,
        lent.paper,
        lent.journal,
        lent.index,
        steps,
    )?;
    Ok(Worked::TakenBack {
        steps: done.steps as u64,
    })
}
