// The machine does what a turn asks of it.
#![tactic(auto)]

ghost use Rattle.image.specs.Lent.{StaysLent};

mod judge; // new: whether a station can be made
mod load; // load

use crate::judge::judged;
use crate::load::load;
use blame::blame;
use image::lent::Lent;
use message::refused::Refused;
use running::{back, make, run};
use session::work::{Work, Worked};

pub fn perform(work: Work, file: &[u8], lent: &mut Lent) -> Result<Worked, Refused>
    ensures lent { StaysLent lent.old lent.new }
{
    match work {
        Work::Judge(fresh) => judged(fresh),
        Work::Make(settings) => make(lent, settings),
        Work::Load { address } => load(file, lent, address),
        Work::Run { steps, stops } => run(lent, steps, stops),
        Work::Back { steps } => back(lent, steps),
        Work::Blame(asked) => blame(lent, asked),
    }
}
