// blame and before: the step that last changed a word of RAM is named, or the machine is stood just before it.
#![tactic(auto)]

ghost use Rattle.image.specs.Lent.{StaysLent};

mod culprit; // the step that changed a word

use crate::culprit::{Step, in_frame, last_change, seen, unchanged};
use image::lent::Lent;
use message::blame::Change;
use message::refused::Refused;
use running::{back, run};
use session::work::{Asked, Worked};

// The machine is stood just before the step. It stays there if it is to, or goes forward again by as many steps, which leaves everything as it was (demand 3).
fn stand(lent: &mut Lent, step: Step, stay: bool) -> Result<Worked, Refused>
    ensures lent { StaysLent lent.old lent.new }
{
    back(lent, step.ago)?;
    let culprit = seen(lent.seen(), step);
    if stay {
        return Ok(Worked::Blamed {
            change: Change::Stood(culprit),
            frame: in_frame(lent.index, step.address),
        });
    }
    run(lent, step.ago, false)?;
    Ok(Worked::Blamed {
        change: Change::Found(culprit),
        frame: in_frame(lent.index, step.address),
    })
}

pub fn blame(lent: &mut Lent, asked: Asked) -> Result<Worked, Refused>
    ensures lent { StaysLent lent.old lent.new }
{
    // A run of no steps judges the machine, its ROMs too, before it is asked.
    run(lent, 0, false)?;
    match last_change(lent.seen(), asked.address)? {
        Some(step) => stand(lent, step, asked.stay),
        None => Ok(Worked::Blamed {
            change: unchanged(lent.seen(), asked.address),
            frame: in_frame(lent.index, asked.address),
        }),
    }
}
