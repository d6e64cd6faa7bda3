// Run: some steps of the machine of an image, with the records of the newest in the journal.
#![tactic(auto)]

ghost use Rattle.std.specs.Prelude.{◌≡◌, length};
ghost use Rattle.run.specs.Run.{Fits};
ghost use Rattle.state.specs.Layout.{machine_of};
ghost use Rattle.turn.specs.Buffers.{beside_of, buffers_of};
ghost use Rattle.answer.specs.Lent.{passed};
ghost use Rattle.accepted.specs.Left.{left_of};
ghost use Rattle.forward.specs.Run.{beside_test, reason_named, done_run, run_leaves, image_leaves};

use answer::lent::{index_fits, lent_test};
use answer::{Answer, Done, Reason, Refusal};
use look::Stop;
use rules::judged;
use state::IMAGE;
use state::encode::encode;
use state::machine::Machine;

fn reason(why: Stop) -> Reason
    ensures { result ≡ reason_named (Rattle.run.specs.Run.reason_of why) }
{
    match why {
        Stop::Budget => Reason::BudgetSpent,
        Stop::Exception => Reason::Exception,
        Stop::TwoMatches => Reason::TwoMatches,
    }
}

// With nothing left to refuse.
fn done(
    machine: Machine,
    image: &mut [u8],
    execution: &[u8],
    bootstrap: &[u8],
    ram: &mut [u8],
    paper: &mut [u8],
    journal: &mut [u8],
    index: &mut [u8],
    budget: u32,
    stop: u64,
) -> Answer
    requires machine_value { machine ≡ machine_of image.old }
    requires image_len { length image.old ≡ 741 }
    requires fits { Fits (beside_of execution.now bootstrap.now ram.old paper.old journal.old index.old) machine }
    ensures { left_of result (buffers_of image.new execution.now bootstrap.now ram.new paper.new journal.new index.new)
        ≡ done_run
        (buffers_of image.old execution.now bootstrap.now ram.old paper.old journal.old index.old)
        budget stop }
{
    let ran = run::run(
        machine,
        execution,
        bootstrap,
        ram,
        paper,
        journal,
        index,
        budget,
        stop != 0,
    );
    encode(ran.machine, image);
    Ok(Done {
        steps: ran.steps,
        reason: reason(ran.why),
    })
}

// Rows 5, 6 and 10, of lengths that are allowed.
fn with_image(
    image: &mut [u8],
    execution: &[u8],
    bootstrap: &[u8],
    ram: &mut [u8],
    paper: &mut [u8],
    journal: &mut [u8],
    index: &mut [u8],
    budget: u64,
    stop: u64,
) -> Answer
    requires { beside_test (beside_of execution.now bootstrap.now ram.old paper.old journal.old index.old) ≡ passed }
    ensures { left_of result (buffers_of image.new execution.now bootstrap.now ram.new paper.new journal.new index.new)
        ≡ image_leaves
        (buffers_of image.old execution.now bootstrap.now ram.old paper.old journal.old index.old)
        budget stop }
{
    if image.len() != IMAGE {
        return Err(Refusal::Image);
    }
    let verdict = judged(image, paper.len(), journal.len());
    if !verdict.keeps {
        return Err(Refusal::Image);
    }
    if 1_000_000 < budget {
        return Err(Refusal::Range);
    }
    if !index_fits(ram.len(), index.len()) {
        return Err(Refusal::Index);
    }
    let machine = verdict.machine;
    done(
        machine,
        image,
        execution,
        bootstrap,
        ram,
        paper,
        journal,
        index,
        budget as u32,
        stop,
    )
}

pub fn run(
    image: &mut [u8],
    execution: &[u8],
    bootstrap: &[u8],
    ram: &mut [u8],
    paper: &mut [u8],
    journal: &mut [u8],
    index: &mut [u8],
    budget: u64,
    stop: u64,
) -> Answer
    ensures { left_of result (buffers_of image.new execution.now bootstrap.now ram.new paper.new journal.new index.new)
        ≡ run_leaves
        (buffers_of image.old execution.now bootstrap.now ram.old paper.old journal.old index.old)
        budget stop }
{
    lent_test(
        execution.len(),
        bootstrap.len(),
        ram.len(),
        paper.len(),
        journal.len(),
    )?;
    with_image(
        image, execution, bootstrap, ram, paper, journal, index, budget, stop,
    )
}
