// One turn of a session: it is planned, the machine works, the session goes on, and a person is shown what came of it.
#![tactic(auto)]

ghost use Rattle.image.specs.Lent.{StaysLent};

use dispatch::after::after;
use dispatch::plan::planned;
use image::lent::Lent;
use session::ending::answer;
use session::event::Event;
use session::plan::Plan;
use views::show;
use work::perform;

pub fn turn(
    session: &mut [u64; 32],
    event: u64,
    input: &[u8],
    out: &mut [u8],
    lent: &mut Lent,
) -> u64
    ensures lent { StaysLent lent.old lent.new }
{
    let event = Event::from(event);
    let turn = match planned(session, event, input) {
        Plan::Turns(turn) => turn,
        Plan::Works(work) => after(session, perform(work, input, lent)),
    };
    let at = match turn.view {
        Some(view) => show(view, input, out, lent.seen()),
        None => 0,
    };
    answer(session, turn.then, out, at)
}
