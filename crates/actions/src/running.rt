// run, stepi: at most 100,000 steps in a turn, until as many as asked for are run, an exception or two matches stop them, or Ctrl-C comes.
use message::Message;
use message::ran::{End, Ran};
use session::ending::{Then, Wants};
use session::event::Event;
use session::mode::Mode;
use session::plan::Plan;
use session::turn::{Turn, begins, quietly, says};
use session::words::{DONE, LEFT, is_on_terminal, set_changed, set_stops, stops};
use session::work::Work;

const MOST: u64 = 100_000;

// How often a person sees how far a run is.
const SHOWN: u64 = 1_000_000;

pub fn begin(session: &mut [u64; 32], steps: u64, stops: bool) -> Turn {
    session[LEFT] = steps;
    set_stops(session, stops);
    session[DONE] = 0;
    begins(session, Mode::Running, Wants::GoOn)
}

fn report(session: &[u64; 32], end: End) -> Message {
    let steps = session[DONE];
    Message::Ran(Ran {
        steps,
        wipes: is_on_terminal(session) && SHOWN <= steps,
        end,
    })
}

pub fn planned(session: &[u64; 32], event: Event) -> Plan {
    if event == Event::Interrupt {
        return Plan::Turns(says(report(session, End::Interrupt), Then::Pause));
    }
    Plan::Works(Work::Run {
        steps: session[LEFT].min(MOST),
        stops: stops(session),
    })
}

// The words after some more steps.
fn count(session: &mut [u64; 32], steps: u64) {
    session[LEFT] = session[LEFT].saturating_sub(steps);
    session[DONE] = session[DONE].wrapping_add(steps);
    if steps != 0 {
        set_changed(session, true);
    }
}

fn goes_on(session: &[u64; 32]) -> Turn {
    let steps = session[DONE];
    let then = Then::Want(Wants::GoOn);
    if is_on_terminal(session) && steps % SHOWN == 0 {
        return says(Message::GoesOn { steps }, then);
    }
    quietly(then)
}

pub fn ran(session: &mut [u64; 32], steps: u64, end: End) -> Turn {
    count(session, steps);
    if matches!(end, End::AllRun) && session[LEFT] != 0 {
        return goes_on(session);
    }
    says(report(session, end), Then::Ask)
}
