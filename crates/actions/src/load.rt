// load and compare: a file is wanted, or another station, by its name.
use forms::kinds::Span;
use message::Message;
use session::ending::{Then, Wants};
use session::event::Event;
use session::exit::Exit;
use session::mode::Mode;
use session::plan::Plan;
use session::turn::{Turn, begins, quietly, says};
use session::words::{ADDRESS, set_changed, set_name};
use session::work::Work;

pub fn begin(session: &mut [u64; 32], name: Span, address: u64) -> Turn {
    set_name(session, name);
    session[ADDRESS] = address;
    begins(session, Mode::Loading, Wants::File)
}

// The C side loads the other station, and calls station_compare_turn.
pub fn compare(session: &mut [u64; 32], name: Span) -> Turn {
    set_name(session, name);
    begins(session, Mode::Comparing, Wants::Other)
}

pub fn planned(session: &[u64; 32], event: Event) -> Plan {
    if event != Event::FileRead {
        return Plan::Turns(quietly(Then::Refuse(Exit::File)));
    }
    Plan::Works(Work::Load {
        address: session[ADDRESS],
    })
}

pub fn loaded(session: &mut [u64; 32], bytes: u64, address: u64) -> Turn {
    set_changed(session, true);
    says(Message::Loaded { bytes, address }, Then::Ask)
}
