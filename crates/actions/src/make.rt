// new: a station is made, in two turns. The sizes are judged first; then the files are there, and the machine is reset.
use forms::kinds::Fresh;
use journal::SLOT;
use message::Message;
use message::refused::Refused;
use session::ending::{Then, Wants};
use session::event::Event;
use session::exit::Exit;
use session::mode::Mode;
use session::plan::Plan;
use session::turn::{Turn, begins, quietly, refuses, says};
use session::words::{
    DELAY, INDEX_BYTES, INSTALLED, JOURNAL_BYTES, PAPER_BYTES, RAM_BYTES, SCALE, is_there,
    set_changed, set_name, set_second_name, set_there,
};
use session::work::{Settings, Work};

pub fn begin(session: &[u64; 32], fresh: Fresh) -> Plan {
    if is_there(session) {
        return Plan::Turns(refuses(Refused::StationThere));
    }
    Plan::Works(Work::Judge(fresh))
}

pub fn accepted(session: &mut [u64; 32], fresh: Fresh) -> Turn {
    set_name(session, fresh.execution);
    set_second_name(session, fresh.bootstrap);
    session[RAM_BYTES] = fresh.ram % 4097 * 4096;
    session[PAPER_BYTES] = fresh.paper;
    session[JOURNAL_BYTES] = fresh.journal % 32769 * SLOT as u64;
    session[INDEX_BYTES] = fresh.ram % 4097 * 16;
    session[SCALE] = fresh.scale;
    session[DELAY] = fresh.delay;
    session[INSTALLED] = fresh.printers;
    begins(session, Mode::Making, Wants::Make)
}

pub fn planned(session: &[u64; 32], event: Event) -> Plan {
    if event != Event::Made {
        return Plan::Turns(quietly(Then::Refuse(Exit::File)));
    }
    Plan::Works(Work::Make(Settings {
        scale: session[SCALE],
        delay: session[DELAY],
        installed: session[INSTALLED],
    }))
}

pub fn made(session: &mut [u64; 32]) -> Turn {
    set_there(session);
    set_changed(session, true);
    says(Message::Made, Then::Ask)
}
