// save, quit, restore: what is kept, and the end of a session.
use message::Message;
use session::ending::{Then, Wants};
use session::event::Event;
use session::exit::Exit;
use session::mode::Mode;
use session::turn::{Turn, begins, quietly, says};
use session::words::{has_changed, is_at_prompt, set_changed, set_save_failed, status};

pub fn begin(session: &mut [u64; 32]) -> Turn {
    if !has_changed(session) {
        return says(Message::Unchanged, Then::Ask);
    }
    begins(session, Mode::Saving, Wants::Save)
}

pub fn saved(session: &mut [u64; 32], event: Event) -> Turn {
    if event != Event::Saved {
        return quietly(Then::Refuse(Exit::File));
    }
    set_changed(session, false);
    says(Message::Saved, Then::Ask)
}

// After the save before the end. A person stays if it failed, so that nothing is lost.
pub fn ending(session: &mut [u64; 32], event: Event) -> Turn {
    if event == Event::Saved {
        set_changed(session, false);
        return quietly(Then::End(status(session)));
    }
    if !is_at_prompt(session) {
        return quietly(Then::End(Exit::File));
    }
    set_save_failed(session, true);
    says(Message::NotSaved, Then::Ask)
}

pub fn restore(session: &mut [u64; 32]) -> Turn {
    begins(session, Mode::Restoring, Wants::Restore)
}

pub fn restoring(session: &mut [u64; 32], event: Event) -> Turn {
    if event != Event::Restored {
        return quietly(Then::Refuse(Exit::File));
    }
    set_changed(session, false);
    says(Message::Restored, Then::Ask)
}
