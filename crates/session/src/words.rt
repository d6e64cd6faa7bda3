// The words of a session. 0 to 10 are shared with the C side (include/station.h), the others are the session's own.
// Stays: (a) an array of words, as C lends it to station_panel_turn (include/station.h). Flags, modes and the exit status in it go through the functions below.
use crate::exit::Exit;
use crate::mode::Mode;
use forms::kinds::Span;

// Flags: a word that is 1 where it is so.
const IS_THERE: usize = 0;

const ON_TERMINAL: usize = 1;

const ONE_COMMAND: usize = 2;

// A name: where it begins and ends in the line. A second one for `new`.
const NAME: usize = 3;

const SECOND_NAME: usize = 5;

pub const RAM_BYTES: usize = 7;

pub const PAPER_BYTES: usize = 8;

pub const JOURNAL_BYTES: usize = 9;

pub const INDEX_BYTES: usize = 10;

const MODE: usize = 11;

// Of a run: the steps still to run, whether it stops at an exception, and the steps run so far.
pub const LEFT: usize = 12;

const STOP: usize = 13;

pub const DONE: usize = 14;

// Where a file is to be loaded.
pub const ADDRESS: usize = 15;

// The three parameters of the reset of a station that is made.
pub const SCALE: usize = 16;

pub const DELAY: usize = 17;

pub const INSTALLED: usize = 18;

// The exit status, once the session ends.
const STATUS: usize = 19;

// Something has changed since the last save.
const CHANGED: usize = 20;

// The lines given so far.
pub const LINES: usize = 21;

// The last save failed, and no line was given since.
const FAILED: usize = 22;

// Of paper: the printer that is shown next, and the one behind the last.
pub const PRINTER: usize = 23;

pub const LAST_PRINTER: usize = 24;

pub fn is_there(session: &[u64; 32]) -> bool {
    session[IS_THERE] == 1
}

pub fn set_there(session: &mut [u64; 32]) {
    session[IS_THERE] = 1;
}

// A person sees prompt and progress.
pub fn is_on_terminal(session: &[u64; 32]) -> bool {
    session[ON_TERMINAL] == 1
}

// The one line comes from the program's arguments.
pub fn is_one_command(session: &[u64; 32]) -> bool {
    session[ONE_COMMAND] == 1
}

// A person types the lines.
pub fn is_at_prompt(session: &[u64; 32]) -> bool {
    is_on_terminal(session) && !is_one_command(session)
}

pub fn set_name(session: &mut [u64; 32], name: Span) {
    session[NAME] = name.from as u64;
    session[NAME + 1] = name.to as u64;
}

pub fn set_second_name(session: &mut [u64; 32], name: Span) {
    session[SECOND_NAME] = name.from as u64;
    session[SECOND_NAME + 1] = name.to as u64;
}

pub fn mode(session: &[u64; 32]) -> Mode {
    Mode::from(session[MODE])
}

pub fn enter(session: &mut [u64; 32], mode: Mode) {
    session[MODE] = u64::from(mode);
}

pub fn stops(session: &[u64; 32]) -> bool {
    session[STOP] != 0
}

pub fn set_stops(session: &mut [u64; 32], stops: bool) {
    session[STOP] = u64::from(stops);
}

pub fn status(session: &[u64; 32]) -> Exit {
    Exit::from((session[STATUS] % 256) as u8)
}

pub fn set_status(session: &mut [u64; 32], status: Exit) {
    session[STATUS] = u64::from(u8::from(status));
}

pub fn has_changed(session: &[u64; 32]) -> bool {
    session[CHANGED] != 0
}

pub fn set_changed(session: &mut [u64; 32], changed: bool) {
    session[CHANGED] = u64::from(changed);
}

pub fn save_failed(session: &[u64; 32]) -> bool {
    session[FAILED] == 1
}

pub fn set_save_failed(session: &mut [u64; 32], failed: bool) {
    session[FAILED] = u64::from(failed);
}
