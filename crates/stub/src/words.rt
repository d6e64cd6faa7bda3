// The words of a session with gdb. The first two are shared with the C side (include/station.h), the others are the session's own.
// Stays: numbers, and flags of 1 and 0, in an array: C lends the session to station_gdb_turn as 256 words.

// How many bytes of the input the turn has used.
pub const USED: usize = 0;

// How many of the last bytes of the output go to standard error.
pub const SAID: usize = 1;

// What the session is in the middle of: a Mode.
pub const MODE: usize = 2;

// 1: packets are not acknowledged (QStartNoAckMode).
pub const QUIET: usize = 3;

// Of a range step: it goes on while PC is here or above, and below there.
pub const RANGE_FROM: usize = 4;

pub const RANGE_TO: usize = 5;

// 1: the PC from which a run begins is not looked at.
pub const UNSEEN: usize = 6;

// 1: a 0x03 came while the machine stood. The next run stops at once.
pub const INTERRUPTED: usize = 7;

// 1: something has changed since the last save.
pub const CHANGED: usize = 8;

// The number of the Signal of the last stop; 0: there was none.
pub const SIGNAL: usize = 9;

// The length of the last reply, which may be asked for again.
pub const REPLY: usize = 10;

// A Line for standard error; 0: nothing is to be said.
pub const LINE: usize = 11;

// How many breakpoints and watches there are.
pub const BREAKS: usize = 12;

pub const WATCHES: usize = 13;

// All watched bytes of RAM lie from the first place on and below the second.
pub const WATCHED_FROM: usize = 14;

pub const WATCHED_TO: usize = 15;

// Four words for each watch: see the crate points.
pub const FIRST_WATCH: usize = 32;

pub const MOST_WATCHES: usize = 16;

// A word for each breakpoint.
pub const FIRST_BREAK: usize = 96;

pub const MOST_BREAKS: usize = 160;
