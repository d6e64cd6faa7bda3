// Exit statuses.
#[derive(Clone, Copy)]
pub enum Exit {
    Done,
    // A line asked for what can't be done.
    Refused,
    // The arguments are no command.
    Usage,
    // A file could not be read or written.
    File,
    // One that only a session with words of another's making holds.
    Other(u8),
}

impl From<Exit> for u8 {
    fn from(exit: Exit) -> u8 {
        match exit {
            Exit::Done => 0,
            Exit::Refused => 1,
            Exit::Usage => 2,
            Exit::File => 3,
            Exit::Other(status) => status,
        }
    }
}

impl From<u8> for Exit {
    fn from(status: u8) -> Exit {
        match status {
            0 => Exit::Done,
            1 => Exit::Refused,
            2 => Exit::Usage,
            3 => Exit::File,
            other => Exit::Other(other),
        }
    }
}
