// What has happened, by the numbers of include/station.h.
#[derive(Clone, Copy, PartialEq, Eq)]
pub enum Event {
    Start,
    Line,
    GoOn,
    Interrupt,
    EndOfInput,
    FileRead,
    FileMissing,
    Made,
    Saved,
    NotSaved,
    Restored,
    NotRestored,
    OtherMissing,
    TooLong,
}

impl From<u64> for Event {
    // A number that is none of them is taken as GoOn.
    fn from(number: u64) -> Event {
        match number {
            0 => Event::Start,
            1 => Event::Line,
            3 => Event::Interrupt,
            4 => Event::EndOfInput,
            5 => Event::FileRead,
            6 => Event::FileMissing,
            7 => Event::Made,
            8 => Event::Saved,
            9 => Event::NotSaved,
            10 => Event::Restored,
            11 => Event::NotRestored,
            12 => Event::OtherMissing,
            13 => Event::TooLong,
            _ => Event::GoOn,
        }
    }
}
