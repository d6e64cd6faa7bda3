// What the session is in the middle of.
#[derive(Clone, Copy)]
pub enum Mode {
    Idle = 0,
    Running = 1,
    Loading = 2,
    Making = 3,
    Saving = 4,
    Ending = 5,
    Restoring = 6,
    Comparing = 7,
    Printing = 8,
}

impl From<u64> for Mode {
    // A number that is none of them is taken as Idle.
    fn from(number: u64) -> Mode {
        match number {
            1 => Mode::Running,
            2 => Mode::Loading,
            3 => Mode::Making,
            4 => Mode::Saving,
            5 => Mode::Ending,
            6 => Mode::Restoring,
            7 => Mode::Comparing,
            8 => Mode::Printing,
            _ => Mode::Idle,
        }
    }
}

impl From<Mode> for u64 {
    fn from(mode: Mode) -> u64 {
        mode as u64
    }
}
