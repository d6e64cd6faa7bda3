// How far a run came, and why it ended.
use phrase::{Decimal, Exception, Steps, Word};
use std::fmt;

#[derive(Clone, Copy)]
pub enum End {
    // As many steps as were asked for are run.
    AllRun,
    Interrupt,
    // The last step entered one, and `at` is where that was.
    Exception { code: u32, at: u32 },
    // The next step would meet two matches.
    TwoMatches,
}

impl fmt::Display for End {
    fn fmt<W: fmt::Write>(&self, f: &mut fmt::Formatter<W>) -> fmt::Result {
        match *self {
            End::AllRun => f.write_str(", as many as were asked for.\n"),
            End::Interrupt => f.write_str(", until Ctrl-C.\n"),
            End::Exception { code, at } => write!(
                f,
                "; the last one entered an exception:\n{} {}, at {} (EPC).\n",
                Decimal(code as u64),
                Exception(code),
                Word(at)
            ),
            End::TwoMatches => f.write_str(
                ", and stopped before the next one:\n\
                two entries of the translation table match its address. info tlb shows them.\n",
            ),
        }
    }
}

#[derive(Clone, Copy)]
pub struct Ran {
    pub steps: u64,
    // The line that tells how far the run is comes away before its report.
    pub wipes: bool,
    pub end: End,
}

impl fmt::Display for Ran {
    fn fmt<W: fmt::Write>(&self, f: &mut fmt::Formatter<W>) -> fmt::Result {
        if self.wipes {
            write!(f, "\r{:60}\r", "")?;
        }
        write!(f, "Ran {}{}", Steps(self.steps), self.end)
    }
}
