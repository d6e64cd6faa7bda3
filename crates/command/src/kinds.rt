// The commands.
use forms::kinds::{Fresh, Look, Span, Topic};

#[derive(Clone, Copy)]
pub enum Command {
    Nothing,
    New(Fresh),
    Load(Span, u64),
    Run(u64),
    RunToException(u64),
    Step(u64),
    Back(u64),
    Blame(u64),
    Before(u64),
    Registers,
    Cp0,
    Tlb,
    Clocks,
    Printers,
    Station,
    Paper(u64),
    Papers,
    Examine(Look),
    Compare(Span),
    Save,
    Restore,
    Quit,
    Abandon,
    Help(Topic),
}
