// What commands hold.

pub use piece::mark::Span;

#[derive(Clone, Copy)]
pub struct Fresh {
    pub ram: u64,
    pub paper: u64,
    pub journal: u64,
    pub scale: u64,
    pub delay: u64,
    pub printers: u64,
    pub execution: Span,
    pub bootstrap: Span,
}

#[derive(Clone, Copy)]
pub enum Format {
    Hex,
    Signed,
    Unsigned,
    Character,
}

#[derive(Clone, Copy)]
pub enum Unit {
    Byte,
    Half,
    Word,
}

#[derive(Clone, Copy)]
pub struct Look {
    pub count: u64,
    pub format: Format,
    pub unit: Unit,
    pub address: u64,
    pub physical: bool,
}

#[derive(Clone, Copy)]
pub enum Topic {
    All,
    New,
    Load,
    Run,
    Step,
    Back,
    Blame,
    Before,
    Info,
    Paper,
    Examine,
    Compare,
    Save,
    Restore,
    Quit,
    Abandon,
}
