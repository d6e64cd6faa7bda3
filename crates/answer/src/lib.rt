// What a call answers: done with steps and a stop reason, or one of document 01's refusals.
#![tactic(auto)]

ghost use Rattle.std.specs.Prelude.{◌≡◌, ◌<◌, Ok};
ghost use Rattle.answer.specs.Answer.{reason_number, refusal_number, number_of, packed_of};

pub mod lent; // the lengths of what is lent

#[derive(Clone, Copy, PartialEq, Eq)]
pub enum Reason {
    NoReason,
    BudgetSpent,
    Exception,
    TwoMatches, // document 02, L5
}

#[derive(Clone, Copy, PartialEq, Eq)]
pub enum Refusal {
    Ram,
    Rom,
    Paper,
    Journal,
    Image,
    Range,
    TooFar,
    BadRecord,
    Address,
    Index, // document 02, L6
    Word,
    Room,
}

// What a call that is not refused reports.
#[derive(Clone, Copy, PartialEq, Eq)]
pub struct Done {
    pub steps: u32,
    pub reason: Reason,
}

pub type Answer = Result<Done, Refusal>;

impl From<Reason> for u64 {
    ghost from_gives = { λ reason number. number ≡ reason_number reason };

    fn from(reason: Reason) -> u64 {
        match reason {
            Reason::NoReason => 0,
            Reason::BudgetSpent => 1,
            Reason::Exception => 2,
            Reason::TwoMatches => 3,
        }
    }
}

impl From<Refusal> for u64 {
    ghost from_gives = { λ refusal number. number ≡ refusal_number refusal };

    fn from(refusal: Refusal) -> u64 {
        match refusal {
            Refusal::Ram => 1,
            Refusal::Rom => 2,
            Refusal::Paper => 3,
            Refusal::Journal => 4,
            Refusal::Image => 5,
            Refusal::Range => 6,
            Refusal::TooFar => 7,
            Refusal::BadRecord => 8,
            Refusal::Address => 9,
            Refusal::Index => 10,
            Refusal::Word => 11,
            Refusal::Room => 12,
        }
    }
}

fn done_packed(done: Done) -> u64
    ensures { result ≡ packed_of (Ok done) }
{
    u64::from(done.reason) * 0x100 + done.steps as u64 * 0x1_0000_0000
}

// The number in bits 0 to 7, the reason in bits 8 to 15, the steps in bits 32 to 63.
pub fn packed(answer: Answer) -> u64
    ensures { result ≡ packed_of answer }
{
    match answer {
        Ok(done) => done_packed(done),
        Err(refusal) => u64::from(refusal),
    }
}

// The number of documents 01 and 02; 0 where nothing is refused.
pub fn refused(answer: Answer) -> u64
    ensures { result ≡ number_of answer }
{
    match answer {
        Ok(_) => 0,
        Err(refusal) => u64::from(refusal),
    }
}
