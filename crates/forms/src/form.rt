// The forms that several commands share, and which of two readings of a line counts.
ghost use Rattle.std.specs.Prelude.{◌≡◌, [], ◌∷◌};
ghost use Rattle.forms.specs.Form.{better_of, best_of, plain_of, numbered_of};

use crate::kinds::Topic;
use piece::behind::counted;
use piece::mark::{Mark, end, word};

// The forms of the language, by what they ask for.
#[derive(Clone, Copy)]
pub enum Form {
    New,
    Load,
    Compare,
    Save,
    Restore,
    Quit,
    Abandon,
    Run,
    RunToException,
    Step,
    Back,
    Blame,
    Before,
    Registers,
    Cp0,
    Tlb,
    Clocks,
    Printers,
    Station,
    Paper,
    Papers,
    Examine,
    Physical,
    Help(Topic),
}

// A line read by one form: how far the form fits, and the number that it holds where it fits whole.
#[derive(Clone, Copy)]
pub struct Reading {
    pub mark: Mark,
    pub form: Form,
    pub value: u64,
}

// The one that fits; where none does, the one that fits further.
#[tactic(auto, unfolding(crate::specs::Form::better_of))]
pub fn better(a: Reading, b: Reading) -> Reading
    ensures { result ≡ better_of a b }
{
    if a.mark.fits {
        return a;
    }
    if b.mark.fits {
        return b;
    }
    if a.mark.reached < b.mark.reached {
        return b;
    }
    a
}

// A word alone.
pub fn plain(line: &[u8], m: Mark, first: &[u8], form: Form, value: u64) -> Reading
    ensures { result ≡ plain_of line.now m first.now form value }
{
    let mark = end(line, word(line, m, first));
    Reading { mark, form, value }
}

// A word and a number.
pub fn numbered(line: &[u8], m: Mark, first: &[u8], form: Form) -> Reading
    ensures { result ≡ numbered_of line.now m first.now form }
{
    let n = counted(line, word(line, m, first));
    let mark = n.mark;
    Reading {
        mark,
        form,
        value: n.value,
    }
}

// What was read before, or a word alone.
pub fn or_plain(
    before: Reading,
    line: &[u8],
    m: Mark,
    first: &[u8],
    form: Form,
    value: u64,
) -> Reading
    ensures { result ≡ better_of before (plain_of line.now m first.now form value) }
{
    better(before, plain(line, m, first, form, value))
}

// What was read before, or a word and a number.
pub fn or_numbered(before: Reading, line: &[u8], m: Mark, first: &[u8], form: Form) -> Reading
    ensures { result ≡ better_of before (numbered_of line.now m first.now form) }
{
    better(before, numbered(line, m, first, form))
}

// What was read before, or a word that asks for one, or a word and a number.
pub fn or_times(before: Reading, line: &[u8], m: Mark, first: &[u8], form: Form) -> Reading
    ensures { result ≡
        best_of before
        (plain_of line.now m first.now form 1 ∷ numbered_of line.now m first.now form ∷ []) }
{
    or_numbered(
        or_plain(before, line, m, first, form, 1),
        line,
        m,
        first,
        form,
    )
}
