// How far a form of the grammar fits a line, and the pieces that forms are made of. A piece that is given a mark that fits no more hands it back.
ghost use Rattle.std.specs.Prelude.{◌≡◌, ◌+◌, drop};
ghost use Rattle.piece.specs.Mark.{goes_on, fails_at, stands_of, behind_spaces, behind_name, agreed_of, gap_of, end_of, word_of, count_of, number_in, name_mark_of, name_of};

use text::{NoNumber, Number};

#[derive(Clone, Copy)]
pub struct Mark {
    // The place at which the next piece begins.
    pub at: usize,
    // Whether all pieces up to here fit.
    pub fits: bool,
    // The furthest place whose byte a piece did not fit.
    pub reached: usize,
}

// What a piece read, and the mark behind it.
#[derive(Clone, Copy)]
pub struct Found<T> {
    pub value: T,
    pub mark: Mark,
}

// The bytes from .. to of the line.
#[derive(Clone, Copy)]
pub struct Span {
    pub from: usize,
    pub to: usize,
}

pub fn goes_on(m: Mark, at: usize) -> Mark
    ensures { result ≡ goes_on m at }
{
    Mark {
        at,
        fits: true,
        ..m
    }
}

pub fn fails(m: Mark, place: usize) -> Mark
    ensures { result ≡ fails_at m place }
{
    Mark {
        fits: false,
        reached: m.reached.max(place),
        ..m
    }
}

// Whether a byte stands at a place.
#[tactic(auto, unfolding(crate::specs::Mark::stands_of))]
pub fn stands(line: &[u8], at: usize, byte: u8) -> bool
    ensures { result ≡ stands_of line.now at byte }
{
    line.get(at) == Some(&byte)
}

// What stands at a place and behind it: nothing, past the line's end.
fn rest(line: &[u8], from: usize) -> &[u8]
    ensures { result.now ≡ drop from line.now }
{
    line.get(from..).unwrap_or(&[])
}

// The place behind the spaces at a place. Inlined, its loop would count along each place that is read behind them.
#[inline(never)]
pub fn behind_spaces(line: &[u8], from: usize) -> usize
    ensures { result ≡ behind_spaces line.now from }
{
    from + rest(line, from).iter().take_while(|&&b| b == b' ').count()
}

// The place behind the bytes above 0x20 at a place.
fn behind_name(line: &[u8], from: usize) -> usize
    ensures { result ≡ behind_name line.now from }
{
    from + rest(line, from).iter().take_while(|&&b| b' ' < b).count()
}

// The place behind the bytes at a place that agree with those of a word.
fn behind_agreed(line: &[u8], from: usize, bytes: &[u8]) -> usize
    ensures { result ≡ from + agreed_of bytes.now (drop from line.now) }
{
    let pairs = rest(line, from).iter().zip(bytes.iter());
    from + pairs.take_while(|&(a, b)| a == b).count()
}

// One space or more.
#[tactic(auto, unfolding(crate::specs::Mark::gap_of))]
pub fn gap(line: &[u8], m: Mark) -> Mark
    ensures { result ≡ gap_of line.now m }
{
    if !m.fits {
        return m;
    }
    if stands(line, m.at, b' ') {
        goes_on(m, behind_spaces(line, m.at))
    } else {
        fails(m, m.at)
    }
}

// The line's end, and spaces before it.
#[tactic(auto, unfolding(crate::specs::Mark::end_of))]
pub fn end(line: &[u8], m: Mark) -> Mark
    ensures { result ≡ end_of line.now m }
{
    if !m.fits {
        return m;
    }
    let at = behind_spaces(line, m.at);
    if line.len() <= at {
        goes_on(m, at)
    } else {
        fails(m, at)
    }
}

// The bytes of a word.
#[tactic(auto, unfolding(crate::specs::Mark::word_of))]
pub fn word(line: &[u8], m: Mark, bytes: &[u8]) -> Mark
    ensures { result ≡ word_of line.now m bytes.now }
{
    if !m.fits {
        return m;
    }
    let at = behind_agreed(line, m.at, bytes);
    if at - m.at == bytes.len() {
        goes_on(m, at)
    } else {
        fails(m, at)
    }
}

#[tactic(auto, unfolding(crate::specs::Mark::number_in))]
pub fn number(line: &[u8], m: Mark) -> Found<u64>
    ensures { result ≡ number_in line.now m }
{
    if !m.fits {
        return Found { value: 0, mark: m };
    }
    counted(m, text::number(line, m.at))
}

fn counted(m: Mark, found: Result<Number, NoNumber>) -> Found<u64>
    ensures { result ≡ count_of m found }
{
    match found {
        Ok(n) => Found {
            value: n.value,
            mark: goes_on(m, n.to),
        },
        Err(NoNumber::TooLarge(place) | NoNumber::Nothing(place)) => Found {
            value: 0,
            mark: fails(m, place),
        },
    }
}

// One byte above 0x20 or more.
pub fn name(line: &[u8], m: Mark) -> Found<Span>
    ensures { result ≡ name_of line.now m }
{
    let to = behind_name(line, m.at);
    Found {
        value: Span { from: m.at, to },
        mark: name_mark(m, to),
    }
}

fn name_mark(m: Mark, to: usize) -> Mark
    ensures { result ≡ name_mark_of m to }
{
    if !m.fits {
        return m;
    }
    if m.at < to {
        goes_on(m, to)
    } else {
        fails(m, m.at)
    }
}
