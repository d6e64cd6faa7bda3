// The translation table: sixteen rows of two words, passed and handed back whole.
#![tactic(auto)]

ghost use Rattle.std.specs.Prelude.{◌≡◌, position};
ghost use Rattle.tlb.specs.Entry.{matches_of, read_at, written_at};
ghost use Rattle.tlb.specs.Search.{found_in, lowest_of};
ghost use Rattle.std.specs.List.{list_any};
ghost use Rattle.tlb.specs.Index.{index_of, probed_of, probed_at};

pub mod doubled; // whether an address can meet two matches at all

#[derive(Clone, Copy)]
pub struct Row {
    pub high: u32,
    pub low: u32,
}

// What a search finds: the entry's number, and whether a second one matches.
#[derive(Clone, Copy)]
pub struct Hit {
    pub at: usize,
    pub twice: bool,
}

// Whether an entry stands for the page and the ASID of `sought`, an EntryHi.
pub fn matches(row: Row, sought: u32) -> bool
    ensures { result ≡ matches_of sought row }
{
    row.high / 4096 == sought / 4096
        && (row.high / 64 % 64 == sought / 64 % 64 || row.low / 256 % 2 == 1)
}

fn first(rows: &[Row], sought: u32) -> Option<usize>
    ensures { result ≡ position (matches_of sought) rows.now }
{
    rows.iter().position(|row| matches(*row, sought))
}

// The lowest-numbered entry that matches: it looks no further, where a second one is not asked for.
pub fn lowest(t: [Row; 16], sought: u32) -> Option<usize>
    ensures { result ≡ lowest_of (found_in sought t) }
{
    first(&t, sought)
}

// Whether an entry of `rows` matches.
fn any(rows: &[Row], sought: u32) -> bool
    ensures { result ≡ list_any (matches_of sought) rows.now }
{
    rows.iter().any(|row| matches(*row, sought))
}

// The lowest-numbered entry that matches, and whether one behind it does too.
pub fn search(t: [Row; 16], sought: u32) -> Option<Hit>
    ensures { result ≡ found_in sought t }
{
    let at = lowest(t, sought)?;
    let twice = any(&t[at + 1..], sought);
    Some(Hit { at, twice })
}

pub fn read(t: [Row; 16], i: usize) -> Row
    ensures { result ≡ read_at t i }
{
    t[i % 16]
}

pub fn write(t: [Row; 16], i: usize, row: Row) -> [Row; 16]
    ensures { result ≡ written_at t i row }
{
    let mut next = t;
    next[i % 16] = row;
    next
}

// The number of an entry in the Index or the Random register.
pub fn index(word: u32) -> usize
    ensures { result ≡ index_of word }
{
    (word / 256 % 64) as usize
}

fn probed(found: Option<usize>) -> u32
    ensures { result ≡ probed_at found }
{
    match found {
        Some(i) => (i % 64) as u32 * 256,
        None => 0x8000_0000,
    }
}

// TLBP: what Index is to hold.
pub fn probe(t: [Row; 16], sought: u32) -> u32
    ensures { result ≡ probed_of (found_in sought t) }
{
    probed(lowest(t, sought))
}
