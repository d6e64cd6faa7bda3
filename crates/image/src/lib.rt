// The state image's words at their places (document 01, "The state image"). An image of another length holds 0 everywhere.
#![tactic(auto)]

pub mod lent; // what a turn is lent of a station

ghost use Rattle.std.specs.Prelude.{◌≡◌};
ghost use Rattle.image.specs.Words.{word_of, register_of, clock_of, entry_of, has, printer_of};

pub const WORDS: usize = 184;

// The length word, the version, and the words.
const BYTES: usize = 4 * WORDS + 5;

pub const HI: usize = 31;

pub const LO: usize = 32;

pub const PC: usize = 33;

pub const NEXT_PC: usize = 34;

pub const INDEX: usize = 35;

pub const RANDOM: usize = 36;

pub const ENTRY_HI: usize = 37;

pub const ENTRY_LO: usize = 38;

pub const BAD_VADDR: usize = 39;

pub const STATUS: usize = 40;

pub const CAUSE: usize = 41;

pub const EPC: usize = 42;

// Two words for each of the 16 entries.
pub const TLB: usize = 43;

pub const CLOCK_HIGH: usize = 75;

pub const CLOCK_LOW: usize = 76;

pub const TIMER: usize = 77;

pub const SCALE: usize = 78;

pub const DELAY: usize = 79;

pub const INSTALLED: usize = 80;

// Five words for each of the 8 printers.
pub const PRINTERS: usize = 81;

pub const PENDING: usize = 121;

pub const ON_HAND: usize = 122;

pub const NEXT_SLOT: usize = 123;

pub const SLOT_FLAG: usize = 124;

pub const BRANCH: usize = 125;

pub const DISKS_INSTALLED: usize = 126;

// Seven words for each of the 8 disks.
pub const DISKS: usize = 127;

pub const DISKS_PENDING: usize = 183;

// Word k behind the length word and the version.
#[tactic(auto, unfolding(crate::specs::Words::word_of))]
pub fn word(image: &[u8], k: usize) -> u32
    ensures { result ≡ word_of image.now k }
{
    if WORDS <= k || image.len() != BYTES {
        return 0;
    }
    word::big::word_at(image, 4 * k + 5)
}

// Register 0 is in no image.
pub fn register(image: &[u8], n: usize) -> u32
    ensures { result ≡ register_of image.now n }
{
    match n {
        0 => 0,
        n => word(image, n - 1),
    }
}

pub fn clock(image: &[u8]) -> u64
    ensures { result ≡ clock_of image.now }
{
    word(image, CLOCK_HIGH) as u64 * 0x1_0000_0000 + word(image, CLOCK_LOW) as u64
}

// An entry of the translation table.
#[derive(Clone, Copy)]
pub struct TlbEntry {
    pub high: u32,
    pub low: u32,
}

// Entry i, which is below 16.
pub fn entry(image: &[u8], i: usize) -> TlbEntry
    ensures { result ≡ entry_of image.now i }
{
    let first = TLB + 2 * (i % 16);
    TlbEntry {
        high: word(image, first),
        low: word(image, first + 1),
    }
}

// The words of a printer that is installed.
#[derive(Clone, Copy)]
pub struct PrinterWords {
    pub status: u32,
    pub command: u32,
    pub data0: u32,
    pub steps_left: u32,
    pub printed: u32,
    pub is_pending: bool,
}

// Whether a map of the 8 printers has printer n.
fn has(map: u32, n: usize) -> bool
    ensures { result ≡ has map n }
{
    n < 8 && (map >> n) % 2 == 1
}

// Printer n, if it is installed.
#[tactic(auto, unfolding(crate::specs::Words::printer_of))]
pub fn printer(image: &[u8], n: usize) -> Option<PrinterWords>
    ensures { result ≡ printer_of image.now n }
{
    if !has(word(image, INSTALLED), n) {
        return None;
    }
    let first = PRINTERS + 5 * (n % 8);
    Some(PrinterWords {
        status: word(image, first),
        command: word(image, first + 1),
        data0: word(image, first + 2),
        steps_left: word(image, first + 3),
        printed: word(image, first + 4),
        is_pending: has(word(image, PENDING), n),
    })
}
