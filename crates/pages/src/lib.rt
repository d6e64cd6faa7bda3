// Document 02, L9: the last page translated, one for fetches and one for data, remembered inside one run. It stands in no image, so that reset and take-back cannot leave an
// old one behind. Its key holds page, ASID and mode, so that a change of any of them cannot meet it; only a write to the table makes it untrue.
#![tactic(auto)]

ghost use Rattle.std.specs.Prelude.{◌≡◌, ◌+◌, ◌%◌, ◌<◌, ◌≤◌, length};
ghost use Rattle.pages.specs.Pages.{
  key_of,
  in_ram,
  single_in,
  is_open,
  page_of,
  is_near,
  with_key,
  near_of,
  Told,
  Known,
  Inside,
};

use alu::sum::addiu;
use board::places::RAM;
use reach::access::Width;
use reach::check::aligned;
use tlb::{Hit, Row};
use word::map::has_bit;

// A page that is remembered: what it is known by, where its frame begins in RAM, and D.
#[derive(Clone, Copy)]
pub struct Page {
    pub key: u32,
    pub frame: u32,
    pub dirty: bool,
}

#[derive(Clone, Copy)]
pub struct Pages {
    pub fetches: Option<Page>,
    pub accesses: Option<Page>,
}

// All that the answer for a translated address goes by, beside the table and the place in the page.
pub fn key(status: u32, entry: u32, a: u32) -> u32
    ensures { result ≡ key_of status entry a }
{
    a / 4096 * 4096 + entry / 64 % 64 * 64 + status / 2 % 2 * 2 + 1
}

// An EntryLo with V on whose frame RAM holds.
#[tactic(auto, unfolding(crate::specs::Pages::in_ram))]
fn in_ram(low: u32, ram: u32) -> bool
    ensures { result ≡ in_ram low ram }
{
    RAM <= low && has_bit(9, low) && (low - RAM) / 4096 < ram / 4096
}

// The EntryLo of a single match: only such a page is remembered (L5).
fn single(found: Option<Hit>, rows: [Row; 16]) -> Option<u32>
    ensures { result ≡ single_in found rows }
{
    match found {
        Some(Hit { at, twice: false }) => Some(tlb::read(rows, at).low),
        _ => None,
    }
}

// Whether a key's page is translated, and its mode may reach it.
fn is_open(key: u32) -> bool
    ensures { result ≡ is_open key }
{
    0x2000_0000 <= key && (!has_bit(1, key) || 0x8000_0000 <= key)
}

// What is to be remembered of a key's page.
#[tactic(auto, unfolding(crate::specs::Pages::page_of))]
fn lookup(key: u32, rows: [Row; 16], ram: u32) -> Option<Page>
    ensures { result ≡ page_of key rows ram }
{
    if !is_open(key) {
        return None;
    }
    let low = single(tlb::search(rows, key), rows)?;
    if !in_ram(low, ram) {
        return None;
    }
    Some(Page {
        key,
        frame: low / 4096 * 4096 - RAM,
        dirty: has_bit(10, low),
    })
}

// The page, if it is the one of the key.
fn with_key(known: Option<Page>, key: u32) -> Option<Page>
    ensures { result ≡ with_key known key }
{
    match known {
        Some(page) if page.key == key => known,
        _ => None,
    }
}

fn remember(known: Option<Page>, key: u32, rows: [Row; 16], ram: u32) -> Option<Page>
    requires { Told known rows ram }
    ensures { Told result rows ram }
{
    if with_key(known, key).is_some() {
        return known;
    }
    lookup(key, rows, ram).or(known)
}

fn is_near(known: u32, width: Width, status: u32, entry: u32, a: u32) -> bool
    ensures { result ≡ is_near known width status entry a }
{
    known == key(status, entry, a) && has_bit(24, status) && aligned(width, a)
}

// The page that is remembered, where an access is to it.
pub fn near(known: Option<Page>, width: Width, status: u32, entry: u32, a: u32) -> Option<Page>
    ensures { result ≡ near_of known width status entry a }
{
    match known {
        Some(page) if is_near(page.key, width, status, entry, a) => known,
        _ => None,
    }
}

// The place in RAM of an address in the page whose frame is at `frame`.
pub fn place(frame: u32, a: u32) -> u32
    requires { frame + 4096 ≤ 4294967296 }
    ensures { result ≡ frame + a % 4096 }
{
    frame + a % 4096
}

// The key of the address that a load or store asks for, if the word is one.
fn data_key(status: u32, entry: u32, word: u32, regs: &[u32; 32]) -> u32 {
    let base = (word / 0x20_0000 % 32) as usize;
    key(status, entry, addiu(regs[base], word % 0x1_0000))
}

fn word_at(frame: u32, pc: u32, ram: &[u8]) -> u32
    requires ram_len_bound { length ram.now ≤ 4294967296 }
    requires frame_in_bounds { frame + 4096 ≤ length ram.now }
{
    memory::load_word(ram, place(frame, pc / 4 * 4) as usize)
}

// Whether the page of the next instruction, or of the load or store that it is, is not the one remembered.
fn lacks(pages: &Pages, status: u32, entry: u32, pc: u32, regs: &[u32; 32], ram: &[u8]) -> bool
    requires ram_len_bound { length ram.now ≤ 4294967296 }
    requires inside { Inside pages.now (length ram.now) }
{
    let Some(page) = with_key(pages.fetches, key(status, entry, pc)) else {
        return true;
    };
    let word = word_at(page.frame, pc, ram);
    if word < 0x8000_0000 {
        return false;
    }
    with_key(pages.accesses, data_key(status, entry, word, regs)).is_none()
}

fn bring(
    pages: &mut Pages,
    status: u32,
    entry: u32,
    pc: u32,
    regs: &[u32; 32],
    rows: [Row; 16],
    ram: &[u8],
)
    requires ram_len_bound { length ram.now < 4294967296 }
    requires known { Known pages.old rows (length ram.now) }
    ensures { Known pages.new rows (length ram.now) }
{
    let size = ram.len() as u32;
    let asked = key(status, entry, pc);
    pages.fetches = remember(pages.fetches, asked, rows, size);
    let Some(page) = with_key(pages.fetches, asked) else {
        return;
    };
    let word = word_at(page.frame, pc, ram);
    if word < 0x8000_0000 {
        return;
    }
    pages.accesses = remember(
        pages.accesses,
        data_key(status, entry, word, regs),
        rows,
        size,
    );
}

// Before a step: the pages that it is going to ask for.
pub fn follow(
    pages: &mut Pages,
    status: u32,
    entry: u32,
    pc: u32,
    regs: &[u32; 32],
    rows: [Row; 16],
    ram: &[u8],
)
    requires ram_len_bound { length ram.now < 4294967296 }
    requires known { Known pages.old rows (length ram.now) }
    ensures { Known pages.new rows (length ram.now) }
{
    if !has_bit(24, status) {
        return;
    }
    if !lacks(pages, status, entry, pc, regs, ram) {
        return;
    }
    bring(pages, status, entry, pc, regs, rows, ram);
}
