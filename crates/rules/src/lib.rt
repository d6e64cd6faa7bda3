// Whether an image keeps the rules of document 01. Each test is one line of `&` and `|` on bools, so its term is the definition's.
#![tactic(auto)]

ghost use Rattle.std.specs.Prelude.{◌≡◌, length};
ghost use Rattle.state.specs.Layout.{machine_of};
ghost use Rattle.rules.specs.Rules.{header_keeps, disks_keep, bytes_keep, cause_keeps, random_keeps, entry_keeps, cp0_keeps, tlb_keeps, ranges_keep, journal_keeps, slot_keeps, state_keeps, machine_keeps, keeps_rules};

use cp0::registers::Cp0;
use printer::rules::line_keeps;
use state::decode::decode;
use state::machine::{Cpu, Journal, Machine, Settings};
use tlb::Row;
use word::big::word_at;
use word::map::has_bit;

// Where in an image the disks' words begin.
const DISKS: usize = 509;

// The bits that each register may have.
const STATUS: u32 = 0x1740FF3F;

const CAUSE: u32 = 0xB000FF7C;

const INDEX: u32 = 0x80003F00;

const ENTRY_HI: u32 = 0xFFFFFFC0;

const ENTRY_LO: u32 = 0xFFFFFF00;

// The machine beside the answer: a caller that goes on with it decodes once.
#[derive(Clone, Copy)]
pub struct Verdict {
    pub keeps: bool,
    pub machine: Machine,
}

pub fn judged(image: &[u8], paper: usize, journal: usize) -> Verdict
    requires { length image.now ≡ 741 }
    ensures { result ≡ record { keeps = keeps_rules image.now paper journal; machine = machine_of image.now } }
{
    let machine = decode(image);
    let keeps = bytes_keep(image) & machine_keeps(machine, paper, journal);
    Verdict { keeps, machine }
}

fn bytes_keep(image: &[u8]) -> bool
    requires { length image.now ≡ 741 }
    ensures { result ≡ bytes_keep image.now }
{
    header_keeps(image) & disks_keep(image)
}

fn header_keeps(image: &[u8]) -> bool
    requires { length image.now ≡ 741 }
    ensures { result ≡ header_keeps image.now }
{
    (word_at(image, 0) == 737) & (image[4] == 3)
}

fn disks_keep(image: &[u8]) -> bool
    requires { length image.now ≡ 741 }
    ensures { result ≡ disks_keep image.now }
{
    image[DISKS..].iter().all(|&byte| byte == 0)
}

pub fn machine_keeps(m: Machine, paper: usize, journal: usize) -> bool
    ensures { result ≡ machine_keeps m paper journal }
{
    state_keeps(m, paper) & journal_keeps(m.journal, journal / 512)
}

// Every rule but the journal's: take-back judges an image that has no journal words yet.
pub fn state_keeps(m: Machine, paper: usize) -> bool
    ensures { result ≡ state_keeps m paper }
{
    let Cpu { core, tlb, .. } = m.cpu;
    let Settings {
        scale,
        delay,
        installed,
    } = m.board.settings;
    let line = m.board.line;
    cp0_keeps(core.cp0, line.pending)
        & tlb_keeps(tlb)
        & ranges_keep(u64::from(scale), u64::from(delay), u64::from(installed))
        & line_keeps(line, installed, delay, paper / 8)
        & slot_keeps(core.slot, core.branch)
}

fn slot_keeps(slot: u32, branch: u32) -> bool
    ensures { result ≡ slot_keeps slot branch }
{
    (slot == 0) & (branch == 0) | (slot == 1)
}

fn cp0_keeps(p: Cp0, pending: u32) -> bool
    ensures { result ≡ cp0_keeps p pending }
{
    (p.status & !STATUS == 0)
        & cause_keeps(p.cause, pending)
        & (p.index & !INDEX == 0)
        & random_keeps(p.random)
        & entry_keeps(p.entry_hi, p.entry_lo)
}

fn cause_keeps(cause: u32, pending: u32) -> bool
    ensures { result ≡ cause_keeps cause pending }
{
    (cause & !CAUSE == 0)
        & (cause / 4 % 32 <= 12)
        & (has_bit(14, cause) == (pending != 0))
        & !has_bit(11, cause)
        & !has_bit(12, cause)
        & !has_bit(13, cause)
        & !has_bit(15, cause)
}

fn random_keeps(random: u32) -> bool
    ensures { result ≡ random_keeps random }
{
    (random % 256 == 0) & ((1 <= random / 256) & (random / 256 <= 15))
}

fn entry_keeps(high: u32, low: u32) -> bool
    ensures { result ≡ entry_keeps high low }
{
    (high & !ENTRY_HI == 0) & (low & !ENTRY_LO == 0)
}

fn tlb_keeps(rows: [Row; 16]) -> bool
    ensures { result ≡ tlb_keeps rows }
{
    rows.iter().all(|row| entry_keeps(row.high, row.low))
}

// The ranges of row 6, also of the numbers that reset is given.
pub fn ranges_keep(scale: u64, delay: u64, installed: u64) -> bool
    ensures { result ≡ ranges_keep scale delay installed }
{
    ((1 <= scale) & (scale <= 255)) & ((1 <= delay) & (delay <= 65535)) & (installed <= 255)
}

// Of so many slots: an image of the version before has others.
pub fn journal_keeps(j: Journal, slots: usize) -> bool
    ensures { result ≡ journal_keeps j slots }
{
    (j.on_hand as usize <= slots)
        & (((j.next_slot as usize) < slots) | ((slots == 0) & (j.next_slot == 0)))
}
