// In what two stations differ: the words of the state, and how many bytes of RAM, paper and journal.
#![tactic(auto)]

mod word_name; // the words of the state image by name

use crate::word_name::WordName;
use phrase::{Address, Grouped, Word};
use std::fmt;
use std::fmt::InlineText;

// What is compared of a station.
#[derive(Clone, Copy)]
pub struct Station<'a> {
    pub image: &'a [u8],
    pub ram: &'a [u8],
    pub paper: &'a [u8],
    pub journal: &'a [u8],
}

// In what a station here differs from another.
#[derive(Clone, Copy)]
pub struct Comparison<'a> {
    pub here: Station<'a>,
    pub there: Station<'a>,
}

// Two images that are compared.
#[derive(Clone, Copy)]
struct States<'a> {
    here: &'a [u8],
    there: &'a [u8],
}

// What is said of two buffers.
#[derive(Clone, Copy)]
enum Judged {
    Lengths { here: usize, there: usize },
    Same,
    // How many bytes differ, and the address of the first.
    Differ { count: usize, first: u64 },
}

// What stands at a place and behind it: nothing, past the end.
fn rest(bytes: &[u8], from: usize) -> &[u8] {
    bytes.get(from..).unwrap_or(&[])
}

// How many bytes differ.
fn count(here: &[u8], there: &[u8]) -> usize {
    here.iter().zip(there).filter(|(a, b)| a != b).count()
}

// `from` is the address of the first byte.
fn judge(here: &[u8], there: &[u8], from: u64) -> Judged {
    if here.len() != there.len() {
        return Judged::Lengths {
            here: here.len(),
            there: there.len(),
        };
    }
    match here.iter().zip(there).position(|(a, b)| a != b) {
        None => Judged::Same,
        Some(first) => Judged::Differ {
            count: count(rest(here, first), rest(there, first)),
            first: from.wrapping_add(first as u64),
        },
    }
}

impl fmt::Display for Judged {
    fn fmt<W: fmt::Write>(&self, f: &mut fmt::Formatter<W>) -> fmt::Result {
        match *self {
            Judged::Lengths { here, there } => write!(
                f,
                "{} bytes here, {} there",
                Grouped(here as u64),
                Grouped(there as u64),
            ),
            Judged::Same => f.write_str("the same"),
            Judged::Differ { count, first } => write!(
                f,
                "{} bytes differ, the first at {}",
                Grouped(count as u64),
                Address(first),
            ),
        }
    }
}

impl States<'_> {
    fn differ_at(&self, k: usize) -> bool {
        image::word(self.here, k) != image::word(self.there, k)
    }
}

impl fmt::Display for States<'_> {
    fn fmt<W: fmt::Write>(&self, f: &mut fmt::Formatter<W>) -> fmt::Result {
        if !(0..image::WORDS).any(|k| self.differ_at(k)) {
            return f.write_str("  nothing\n");
        }
        for k in (0..image::WORDS).filter(|&k| self.differ_at(k)) {
            let here = Word(image::word(self.here, k));
            let there = Word(image::word(self.there, k));
            let name = InlineText::<24>::of(WordName(k));
            write!(f, "  {:<24}{here}  {there}\n", name.as_str())?;
        }
        Ok(())
    }
}

impl fmt::Display for Comparison<'_> {
    fn fmt<W: fmt::Write>(&self, f: &mut fmt::Formatter<W>) -> fmt::Result {
        let Comparison { here, there } = *self;
        write!(
            f,
            "State: what differs       here        there\n{}RAM: {}\npaper: {}\njournal: {}\n",
            States {
                here: here.image,
                there: there.image,
            },
            judge(here.ram, there.ram, 0x2000_0000),
            judge(here.paper, there.paper, 0),
            judge(here.journal, there.journal, 0),
        )
    }
}
