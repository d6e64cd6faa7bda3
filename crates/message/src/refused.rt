// Why something is refused: what is wrong and what to do.
ghost use Rattle.std.specs.Prelude.{◌≡◌};
ghost use Rattle.message.specs.declared.refused.Refused.TheVariants.{Call};

use answer::Refusal;
use phrase::{Decimal, Grouped};
use std::fmt;

#[derive(Clone, Copy)]
pub enum Refused {
    // A call refuses.
    Call(Refusal),
    // The word whose last change is looked for is not in RAM, which has so many bytes.
    NoWord { ram: u64 },
    // A line is refused before any call is made.
    NoStation,
    StationThere,
    // RAM has so many bytes.
    NoRoom { ram: u64 },
    NoPrinter,
    LineTooLong,
    NoAddress,
}

impl From<Refusal> for Refused {
    ghost from_gives = { λ refusal refused. refused ≡ Call refusal };

    fn from(refusal: Refusal) -> Refused {
        Refused::Call(refusal)
    }
}

fn no_word<W: fmt::Write>(f: &mut fmt::Formatter<W>, ram: u64) -> fmt::Result {
    write!(
        f,
        "Refused: give a multiple of 4 in RAM, which is {} bytes from 0x20000000.\n",
        Grouped(ram)
    )
}

// The number of a refusal, what is wrong and what to do.
fn call<W: fmt::Write>(f: &mut fmt::Formatter<W>, refusal: Refusal) -> fmt::Result {
    let advice = match refusal {
        Refusal::Ram => "RAM is not 1 to 4,096 frames. Give ram 1 to 4096.",
        Refusal::Rom => "a ROM is not 4 to 65,536 bytes in words. Give another file.",
        Refusal::Paper => "paper is not 0 to 65,536 bytes, in eights. Give paper 8192.",
        Refusal::Journal => "the journal is over 32,768 steps. Give journal 0 to 32768.",
        Refusal::Image => "the state breaks a rule of the machine. Go back by restore.",
        Refusal::Range => "give scale 1 to 255, delay 1 to 65535, printers 0 to 255.",
        Refusal::TooFar => "so many steps are not on hand. info station says how many are.",
        Refusal::BadRecord => "a record of the journal is damaged. Go back less, or restore.",
        Refusal::Address => "no ROM has that word. Give a multiple of 4 in a ROM.",
        Refusal::Index => "the index does not fit the RAM. Go back by restore.",
        Refusal::Word => return no_word(f, 0),
        Refusal::Room => "no room for the answer. This is a fault of the program.",
    };
    let number = Decimal(u64::from(refusal));
    write!(f, "Refused ({number}): {advice}\n")
}

impl fmt::Display for Refused {
    fn fmt<W: fmt::Write>(&self, f: &mut fmt::Formatter<W>) -> fmt::Result {
        match *self {
            Refused::Call(refusal) => call(f, refusal),
            Refused::NoWord { ram } => no_word(f, ram),
            Refused::NoStation => f.write_str(
                "Refused: no station is here yet. Make one: new execution FILE bootstrap FILE\n",
            ),
            Refused::StationThere => f.write_str(
                "Refused: a station is here already. Give another folder to make one there.\n",
            ),
            Refused::NoRoom { ram } => write!(
                f,
                "Refused: the file does not fit. RAM is {} bytes from 0x20000000.\n",
                Grouped(ram)
            ),
            Refused::NoPrinter => {
                f.write_str("Refused: printers have the numbers 0 to 7. Try info printers.\n")
            }
            Refused::LineTooLong => f.write_str(
                "Refused: a line has at most 1,024 characters. Make it shorter.\n",
            ),
            Refused::NoAddress => f.write_str("An address has 32 bits: at most 0xffffffff.\n"),
        }
    }
}
