// The word around a place of the lent bytes: loads and stores of every width work on it.
ghost use Rattle.std.specs.Prelude.{◌≡◌, ◌+◌, ◌*◌, ◌/◌, ◌≤◌, length};
ghost use Rattle.decide.specs.Lent.{lent_of, sizes_of, around, word_in, Room, Whole};

use board::places::{Place, Sizes};

pub fn word_around(m: &[u8], at: u32) -> u32
    requires { at / 4 * 4 + 4 ≤ length m.now }
    ensures { result ≡ around m.now at }
{
    memory::load_word(m, (at / 4 * 4) as usize)
}

pub fn word_in(place: Place, execution: &[u8], bootstrap: &[u8], ram: &[u8]) -> u32
    requires { Room (lent_of execution.now bootstrap.now ram.now) place }
    ensures { result ≡ word_in (lent_of execution.now bootstrap.now ram.now) place }
{
    match place {
        Place::Ram(at) => word_around(ram, at),
        Place::Execution(at) => word_around(execution, at),
        Place::Bootstrap(at) => word_around(bootstrap, at),
        Place::Device(_) => 0,
    }
}

pub fn sizes(execution: &[u8], bootstrap: &[u8], ram: &[u8]) -> Sizes
    requires { Whole (lent_of execution.now bootstrap.now ram.now) }
    ensures { result ≡ sizes_of (lent_of execution.now bootstrap.now ram.now) }
{
    Sizes {
        ram: ram.len() as u32,
        execution: execution.len() as u32,
        bootstrap: bootstrap.len() as u32,
    }
}
