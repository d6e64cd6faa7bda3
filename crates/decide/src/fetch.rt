// The word at PC, or the exception that its fetch is.
ghost use Rattle.std.specs.Prelude.{◌≡◌, length};
ghost use Rattle.pages.specs.Pages.{Known};
ghost use Rattle.decide.specs.Lent.{lent_of, Whole};
ghost use Rattle.decide.specs.Fetch.{fetch_of};

use crate::lent::{sizes, word_in};
use board::places::RAM;
use cp0::privilege::mode_of;
use pages::{Pages, near, place};
use reach::Fault;
use reach::access::{Access, Kind, Width};
use reach::plain::plain;
use state::machine::Core;
use tlb::Row;

pub fn fetch_slow(
    core: Core,
    rows: [Row; 16],
    execution: &[u8],
    bootstrap: &[u8],
    ram: &[u8],
) -> Result<u32, Fault>
    requires { Whole (lent_of execution.now bootstrap.now ram.now) }
    ensures { result ≡ fetch_of core rows (lent_of execution.now bootstrap.now ram.now) }
{
    let lent = sizes(execution, bootstrap, ram);
    let access = Access {
        kind: Kind::Fetch,
        width: Width::Four,
    };
    let cp0 = core.cp0;
    let to = reach::physical(mode_of(cp0.status), access, core.pc, rows, cp0.entry_hi);
    let place = reach::landed(access, lent, to)?;
    Ok(word_in(place, execution, bootstrap, ram))
}

// The plain access first: what is aligned and in RAM with VM off is read at once; then the page that is remembered.
pub fn fetch(
    core: Core,
    rows: [Row; 16],
    pages: &Pages,
    execution: &[u8],
    bootstrap: &[u8],
    ram: &[u8],
) -> Result<u32, Fault>
    requires whole { Whole (lent_of execution.now bootstrap.now ram.now) }
    requires known { Known pages.now rows (length ram.now) }
    ensures { result ≡ fetch_of core rows (lent_of execution.now bootstrap.now ram.now) }
{
    if plain(core.cp0.status, Width::Four, ram.len() as u32, core.pc) {
        return Ok(memory::load_word(ram, (core.pc - RAM) as usize));
    }
    if let Some(page) = near(
        pages.fetches,
        Width::Four,
        core.cp0.status,
        core.cp0.entry_hi,
        core.pc,
    ) {
        return Ok(memory::load_word(ram, place(page.frame, core.pc) as usize));
    }
    fetch_slow(core, rows, execution, bootstrap, ram)
}
