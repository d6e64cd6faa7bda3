// How a run holds the core: as its fourteen words, so that a step's record copies them as they stand.
ghost use Rattle.std.specs.Prelude.{◌≡◌};
ghost use Rattle.state.specs.Layout.{kept_words};
ghost use Rattle.held.specs.Core.{core_in};

use cp0::registers::Cp0;
use state::machine::Core;

pub fn core_in(words: &[u32; 14]) -> Core
    ensures { result ≡ core_in words.now }
{
    let [
        hi,
        lo,
        pc,
        next_pc,
        index,
        random,
        entry_hi,
        entry_lo,
        bad_vaddr,
        status,
        cause,
        epc,
        slot,
        branch,
    ] = *words;
    let cp0 = Cp0 {
        index,
        random,
        entry_hi,
        entry_lo,
        bad_vaddr,
        status,
        cause,
        epc,
    };
    Core {
        hi,
        lo,
        pc,
        next_pc,
        cp0,
        slot,
        branch,
    }
}

pub fn core_words(c: Core) -> [u32; 14]
    ensures { result ≡ kept_words c }
{
    let p = c.cp0;
    [
        c.hi,
        c.lo,
        c.pc,
        c.next_pc,
        p.index,
        p.random,
        p.entry_hi,
        p.entry_lo,
        p.bad_vaddr,
        p.status,
        p.cause,
        p.epc,
        c.slot,
        c.branch,
    ]
}

pub fn put_core(c: Core, words: &mut [u32; 14])
    ensures { words.new ≡ kept_words c }
{
    *words = core_words(c);
}
