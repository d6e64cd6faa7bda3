// Document 01, "One step", parts 3 and 4: interrupt entry, or fetch and execute.
ghost use Rattle.std.specs.Prelude.{◌≡◌, length};
ghost use Rattle.pages.specs.Pages.{Known};
ghost use Rattle.state.specs.Layout.{HoldsZero};
ghost use Rattle.decide.specs.Lent.{lent_of, Whole};
ghost use Rattle.decide.specs.Decide.{execute_of, decide_of};

use crate::effect::Decision;
use crate::fetch::fetch;
use crate::lent::sizes;
use crate::settle::{refused, settle, trapped};
use cp0::interrupt::interrupts;
use intend::codes::INT;
use intend::intend;
use isa::decode::decode;
use pages::Pages;
use state::machine::Core;
use tlb::Row;

fn execute(
    word: u32,
    core: Core,
    regs: &[u32; 32],
    rows: [Row; 16],
    pages: &Pages,
    execution: &[u8],
    bootstrap: &[u8],
    ram: &[u8],
) -> Decision
    requires whole { Whole (lent_of execution.now bootstrap.now ram.now) }
    requires holds_zero { HoldsZero regs.now }
    requires known { Known pages.now rows (length ram.now) }
    ensures { result ≡ execute_of core regs.now rows (lent_of execution.now bootstrap.now ram.now) word }
{
    let intent = intend(
        decode(word),
        core,
        regs,
        rows,
        pages,
        sizes(execution, bootstrap, ram),
    );
    settle(intent, core, regs, execution, bootstrap, ram)
}

// `core` is as the tick left it; `rows` are the translation table, and `pages` what is remembered of it.
pub fn decide(
    core: Core,
    regs: &[u32; 32],
    rows: [Row; 16],
    pages: &Pages,
    execution: &[u8],
    bootstrap: &[u8],
    ram: &[u8],
) -> Decision
    requires whole { Whole (lent_of execution.now bootstrap.now ram.now) }
    requires holds_zero { HoldsZero regs.now }
    requires known { Known pages.now rows (length ram.now) }
    ensures { result ≡ decide_of core regs.now rows (lent_of execution.now bootstrap.now ram.now) }
{
    if interrupts(core.cp0.status, core.cp0.cause) {
        return trapped(core, INT, 0);
    }
    match fetch(core, rows, pages, execution, bootstrap, ram) {
        Ok(word) => execute(word, core, regs, rows, pages, execution, bootstrap, ram),
        Err(fault) => refused(core, fault, core.pc),
    }
}
