// Whether a run goes on, looked at before each step: the budget, and the matches that the next step meets (request L5). In a table that is not doubled no step meets two
// (law meets-one), so that all but the budget is passed over: `limit` is the step before which there is something to look at.
#![tactic(auto)]

ghost use Rattle.std.specs.Prelude.{◌≡◌, ◌≤◌, if◌then◌else◌};
ghost use Rattle.tlb.specs.Doubled.{doubled_in};
ghost use Rattle.decide.specs.Lent.{lent_of, Whole};
ghost use Rattle.meets.specs.Meets.{meets_two_of};
ghost use Rattle.held.specs.Core.{core_in};
ghost use Rattle.step.specs.Parts.{ahead_of};
ghost use Rattle.state.specs.Layout.{HoldsZero};
ghost use Rattle.look.specs.Look.{look_of};

use held::Held;
use held::core_words::core_in;
use meets::meets_two;
use step::ahead::ahead;
use tlb::Row;
use tlb::doubled::doubled;

// Why a run ended.
#[derive(Clone, Copy)]
pub enum Stop {
    Budget,
    Exception,
    TwoMatches,
}

#[derive(Clone, Copy)]
pub struct Look {
    pub ends: bool,
    pub why: Stop,
    pub limit: u32,
}

pub fn next_look(rows: [Row; 16], steps: u32, budget: u32) -> u32
    ensures { result ≡ (if doubled_in rows then steps else budget) }
{
    if doubled(rows) {
        return steps;
    }
    budget
}

fn held_back(
    core: &[u32; 14],
    held: Held,
    words: &[u32; 40],
    regs: &[u32; 32],
    rows: [Row; 16],
    execution: &[u8],
    bootstrap: &[u8],
    ram: &[u8],
) -> bool
    requires whole { Whole (lent_of execution.now bootstrap.now ram.now) }
    requires holds_zero { HoldsZero regs.now }
    ensures { result
        ≡ meets_two_of (ahead_of (core_in core.now) held words.now) regs.now rows
        (lent_of execution.now bootstrap.now ram.now) }
{
    let next = ahead(core_in(core), held, words);
    meets_two(next, regs, rows, execution, bootstrap, ram)
}

pub fn looked(
    steps: u32,
    limit: u32,
    budget: u32,
    core: &[u32; 14],
    held: Held,
    words: &[u32; 40],
    regs: &[u32; 32],
    rows: [Row; 16],
    execution: &[u8],
    bootstrap: &[u8],
    ram: &[u8],
) -> Look
    requires steps_le_budget { steps ≤ budget }
    requires whole { Whole (lent_of execution.now bootstrap.now ram.now) }
    requires holds_zero { HoldsZero regs.now }
    ensures { result
        ≡ look_of steps limit budget
        (meets_two_of (ahead_of (core_in core.now) held words.now) regs.now rows
        (lent_of execution.now bootstrap.now ram.now)) }
{
    if steps != limit {
        return Look {
            ends: false,
            why: Stop::Budget,
            limit,
        };
    }
    if steps == budget {
        return Look {
            ends: true,
            why: Stop::Budget,
            limit,
        };
    }
    if held_back(core, held, words, regs, rows, execution, bootstrap, ram) {
        return Look {
            ends: true,
            why: Stop::TwoMatches,
            limit,
        };
    }
    Look {
        ends: false,
        why: Stop::Budget,
        limit: steps + 1,
    }
}
