// The pass that checks: it writes nothing.
ghost use Rattle.std.specs.Prelude.{◌≡◌, ◌≤◌, ◌<◌, max};
ghost use Rattle.ring.specs.Back.{all_fit_core};
ghost use Rattle.journal.specs.Journal.{slots_of};
ghost use Rattle.back.specs.Back.{both, no_roms, view_in};

use journal::SLOT;
use state::machine::Machine;
use undo::fit::checked;

// Are the `k` newest records well formed, each where undoing the newer ones leads. RAM and paper are not lent: their lengths are enough.
pub fn all_fit(m: Machine, ram: usize, paper: usize, journal: &[u8], next: usize, k: usize) -> bool
    requires next_bound { next < max (slots_of journal.now) 1 }
    requires k_bound { k ≤ slots_of journal.now }
    requires paper_bound { paper ≤ 65536 }
    ensures { result ≡ all_fit_core (both no_roms) (slots_of journal.now) journal.now next k (view_in m ram paper) }
{
    let slots = journal.len() / SLOT;
    let mut here = m;
    for j in 0..k {
        let at = SLOT * ring::slot_back(slots, next, j + 1);
        let end = at + SLOT;
        let Some(before) = checked(&journal[at..end], here, ram, paper) else {
            return false;
        };
        here = before;
    }
    true
}
