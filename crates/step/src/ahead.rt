// The core as the next tick will leave it, worked out while nothing moves.
ghost use Rattle.std.specs.Prelude.{◌≡◌};
ghost use Rattle.step.specs.Parts.{pending_ahead, ahead_of};

use crate::tick::core_ticked;
use clock::tick_of;
use held::Held;
use held::line::ending_in;
use state::machine::Core;

// A printer that finishes turns its pending bit on; which one it is does not matter, since Cause shows only whether the map is 0.
fn pending_ahead(pending: u32, ending: bool) -> u32
    ensures { result ≡ pending_ahead pending ending }
{
    if ending {
        return 1;
    }
    pending
}

pub fn ahead(core: Core, held: Held, words: &[u32; 40]) -> Core
    ensures { result ≡ ahead_of core held words.now }
{
    let beat = tick_of(held.clock);
    let ending = ending_in(words);
    let pending = pending_ahead(held.pending, ending);
    core_ticked(beat.rang, pending, core)
}
