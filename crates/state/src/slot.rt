// Request L2: whether the next step is a slot, and where an exception in it goes back to.
ghost use Rattle.std.specs.Prelude.{◌≡◌};
ghost use Rattle.state.specs.Slot.{in_slot, return_of};

use crate::machine::Core;

pub fn in_slot(c: Core) -> bool
    ensures { result ≡ in_slot c }
{
    c.slot == 1
}

// What EPC takes.
pub fn return_of(c: Core) -> u32
    ensures { result ≡ return_of c }
{
    if in_slot(c) {
        return c.branch;
    }
    c.pc
}
