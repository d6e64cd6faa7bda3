// A step taken back: the entry before it comes back.
ghost use Rattle.std.specs.Prelude.{◌≡◌, ◌%◌, length};
ghost use Rattle.marks.specs.Steps.{given_back_of};

use frames::{replace_any, restored};
use record::Saved;

// `s` is what the record of the step at `time` saved, with `hand` records on hand, its own too.
pub fn give_back(index: &mut [u8], time: u64, hand: u64, s: Saved)
    requires { length index.old % 16 ≡ 0 }
    ensures { index.new ≡ given_back_of time hand s index.old }
{
    if let Saved::RamWord(place, _, distance) = s {
        let at = place as usize;
        let entry = restored(time, hand, distance as u64);
        replace_any(index, time, at / 4096, entry);
    }
}
