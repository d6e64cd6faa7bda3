// Whether a record is well formed, as document 01 says it.
ghost use Rattle.std.specs.Prelude.{◌≡◌, ◌≤◌, length};
ghost use Rattle.undo.specs.Fit.{ram_place_fits, paper_places_fit, checked_of};

use crate::back::machine_back;
use printer::Printer;
use record::Saved;
use record::decode::decode;
use record::keeps::keeps_layout;
use rules::state_keeps;
use state::machine::Machine;
use word::map::has_bit;

fn ram_place_fits(s: Saved, ram: usize) -> bool
    ensures { result ≡ ram_place_fits s ram }
{
    match s {
        Saved::RamWord(place, _, _) => place as usize + 4 <= ram,
        _ => true,
    }
}

fn paper_places_fit(mask: u32, printers: [Printer; 8], paper: usize) -> bool
    requires { paper ≤ 65536 }
    ensures { result ≡ paper_places_fit mask printers paper }
{
    let room = paper / 8;
    let mut ok = true;
    for (n, p) in printers.iter().enumerate() {
        ok = ok & (!has_bit(n, mask) | (n * room + (p.count as usize) < paper));
    }
    ok
}

// The machine before the step, where the record fits: the check goes on with it. An `if` hands it on: `then_some` copies it twice more for each record.
pub fn checked(slot: &[u8], m: Machine, ram: usize, paper: usize) -> Option<Machine>
    requires slot_len { length slot.now ≡ 512 }
    requires paper_bound { paper ≤ 65536 }
    ensures { result ≡ checked_of slot.now m ram paper }
{
    if !keeps_layout(slot) {
        return None;
    }
    let r = decode(slot);
    let before = machine_back(r, m);
    let fits = ram_place_fits(r.saved, ram)
        & paper_places_fit(r.paper.mask, r.printers, paper)
        & state_keeps(before, paper);
    if fits { Some(before) } else { None }
}
