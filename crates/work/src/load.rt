// load: a file's bytes are put into RAM. What the host writes is no step, so the journal is emptied, and with it the index.
ghost use Rattle.std.specs.Prelude.{◌≡◌};
ghost use Rattle.image.specs.Lent.{StaysLent};

use answer::Refusal;
use image::lent::Lent;
use message::refused::Refused;
use reset::empty;
use session::work::Worked;
use state::IMAGE;
use text::put;

// Where RAM begins.
const RAM: u64 = 0x2000_0000;

// Where the words steps on hand and next slot stand in the image.
const JOURNAL: usize = 493;

// The place in RAM of a physical address from which `len` bytes fit whole.
fn place(address: u64, len: usize, ram: usize) -> Option<usize> {
    let place = address.checked_sub(RAM)? as usize;
    if ram.checked_sub(place)? < len {
        return None;
    }
    Some(place)
}

pub fn load(file: &[u8], lent: &mut Lent, address: u64) -> Result<Worked, Refused>
    ensures lent { StaysLent lent.old lent.new }
    ensures paper { lent.new.paper.now ≡ lent.old.paper.now }
    ensures journal { lent.new.journal.now ≡ lent.old.journal.now }
{
    if lent.image.len() != IMAGE {
        return Err(Refused::Call(Refusal::Image));
    }
    let ram = lent.ram.len();
    let Some(place) = place(address, file.len(), ram) else {
        return Err(Refused::NoRoom { ram: ram as u64 });
    };
    put(lent.ram, place, file);
    put(lent.image, JOURNAL, &[0; 8]);
    empty(lent.index);
    Ok(Worked::Loaded {
        bytes: file.len() as u64,
        address,
    })
}
