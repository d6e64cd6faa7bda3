// Whether the change of a word of RAM is one of a watched byte.
ghost use Rattle.std.specs.Prelude.{◌≡◌, IfSome};
ghost use Rattle.memory.specs.Memory.{load_at};

use crate::says::{self, Store};
use journal::SLOT;
use points::watches::{Watch, rows};
use stub::words::{WATCHED_FROM, WATCHED_TO};

// The virtual address of the byte at a place, where the watch holds it.
fn address(watch: Watch, place: u64) -> Option<u32> {
    let behind = place.checked_sub(watch.place?)?;
    if watch.length <= behind {
        return None;
    }
    Some((watch.address.wrapping_add(behind) % 0x1_0000_0000) as u32)
}

// The virtual address of the first byte of the word that the watch holds and that differs.
fn by_watch(watch: Watch, store: Store, new: u32) -> Option<u32> {
    if !watch.on {
        return None;
    }
    let old = store.old.to_le_bytes();
    let new = new.to_le_bytes();
    (store.place as u64..)
        .zip(old.iter().zip(new.iter()))
        .filter(|(_, (old, new))| old != new)
        .find_map(|(place, _)| address(watch, place))
}

// The address of a watched byte that differs in the word that was stored, which is `new` now.
pub fn change(session: &[u64; 256], store: Store, new: u32) -> Option<u32> {
    rows(session)
        .iter()
        .find_map(|row| by_watch(Watch::from(*row), store, new))
}

// Whether a word at a place can have a watched byte: what is quickly told of nearly every store.
fn may_hold(session: &[u64; 256], place: u32) -> bool {
    (session[WATCHED_FROM] < place as u64 + 4) & ((place as u64) < session[WATCHED_TO])
}

// What the step of a record stored, where the word can have a watched byte.
pub fn stored(session: &[u64; 256], record: &[u8; SLOT]) -> Option<Store>
    ensures { IfSome result (λ store. (store.place ≡ load_at 4 «record».now 240) × (store.old ≡ load_at 4 «record».now 244)) }
{
    says::stored(record).filter(|store| may_hold(session, store.place))
}
