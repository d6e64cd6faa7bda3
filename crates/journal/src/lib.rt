// The journal over the bytes that the host lends: a step's record at the next slot, which goes round.
#![tactic(auto)]

ghost use Rattle.std.specs.Prelude.{◌≡◌, ◌*◌, ◌/◌, ◌<◌, length};
ghost use Rattle.ring.specs.Slots.{slot, put};
ghost use Rattle.record.specs.Layout.{begun_in};
ghost use Rattle.journal.specs.Journal.{ring_of, Ready, held_record, begun_of, ended_of};

use memory::words::put_words;
use printer::saved::SavedPaper;
use record::Saved;
use record::encode::{encode, saved_words};
use state::machine::Journal;

// The bytes of a slot.
pub const SLOT: usize = 512;

// Where in a slot what the step overwrites begins (docs/RECORD.md).
const SAVED: usize = 236;

const UNUSED: usize = SAVED + 16;

fn put_record(
    journal: &mut [u8],
    next: usize,
    core: &[u32; 14],
    timer: u32,
    pending: u32,
    paper: SavedPaper,
    words: &[u32; 40],
)
    requires next_in_bounds { next < length journal.old / 512 }
    requires core_len { length core.now ≡ 14 }
    requires words_len { length words.now ≡ 40 }
    ensures { journal.new
        ≡ put journal.old (512 * next)
        (begun_in (held_record core.now timer pending paper words.now) (slot 512 journal.old next)) }
{
    let at = SLOT * next;
    encode(
        core,
        timer,
        pending,
        paper,
        words,
        &mut journal[at..at + SLOT],
    );
}

// The first part of a step's record, before the step: all that the run holds. The saved words stay those of the slot till `ended` writes them. With no slots
// nothing is written.
pub fn begun(
    journal: &mut [u8],
    mark: Journal,
    core: &[u32; 14],
    timer: u32,
    pending: u32,
    paper: SavedPaper,
    words: &[u32; 40],
)
    requires ready { Ready journal.old mark }
    requires core_len { length core.now ≡ 14 }
    requires words_len { length words.now ≡ 40 }
    ensures { journal.new ≡ begun_of mark (held_record core.now timer pending paper words.now) journal.old }
{
    let slots = journal.len() / SLOT;
    let next = mark.next_slot as usize;
    if slots == 0 {
        return;
    }
    put_record(journal, next, core, timer, pending, paper, words);
}

// The second part, once the step is decided: what it overwrites. Only now the record counts. With no slots nothing is written and neither word moves.
pub fn ended(journal: &mut [u8], mark: Journal, s: Saved) -> Journal
    requires { Ready journal.old mark }
    ensures { ring_of result journal.new ≡ ended_of mark s journal.old }
{
    let slots = journal.len() / SLOT;
    let next = mark.next_slot as usize;
    if slots == 0 {
        return mark;
    }
    put_words(&saved_words(s), journal, SLOT * next + SAVED);
    put_words(&[0u32; 65], journal, SLOT * next + UNUSED);
    Journal {
        on_hand: slots.min(mark.on_hand as usize + 1) as u32,
        next_slot: ring::next_slot(slots, next) as u32,
    }
}
