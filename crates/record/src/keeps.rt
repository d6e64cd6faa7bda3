// Whether bytes keep the record's layout exactly.
ghost use Rattle.std.specs.Prelude.{◌≡◌, length};
ghost use Rattle.record.specs.Layout.{slot_word};
ghost use Rattle.record.specs.Keeps.{paper_keeps, saved_keeps, rest_keeps, keeps_layout};

use crate::decode::{paper, word};
use crate::{KIND, NOTHING, OLD, PLACE, RAM, REGISTER, TLB_ROW};
use printer::saved::SavedPaper;
use word::map::has_bit;

fn saved_keeps(kind: u32, which: u32, first: u32, second: u32) -> bool
    ensures { result ≡ saved_keeps kind which first second }
{
    match kind {
        NOTHING => (which == 0) & (first == 0) & (second == 0),
        REGISTER => (1 <= which) & (which <= 31) & (second == 0),
        TLB_ROW => which < 16,
        RAM => (which % 4 == 0) & (second < 65536),
        _ => false,
    }
}

fn paper_keeps(p: SavedPaper) -> bool
    ensures { result ≡ paper_keeps p }
{
    let each = p
        .bytes
        .iter()
        .enumerate()
        .all(|(n, &byte)| has_bit(n, p.mask) | (byte == 0));
    (p.mask < 256) & each
}

fn rest_keeps(slot: &[u8]) -> bool
    requires { length slot.now ≡ 512 }
    ensures { result ≡ rest_keeps (slot_word slot.now) }
{
    (63..128).all(|k| word(slot, k) == 0)
}

pub fn keeps_layout(slot: &[u8]) -> bool
    requires { length slot.now ≡ 512 }
    ensures { result ≡ keeps_layout slot.now }
{
    saved_keeps(
        word(slot, KIND),
        word(slot, PLACE),
        word(slot, OLD),
        word(slot, 62),
    ) & paper_keeps(paper(slot))
        & rest_keeps(slot)
}
