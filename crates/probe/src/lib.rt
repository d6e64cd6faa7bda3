// Not for the panel: what tests ask of the archive beside another emulator.
#![tactic(auto)]

ghost use Rattle.std.specs.Prelude.{◌≡◌};
ghost use Rattle.board.specs.Rom.{window_of};
ghost use Rattle.rules.specs.Rules.{good_image};
ghost use Rattle.answer.specs.Answer.{packed_of};
ghost use Rattle.roms.specs.Rom.{rom_answer};
ghost use Rattle.probe.specs.Probe.{flag, CopiedIs};

use answer::packed;
use roms::{rom_answer, rom_window};
use rules::judged;

fn keeps(image: &[u8], paper: usize, journal: usize) -> bool
    ensures { result ≡ good_image image.now paper journal }
{
    image.len() == 741 && judged(image, paper, journal).keeps
}

#[unsafe(no_mangle)]
pub extern "C" fn lavushmir_test_rules(image: &[u8], paper: u64, journal: u64) -> u64
    ensures { result ≡ flag (good_image image.now paper journal) }
{
    u64::from(keeps(image, paper as usize, journal as usize))
}

#[unsafe(no_mangle)]
pub extern "C" fn lavushmir_test_rom_answer(execution: &[u8], bootstrap: &[u8], address: u64) -> u64
    ensures { result ≡ packed_of (rom_answer execution.now bootstrap.now address) }
{
    packed(rom_answer(execution, bootstrap, address))
}

// A returned part cannot go to C: its bytes are copied to `out`, if that has room for four and no more.
#[unsafe(no_mangle)]
pub extern "C" fn lavushmir_test_rom_window<'a>(
    execution: &'a [u8],
    bootstrap: &'a [u8],
    address: u64,
    out: &mut [u8],
) -> u64
    ensures { CopiedIs (window_of execution.now bootstrap.now address) out.old result
        out.new }
{
    let part = rom_window(execution, bootstrap, address);
    let len = part.len() as u64;
    if part.len() != 4 {
        return len;
    }
    if out.len() != 4 {
        return len;
    }
    out.copy_from_slice(part);
    len
}
