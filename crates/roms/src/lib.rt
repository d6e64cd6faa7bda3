// The two ROM calls: what is answered for a physical address, and the four bytes there.
#![tactic(auto)]

ghost use Rattle.std.specs.Prelude.{◌≡◌};
ghost use Rattle.board.specs.Rom.{window_of};
ghost use Rattle.roms.specs.Rom.{told, rom_answer};

use answer::{Answer, Done, Reason, Refusal};
use board::rom::RomError;

fn told(answer: Result<(), RomError>) -> Answer
    ensures { result ≡ told answer }
{
    match answer {
        Ok(()) => Ok(Done {
            steps: 0,
            reason: Reason::NoReason,
        }),
        Err(RomError::BadRom) => Err(Refusal::Rom),
        Err(RomError::BadAddress) => Err(Refusal::Address),
    }
}

pub fn rom_answer(execution: &[u8], bootstrap: &[u8], address: u64) -> Answer
    ensures { result ≡ rom_answer execution.now bootstrap.now address }
{
    told(board::rom::rom_answer(execution, bootstrap, address))
}

// Empty exactly where `rom_answer` refuses.
pub fn rom_window<'a>(execution: &'a [u8], bootstrap: &'a [u8], address: u64) -> &'a [u8]
    ensures { result.now ≡ window_of execution.now bootstrap.now address }
{
    board::rom::rom_window(execution, bootstrap, address)
}
