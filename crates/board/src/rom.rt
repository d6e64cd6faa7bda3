// The two ROM calls of document 01: what is answered for a physical address, and the four bytes there.
ghost use Rattle.std.specs.Prelude.{◌≡◌, ◌+◌, ◌≤◌, length, Ok};
ghost use Rattle.board.specs.Rom.{fit_of, held_of, answer_of, four_at, from_of, window_of};

use crate::places::{BOOTSTRAP, EXECUTION, spans};

// Numbers 2 and 9 of document 01.
#[derive(Clone, Copy)]
pub enum RomError {
    BadRom,
    BadAddress,
}

pub fn fit(len: u64) -> bool
    ensures { result ≡ fit_of len }
{
    4 <= len && len <= 65536 && len % 4 == 0
}

fn held(e: u64, b: u64, a: u64) -> bool
    ensures { result ≡ held_of e b a }
{
    a % 4 == 0 && (spans(EXECUTION, e, a) || spans(BOOTSTRAP, b, a))
}

fn answered(e: u64, b: u64, a: u64) -> Result<(), RomError>
    ensures { result ≡ answer_of e b a }
{
    if !fit(e) {
        return Err(RomError::BadRom);
    }
    if !fit(b) {
        return Err(RomError::BadRom);
    }
    if !held(e, b, a) {
        return Err(RomError::BadAddress);
    }
    Ok(())
}

pub fn rom_answer(execution: &[u8], bootstrap: &[u8], address: u64) -> Result<(), RomError>
    ensures { result ≡ answer_of (length execution.now) (length bootstrap.now) address }
{
    answered(execution.len() as u64, bootstrap.len() as u64, address)
}

fn four<'a>(rom: &'a [u8], at: usize) -> &'a [u8]
    requires { at + 4 ≤ length rom.now }
    ensures { result.now ≡ four_at rom.now at }
{
    &rom[at..at + 4]
}

// The four bytes at an address that `rom_answer` does not refuse.
fn from_rom<'a>(execution: &'a [u8], bootstrap: &'a [u8], address: u64) -> &'a [u8]
    requires { answer_of (length execution.now) (length bootstrap.now) address ≡ Ok tt }
    ensures { result.now ≡ from_of execution.now bootstrap.now address }
{
    if spans(EXECUTION, execution.len() as u64, address) {
        return four(execution, (address - EXECUTION as u64) as usize);
    }
    four(bootstrap, (address - BOOTSTRAP as u64) as usize)
}

pub fn rom_window<'a>(execution: &'a [u8], bootstrap: &'a [u8], address: u64) -> &'a [u8]
    ensures { result.now ≡ window_of execution.now bootstrap.now address }
{
    match rom_answer(execution, bootstrap, address) {
        Ok(()) => from_rom(execution, bootstrap, address),
        Err(_) => &execution[0..0],
    }
}
