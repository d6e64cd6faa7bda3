// Rows 1 to 4 of document 01's numbers: whether what the host lends has a length that is allowed.
ghost use Rattle.std.specs.Prelude.{◌≡◌};
ghost use Rattle.answer.specs.Lent.{ram_fits, roms_fit, paper_fits, journal_fits, index_fits, any_index_fits, lent_test};

use crate::Refusal;

pub fn ram_fits(len: usize) -> bool
    ensures { result ≡ ram_fits len }
{
    let frames = len / 4096;
    (len % 4096 == 0) & ((1 <= frames) & (frames <= 4096))
}

fn roms_fit(execution: usize, bootstrap: usize) -> bool
    ensures { result ≡ roms_fit execution bootstrap }
{
    board::rom::fit(execution as u64) & board::rom::fit(bootstrap as u64)
}

pub fn paper_fits(len: usize) -> bool
    ensures { result ≡ paper_fits len }
{
    (len <= 65536) & (len % 8 == 0)
}

pub fn journal_fits(len: usize) -> bool
    ensures { result ≡ journal_fits len }
{
    (len <= 16777216) & (len % 512 == 0)
}

pub fn index_fits(ram: usize, len: usize) -> bool
    ensures { result ≡ index_fits ram len }
{
    len == 16 * (ram / 4096)
}

// Of some RAM.
pub fn any_index_fits(len: usize) -> bool
    ensures { result ≡ any_index_fits len }
{
    let frames = len / 16;
    (len % 16 == 0) & ((1 <= frames) & (frames <= 4096))
}

#[tactic(auto, unfolding(crate::specs::Lent::lent_test))]
pub fn lent_test(
    execution: usize,
    bootstrap: usize,
    ram: usize,
    paper: usize,
    journal: usize,
) -> Result<(), Refusal>
    ensures { result ≡ lent_test execution bootstrap ram paper journal }
{
    if !ram_fits(ram) {
        return Err(Refusal::Ram);
    }
    if !roms_fit(execution, bootstrap) {
        return Err(Refusal::Rom);
    }
    if !paper_fits(paper) {
        return Err(Refusal::Paper);
    }
    if !journal_fits(journal) {
        return Err(Refusal::Journal);
    }
    Ok(())
}
