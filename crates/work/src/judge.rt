// new: whether a station can be made, before its files are there.
use answer::Refusal;
use forms::kinds::Fresh;
use message::refused::Refused;
use session::work::Worked;
use state::IMAGE;

// Rows 1, 3, 4 and 6 of document 01's numbers.
fn allowed(fresh: Fresh) -> Result<(), Refusal> {
    if !matches!(fresh.ram, 1..=4096) {
        return Err(Refusal::Ram);
    }
    if 65536 < fresh.paper || fresh.paper % 8 != 0 {
        return Err(Refusal::Paper);
    }
    if 32768 < fresh.journal {
        return Err(Refusal::Journal);
    }
    let mut image = [0; IMAGE];
    let mut index = [0; 16];
    reset::reset(
        &mut image,
        &mut index,
        fresh.scale,
        fresh.delay,
        fresh.printers,
    )?;
    Ok(())
}

pub fn judged(fresh: Fresh) -> Result<Worked, Refused> {
    allowed(fresh)?;
    Ok(Worked::Accepted(fresh))
}
