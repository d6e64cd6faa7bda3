// paper: what a printer printed.
use image::lent::Seen;
use phrase::lay;
use screen::paper::Paper;

// What printer n printed: its eighth of the paper, up to its count. Nothing of one that is not installed.
fn printed<'a>(lent: Seen<'a>, n: usize) -> Option<&'a [u8]> {
    let words = image::printer(lent.image, n)?;
    let eighth = lent.paper.len() / 8;
    // Paper that has a length that is allowed has eighths of at most 8,192 bytes.
    let from = n % 8 * (eighth % 8193);
    lent.paper
        .get(from..)?
        .get(..eighth.min(words.printed as usize))
}

pub fn show(out: &mut [u8], lent: Seen, printer: u64) -> usize {
    let printer = (printer % 8) as usize;
    match printed(lent, printer) {
        Some(printed) => lay(out, 0, Paper { printer, printed }),
        None => 0,
    }
}
