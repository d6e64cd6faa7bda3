// The words of the state image by name.
use phrase::Decimal;
use std::fmt;

// Word k of the state image.
#[derive(Clone, Copy)]
pub struct WordName(pub usize);

const TLB_WORDS: [&str; 2] = ["high", "low"];

const PRINTER_WORDS: [&str; 5] = ["STATUS", "COMMAND", "DATA0", "steps left", "printed"];

const DISK_WORDS: [&str; 7] = [
    "STATUS",
    "COMMAND",
    "DATA0",
    "DATA1",
    "steps left",
    "words left",
    "cylinder",
];

// A word that stands alone in the image.
fn alone(k: usize) -> &'static str {
    match k {
        image::HI => "HI",
        image::LO => "LO",
        image::PC => "PC",
        image::NEXT_PC => "next PC",
        image::INDEX => "Index",
        image::RANDOM => "Random",
        image::ENTRY_HI => "EntryHi",
        image::ENTRY_LO => "EntryLo",
        image::BAD_VADDR => "BadVAddr",
        image::STATUS => "Status",
        image::CAUSE => "Cause",
        image::EPC => "EPC",
        image::CLOCK_HIGH => "clock high",
        image::CLOCK_LOW => "clock low",
        image::TIMER => "timer",
        image::SCALE => "time scale",
        image::DELAY => "printer delay",
        image::INSTALLED => "printers installed",
        image::PENDING => "printers pending",
        image::ON_HAND => "steps on hand",
        image::NEXT_SLOT => "next slot",
        image::SLOT_FLAG => "slot flag",
        image::BRANCH => "branch address",
        image::DISKS_INSTALLED => "disks installed",
        _ => "disks pending",
    }
}

impl fmt::Display for WordName {
    fn fmt<W: fmt::Write>(&self, f: &mut fmt::Formatter<W>) -> fmt::Result {
        match self.0 {
            k @ ..image::HI => write!(f, "register {}", Decimal(k as u64 + 1)),
            k @ image::TLB..image::CLOCK_HIGH => {
                let k = k - image::TLB;
                let entry = Decimal(k as u64 / 2);
                write!(f, "TLB entry {entry} {}", TLB_WORDS[k % 2])
            }
            k @ image::PRINTERS..image::PENDING => {
                let k = k - image::PRINTERS;
                let printer = Decimal(k as u64 / 5);
                write!(f, "printer {printer} {}", PRINTER_WORDS[k % 5])
            }
            k @ image::DISKS..image::DISKS_PENDING => {
                let k = k - image::DISKS;
                let disk = Decimal(k as u64 / 7);
                write!(f, "disk {disk} {}", DISK_WORDS[k % 7])
            }
            k => f.write_str(alone(k)),
        }
    }
}
