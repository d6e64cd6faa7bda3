// The form of `new`.
ghost use Rattle.std.specs.Prelude.{◌≡◌};
ghost use Rattle.forms.specs.Fresh.{making_of, setting_of, file_of};

use crate::kinds::{Fresh, Span};
use piece::behind::named;
use piece::mark::{Found, Mark, end, gap, number, word};

#[tactic(auto, unfolding(crate::specs::Fresh::making_of, crate::specs::Fresh::after_ram, crate::specs::Fresh::after_paper, crate::specs::Fresh::after_journal, crate::specs::Fresh::after_scale, crate::specs::Fresh::after_delay, crate::specs::Fresh::after_printers, crate::specs::Fresh::after_execution))]
pub fn making(line: &[u8], m: Mark) -> Found<Fresh>
    ensures { result ≡ making_of line.now m }
{
    let ram = setting(line, word(line, m, b"new"), b"ram", 64);
    let paper = setting(line, ram.mark, b"paper", 8192);
    let journal = setting(line, paper.mark, b"journal", 4096);
    let scale = setting(line, journal.mark, b"scale", 1);
    let delay = setting(line, scale.mark, b"delay", 100);
    let printers = setting(line, delay.mark, b"printers", 1);
    let execution = file(line, printers.mark, b"execution");
    let bootstrap = file(line, execution.mark, b"bootstrap");
    let value = Fresh {
        ram: ram.value,
        paper: paper.value,
        journal: journal.value,
        scale: scale.value,
        delay: delay.value,
        printers: printers.value,
        execution: execution.value,
        bootstrap: bootstrap.value,
    };
    Found {
        value,
        mark: end(line, bootstrap.mark),
    }
}

// A word and a number, or neither and the value that the setting has then.
#[tactic(auto, unfolding(crate::specs::Fresh::setting_of))]
fn setting(line: &[u8], m: Mark, keyword: &[u8], or: u64) -> Found<u64>
    ensures { result ≡ setting_of line.now m keyword.now or }
{
    let tried = word(line, gap(line, m), keyword);
    if tried.fits {
        return number(line, gap(line, tried));
    }
    Found {
        value: or,
        mark: Mark {
            reached: tried.reached,
            ..m
        },
    }
}

// A word and a name.
#[tactic(auto, unfolding(crate::specs::Fresh::file_of))]
fn file(line: &[u8], m: Mark, keyword: &[u8]) -> Found<Span>
    ensures { result ≡ file_of line.now m keyword.now }
{
    named(line, word(line, gap(line, m), keyword))
}
