// monitor: lines of the station's own language that gdb passes on. Those that look, blame, before, and reset; all else gdb does itself.
#![tactic(auto)]

ghost use Rattle.std.specs.Prelude.{◌≡◌};
ghost use Rattle.image.specs.Lent.{StaysLent};

use answer::Refusal;
use command::{Command, command};
use dispatch::after::after;
use image::lent::{Lent, Seen};
use line::line;
use peek::{in_ram, look};
use phrase::lay;
use session::plan::Plan;
use session::words::{has_changed, set_there};
use session::work::{Asked, Work};
use std::fmt;
use stub::words::CHANGED;
use views::show;
use work::perform;

// What is said in place of doing something, or of what was done.
#[derive(Clone, Copy)]
enum Text {
    Help,
    NotHere,
    Reset,
    Moved,
    NotReset,
}

const HELP: &str = "\
    monitor blame ADDRESS     which step on hand last changed a word of RAM\n\
    monitor before ADDRESS    take back to just before that step\n\
    monitor info tlb          the translation table; also registers, cp0, clocks,\n\
    \x20                         printers, station\n\
    monitor xp/4xw ADDRESS    physical memory, as x shows it; x is by virtual address\n\
    monitor paper NUMBER      what a printer printed\n\
    monitor reset             the machine as just switched on; RAM stays\n\
    ADDRESS is virtual for blame and before, as for gdb's own x.\n";

impl fmt::Display for Text {
    fn fmt<W: fmt::Write>(&self, f: &mut fmt::Formatter<W>) -> fmt::Result {
        f.write_str(match self {
            Text::Help => HELP,
            Text::NotHere => {
                "Not here: gdb does that itself, or the panel. monitor help says what there is.\n"
            }
            Text::Reset => "The machine is reset. RAM is as it was; no step is on hand.\n",
            Text::Moved => {
                "gdb shows the registers from before until: maintenance flush register-cache\n"
            }
            Text::NotReset => "Refused: the state breaks a rule of the machine.\n",
        })
    }
}

// The physical address of a virtual one in RAM; any other stays as it is, and is refused.
fn physical(image: &[u8], ram: usize, address: u64) -> u64 {
    let Ok(virtual_address) = u32::try_from(address) else {
        return address;
    };
    match in_ram(look(image), ram, virtual_address) {
        Some(place) => (place as u64).wrapping_add(0x2000_0000),
        None => address,
    }
}

fn blamed(lent: Seen, address: u64, stay: bool) -> Plan {
    let address = physical(lent.image, lent.ram.len(), address);
    Plan::Works(Work::Blame(Asked { address, stay }))
}

// What a line asks for that is understood here.
fn plan(words: &mut [u64; 32], asked: Result<Command, usize>, given: &[u8], lent: Seen) -> Plan {
    match asked {
        Ok(Command::Blame(address)) => blamed(lent, address, false),
        Ok(Command::Before(address)) => blamed(lent, address, true),
        _ => line(words, given),
    }
}

// What is said in place of doing something, where the line is not understood here.
fn in_place(asked: Command) -> Option<Text> {
    match asked {
        Command::Nothing | Command::Help(_) => Some(Text::Help),
        Command::New(_)
        | Command::Load(_, _)
        | Command::Run(_)
        | Command::RunToException(_)
        | Command::Step(_)
        | Command::Back(_)
        | Command::Papers
        | Command::Compare(_)
        | Command::Save
        | Command::Restore
        | Command::Quit
        | Command::Abandon => Some(Text::NotHere),
        _ => None,
    }
}

// As a turn of the panel does it.
fn done(
    session: &mut [u64; 256],
    asked: Result<Command, usize>,
    given: &[u8],
    out: &mut [u8],
    lent: &mut Lent,
) -> usize
    ensures lent { StaysLent lent.old lent.new }
{
    let mut words = [0; 32];
    set_there(&mut words);
    let turn = match plan(&mut words, asked, given, lent.seen()) {
        Plan::Turns(turn) => turn,
        Plan::Works(work) => after(&mut words, perform(work, given, lent)),
    };
    let at = match turn.view {
        Some(view) => show(view, given, out, lent.seen()),
        None => 0,
    };
    if !has_changed(&words) {
        return at;
    }
    session[CHANGED] = 1;
    lay(out, at, Text::Moved)
}

// The machine as just switched on, with the settings that it has.
fn was_reset(lent: &mut Lent) -> Result<(), Refusal>
    ensures lent { StaysLent lent.old lent.new }
    ensures ram { lent.new.ram.now ≡ lent.old.ram.now }
    ensures paper { lent.new.paper.now ≡ lent.old.paper.now }
    ensures journal { lent.new.journal.now ≡ lent.old.journal.now }
{
    let scale = image::word(lent.image, image::SCALE);
    let delay = image::word(lent.image, image::DELAY);
    let installed = image::word(lent.image, image::INSTALLED);
    reset::reset(
        lent.image,
        lent.index,
        scale as u64,
        delay as u64,
        installed as u64,
    )?;
    Ok(())
}

fn reset(session: &mut [u64; 256], out: &mut [u8], lent: &mut Lent) -> usize
    ensures lent { StaysLent lent.old lent.new }
    ensures ram { lent.new.ram.now ≡ lent.old.ram.now }
    ensures paper { lent.new.paper.now ≡ lent.old.paper.now }
    ensures journal { lent.new.journal.now ≡ lent.old.journal.now }
{
    if was_reset(lent).is_err() {
        return lay(out, 0, Text::NotReset);
    }
    session[CHANGED] = 1;
    let at = lay(out, 0, Text::Reset);
    lay(out, at, Text::Moved)
}

// Answers the place in `out` behind what is said.
pub fn monitor(session: &mut [u64; 256], given: &[u8], out: &mut [u8], lent: &mut Lent) -> usize
    ensures lent { StaysLent lent.old lent.new }
{
    if given == b"reset".as_slice() {
        return reset(session, out, lent);
    }
    let asked = command(given);
    if let Ok(asked) = asked
        && let Some(text) = in_place(asked)
    {
        return lay(out, 0, text);
    }
    done(session, asked, given, out, lent)
}
