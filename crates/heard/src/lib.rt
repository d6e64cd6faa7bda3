// Not for the panel: what tests ask of the crate `command`. A command is eleven numbers: its kind, what it holds, and zeros.
// Stays: the numbers of kinds, formats, units and topics are what the C function `heard_line` answers.
#![tactic(auto)]

ghost use Rattle.std.specs.Prelude.{◌≡◌, ◌≤◌, ◌-◌, ◌++◌, replicate};
ghost use Rattle.command.specs.Line.{command_of};
ghost use Rattle.heard.specs.Numbers.{answer_numbers, command_numbers, fresh_numbers, look_numbers, format_number, unit_number, topic_number};

use command::{Command, Format, Fresh, Look, Topic, Unit, command};

fn numbers(c: Command) -> [u64; 11]
    ensures { result ≡ command_numbers c }
{
    match c {
        Command::Nothing => padded([0]),
        Command::New(fresh) => fresh_numbers(fresh),
        Command::Load(name, n) => padded([2, name.from as u64, name.to as u64, n]),
        Command::Run(n) => padded([3, n]),
        Command::RunToException(n) => padded([4, n]),
        Command::Step(n) => padded([5, n]),
        Command::Back(n) => padded([6, n]),
        Command::Blame(n) => padded([7, n]),
        Command::Before(n) => padded([8, n]),
        Command::Registers => padded([9]),
        Command::Cp0 => padded([10]),
        Command::Tlb => padded([11]),
        Command::Clocks => padded([12]),
        Command::Printers => padded([13]),
        Command::Station => padded([14]),
        Command::Paper(n) => padded([15, n]),
        Command::Papers => padded([16]),
        Command::Examine(look) => look_numbers(look),
        Command::Compare(name) => padded([18, name.from as u64, name.to as u64]),
        Command::Save => padded([19]),
        Command::Restore => padded([20]),
        Command::Quit => padded([21]),
        Command::Abandon => padded([22]),
        Command::Help(topic) => padded([23, topic_number(topic)]),
    }
}

// Numbers, and zeros behind them.
fn padded<const N: usize>(held: [u64; N]) -> [u64; 11]
    requires { N ≤ 11 }
    ensures { result ≡ held.entry ++ replicate (11 - N) 0 }
{
    let mut all = [0; 11];
    all[..N].copy_from_slice(&held);
    all
}

fn fresh_numbers(f: Fresh) -> [u64; 11]
    ensures { result ≡ fresh_numbers f }
{
    [
        1,
        f.ram,
        f.paper,
        f.journal,
        f.scale,
        f.delay,
        f.printers,
        f.execution.from as u64,
        f.execution.to as u64,
        f.bootstrap.from as u64,
        f.bootstrap.to as u64,
    ]
}

fn look_numbers(l: Look) -> [u64; 11]
    ensures { result ≡ look_numbers l }
{
    let format = format_number(l.format);
    let unit = unit_number(l.unit);
    let physical = u64::from(l.physical);
    padded([17, l.count, format, unit, l.address, physical])
}

fn format_number(f: Format) -> u64
    ensures { result ≡ format_number f }
{
    match f {
        Format::Hex => 0,
        Format::Signed => 1,
        Format::Unsigned => 2,
        Format::Character => 3,
    }
}

fn unit_number(u: Unit) -> u64
    ensures { result ≡ unit_number u }
{
    match u {
        Unit::Byte => 0,
        Unit::Half => 1,
        Unit::Word => 2,
    }
}

fn topic_number(t: Topic) -> u64
    ensures { result ≡ topic_number t }
{
    match t {
        Topic::All => 0,
        Topic::New => 1,
        Topic::Load => 2,
        Topic::Run => 3,
        Topic::Step => 4,
        Topic::Back => 5,
        Topic::Blame => 6,
        Topic::Before => 7,
        Topic::Info => 8,
        Topic::Paper => 9,
        Topic::Examine => 10,
        Topic::Compare => 11,
        Topic::Save => 12,
        Topic::Restore => 13,
        Topic::Quit => 14,
        Topic::Abandon => 15,
    }
}

// The command of a line, written to `out`.
#[unsafe(no_mangle)]
pub extern "C" fn heard_line(line: &[u8], out: &mut [u64; 11])
    ensures { out.new ≡ answer_numbers (command_of line.now) }
{
    *out = match command(line) {
        Ok(c) => numbers(c),
        Err(place) => padded([24, place as u64]),
    };
}
