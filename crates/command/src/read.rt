// A line as a command.
ghost use Rattle.std.specs.Prelude.{◌≡◌};
ghost use Rattle.command.specs.Line.{command_of, said_of, asked_of, name_behind};

use crate::kinds::Command;
use crate::table::forms;
use forms::form::{Form, Reading};
use forms::fresh::making;
use forms::kinds::Span;
use forms::look::looking;
use piece::behind::named;
use piece::mark::{Mark, behind_spaces, stands, word};

// Where it is none, the place of the first byte that fits nothing; the line's length where it is cut short.
#[tactic(auto, unfolding(crate::specs::Line::command_of))]
pub fn command(line: &[u8]) -> Result<Command, usize>
    ensures { result ≡ command_of line.now }
{
    let at = behind_spaces(line, 0);
    if line.len() <= at {
        return Ok(Command::Nothing);
    }
    if stands(line, at, b'#') {
        return Ok(Command::Nothing);
    }
    let start = Mark {
        at,
        fits: true,
        reached: at,
    };
    said(line, start, forms(line, start))
}

fn said(line: &[u8], start: Mark, reading: Reading) -> Result<Command, usize>
    ensures { result ≡ said_of line.now start reading }
{
    if !reading.mark.fits {
        return Err(reading.mark.reached);
    }
    Ok(asked(line, start, reading.form, reading.value))
}

// The command of a form that fits, with the number that it holds.
fn asked(line: &[u8], start: Mark, form: Form, value: u64) -> Command
    ensures { result ≡ asked_of line.now start form value }
{
    match form {
        Form::New => Command::New(making(line, start).value),
        Form::Load => Command::Load(name_behind(line, start, b"load"), value),
        Form::Compare => Command::Compare(name_behind(line, start, b"compare")),
        Form::Save => Command::Save,
        Form::Restore => Command::Restore,
        Form::Quit => Command::Quit,
        Form::Abandon => Command::Abandon,
        Form::Run => Command::Run(value),
        Form::RunToException => Command::RunToException(value),
        Form::Step => Command::Step(value),
        Form::Back => Command::Back(value),
        Form::Blame => Command::Blame(value),
        Form::Before => Command::Before(value),
        Form::Registers => Command::Registers,
        Form::Cp0 => Command::Cp0,
        Form::Tlb => Command::Tlb,
        Form::Clocks => Command::Clocks,
        Form::Printers => Command::Printers,
        Form::Station => Command::Station,
        Form::Paper => Command::Paper(value),
        Form::Papers => Command::Papers,
        Form::Examine => Command::Examine(looking(line, start, b"x", false).value),
        Form::Physical => Command::Examine(looking(line, start, b"xp", true).value),
        Form::Help(topic) => Command::Help(topic),
    }
}

fn name_behind(line: &[u8], start: Mark, first: &[u8]) -> Span
    ensures { result ≡ name_behind line.now start first.now }
{
    named(line, word(line, start, first)).value
}
