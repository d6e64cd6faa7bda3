// The table of all forms, in parts. Each part answers the best reading among its forms.
ghost use Rattle.std.specs.Prelude.{◌≡◌};
ghost use Rattle.forms.specs.Fresh.{making_of};
ghost use Rattle.forms.specs.Look.{looking_of};
ghost use Rattle.command.specs.Table.{judged, forms_of, station_of, forward_of, runs_of, backward_of, views_of, infos_of, load_of, compare_of};

use forms::form::{Form, Reading, better, numbered, or_numbered, or_plain, or_times, plain};
use forms::fresh::making;
use forms::help::helping;
use forms::look::looking;
use piece::behind::{counted, named, past};
use piece::mark::{Mark, end, word};

#[tactic(auto, unfolding(crate::specs::Table::forms_of))]
pub fn forms(line: &[u8], m: Mark) -> Reading
    ensures { result ≡ forms_of line.now m }
{
    let r = station(line, m);
    let r = better(r, forward(line, m));
    let r = better(r, backward(line, m));
    let r = better(r, views(line, m));
    better(r, helping(line, m))
}

// What begins, fills, keeps and ends a station.
#[tactic(auto, unfolding(crate::specs::Table::station_of))]
fn station(line: &[u8], m: Mark) -> Reading
    ensures { result ≡ station_of line.now m }
{
    let r = new(line, m);
    let r = better(r, load(line, m));
    let r = better(r, compare(line, m));
    let r = or_plain(r, line, m, b"save", Form::Save, 0);
    let r = or_plain(r, line, m, b"restore", Form::Restore, 0);
    let r = or_plain(r, line, m, b"quit", Form::Quit, 0);
    or_plain(r, line, m, b"abandon", Form::Abandon, 0)
}

#[tactic(auto, unfolding(crate::specs::Table::forward_of))]
fn forward(line: &[u8], m: Mark) -> Reading
    ensures { result ≡ forward_of line.now m }
{
    let r = runs(line, m);
    let r = or_times(r, line, m, b"stepi", Form::Step);
    or_times(r, line, m, b"si", Form::Step)
}

#[tactic(auto, unfolding(crate::specs::Table::runs_of))]
fn runs(line: &[u8], m: Mark) -> Reading
    ensures { result ≡ runs_of line.now m }
{
    let r = numbered(line, m, b"run", Form::Run);
    let behind = past(line, m, b"run");
    let r = or_plain(
        r,
        line,
        behind,
        b"exception",
        Form::RunToException,
        u64::MAX,
    );
    or_numbered(r, line, behind, b"exception", Form::RunToException)
}

#[tactic(auto, unfolding(crate::specs::Table::backward_of))]
fn backward(line: &[u8], m: Mark) -> Reading
    ensures { result ≡ backward_of line.now m }
{
    let r = numbered(line, m, b"back", Form::Back);
    let r = or_times(r, line, m, b"reverse-stepi", Form::Back);
    let r = or_times(r, line, m, b"rsi", Form::Back);
    let r = or_numbered(r, line, m, b"blame", Form::Blame);
    or_numbered(r, line, m, b"before", Form::Before)
}

#[tactic(auto, unfolding(crate::specs::Table::views_of))]
fn views(line: &[u8], m: Mark) -> Reading
    ensures { result ≡ views_of line.now m }
{
    let r = infos(line, past(line, m, b"info"));
    let r = or_plain(r, line, m, b"paper", Form::Papers, 0);
    let r = or_numbered(r, line, m, b"paper", Form::Paper);
    let r = better(r, examine(line, m, b"x", false, Form::Examine));
    better(r, examine(line, m, b"xp", true, Form::Physical))
}

// Behind `info`.
#[tactic(auto, unfolding(crate::specs::Table::infos_of))]
fn infos(line: &[u8], m: Mark) -> Reading
    ensures { result ≡ infos_of line.now m }
{
    let r = plain(line, m, b"registers", Form::Registers, 0);
    let r = or_plain(r, line, m, b"cp0", Form::Cp0, 0);
    let r = or_plain(r, line, m, b"tlb", Form::Tlb, 0);
    let r = or_plain(r, line, m, b"clocks", Form::Clocks, 0);
    let r = or_plain(r, line, m, b"printers", Form::Printers, 0);
    or_plain(r, line, m, b"station", Form::Station, 0)
}

// ---- the forms of one command
fn new(line: &[u8], m: Mark) -> Reading
    ensures { result ≡ judged Form.New (making_of line.now m).mark }
{
    judged(Form::New, making(line, m).mark)
}

fn load(line: &[u8], m: Mark) -> Reading
    ensures { result ≡ load_of line.now m }
{
    let file = named(line, word(line, m, b"load"));
    let address = counted(line, file.mark);
    Reading {
        mark: address.mark,
        form: Form::Load,
        value: address.value,
    }
}

fn compare(line: &[u8], m: Mark) -> Reading
    ensures { result ≡ compare_of line.now m }
{
    let folder = named(line, word(line, m, b"compare"));
    judged(Form::Compare, end(line, folder.mark))
}

fn examine(line: &[u8], m: Mark, name: &[u8], physical: bool, form: Form) -> Reading
    ensures { result ≡ judged form (looking_of line.now m name.now physical).mark }
{
    judged(form, looking(line, m, name, physical).mark)
}

// A form that is only judged here: what it holds is read where it counts.
fn judged(form: Form, mark: Mark) -> Reading
    ensures { result ≡ judged form mark }
{
    Reading {
        mark,
        form,
        value: 0,
    }
}
