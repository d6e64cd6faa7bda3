// The forms of `help`.
ghost use Rattle.std.specs.Prelude.{◌≡◌};
ghost use Rattle.forms.specs.Help.{helping_of, of_machine, of_station};

use crate::form::{Form, Reading, better, or_plain, plain};
use crate::kinds::Topic;
use piece::behind::past;
use piece::mark::Mark;

#[tactic(auto, unfolding(crate::specs::Help::helping_of))]
pub fn helping(line: &[u8], m: Mark) -> Reading
    ensures { result ≡ helping_of line.now m }
{
    let r = plain(line, m, b"help", Form::Help(Topic::All), 0);
    let behind = past(line, m, b"help");
    let r = better(r, of_machine(line, behind));
    better(r, of_station(line, behind))
}

#[tactic(auto, unfolding(crate::specs::Help::of_machine))]
fn of_machine(line: &[u8], m: Mark) -> Reading
    ensures { result ≡ of_machine line.now m }
{
    let r = plain(line, m, b"load", Form::Help(Topic::Load), 0);
    let r = or_plain(r, line, m, b"run", Form::Help(Topic::Run), 0);
    let r = or_plain(r, line, m, b"stepi", Form::Help(Topic::Step), 0);
    let r = or_plain(r, line, m, b"back", Form::Help(Topic::Back), 0);
    let r = or_plain(r, line, m, b"blame", Form::Help(Topic::Blame), 0);
    let r = or_plain(r, line, m, b"before", Form::Help(Topic::Before), 0);
    let r = or_plain(r, line, m, b"info", Form::Help(Topic::Info), 0);
    or_plain(r, line, m, b"paper", Form::Help(Topic::Paper), 0)
}

#[tactic(auto, unfolding(crate::specs::Help::of_station))]
fn of_station(line: &[u8], m: Mark) -> Reading
    ensures { result ≡ of_station line.now m }
{
    let r = plain(line, m, b"new", Form::Help(Topic::New), 0);
    let r = or_plain(r, line, m, b"x", Form::Help(Topic::Examine), 0);
    let r = or_plain(r, line, m, b"compare", Form::Help(Topic::Compare), 0);
    let r = or_plain(r, line, m, b"save", Form::Help(Topic::Save), 0);
    let r = or_plain(r, line, m, b"restore", Form::Help(Topic::Restore), 0);
    let r = or_plain(r, line, m, b"quit", Form::Help(Topic::Quit), 0);
    or_plain(r, line, m, b"abandon", Form::Help(Topic::Abandon), 0)
}
