// One line: what it asks for, of a session with a station or without.
#![tactic(auto)]

use actions::{load, make, paper, running, save};
use command::{Command, command};
use forms::kinds::Look;
use message::Message;
use message::refused::Refused;
use session::ending::Then;
use session::exit::Exit;
use session::plan::Plan;
use session::turn::{Turn, View, quietly, refuses, says, shows};
use session::words::{is_one_command, is_there};
use session::work::{Asked, Work};

// A line that is no command: of the arguments it is a fault in their use.
fn not_understood(session: &[u64; 32], place: usize) -> Turn {
    let status = if is_one_command(session) {
        Exit::Usage
    } else {
        Exit::Refused
    };
    Turn {
        view: Some(View::Bad { place }),
        then: Then::Refuse(status),
    }
}

fn units(look: Look) -> Turn {
    if 0xFFFF_FFFF < look.address {
        return says(Message::Refused(Refused::NoAddress), Then::Ask);
    }
    shows(View::Units(look))
}

// What only looks.
fn looked(asked: Command) -> Turn {
    match asked {
        Command::Registers => shows(View::Registers),
        Command::Cp0 => shows(View::Cp0),
        Command::Tlb => shows(View::Tlb),
        Command::Clocks => shows(View::Clocks),
        Command::Printers => shows(View::Printers),
        Command::Station => shows(View::Station),
        Command::Examine(look) => units(look),
        _ => quietly(Then::Ask),
    }
}

// What is begun here and goes on in later turns.
fn begun(session: &mut [u64; 32], asked: Command) -> Turn {
    match asked {
        Command::Load(name, address) => load::begin(session, name, address),
        Command::Run(steps) => running::begin(session, steps, false),
        Command::RunToException(steps) => running::begin(session, steps, true),
        Command::Step(steps) => running::begin(session, steps, false),
        Command::Paper(printer) => paper::one(session, printer),
        Command::Papers => paper::all(session),
        Command::Compare(name) => load::compare(session, name),
        Command::Save => save::begin(session),
        Command::Restore => save::restore(session),
        _ => looked(asked),
    }
}

fn blamed(address: u64, stay: bool) -> Plan {
    Plan::Works(Work::Blame(Asked { address, stay }))
}

fn with_station(session: &mut [u64; 32], asked: Command) -> Plan {
    match asked {
        Command::Back(steps) => Plan::Works(Work::Back { steps }),
        Command::Blame(address) => blamed(address, false),
        Command::Before(address) => blamed(address, true),
        _ => Plan::Turns(begun(session, asked)),
    }
}

fn there(session: &mut [u64; 32], asked: Command) -> Plan {
    if !is_there(session) {
        return Plan::Turns(refuses(Refused::NoStation));
    }
    with_station(session, asked)
}

fn planned(session: &mut [u64; 32], asked: Command) -> Plan {
    match asked {
        Command::Nothing => Plan::Turns(quietly(Then::Ask)),
        Command::Help(topic) => Plan::Turns(shows(View::Help(topic))),
        Command::Quit => Plan::Turns(quietly(Then::Finish(Exit::Done))),
        Command::Abandon => Plan::Turns(quietly(Then::End(Exit::Done))),
        Command::New(fresh) => make::begin(session, fresh),
        _ => there(session, asked),
    }
}

pub fn line(session: &mut [u64; 32], line: &[u8]) -> Plan {
    match command(line) {
        Ok(asked) => planned(session, asked),
        Err(place) => Plan::Turns(not_understood(session, place)),
    }
}
