// help: what there is to say, and more about each word.
#![tactic(auto)]

use command::Topic;
use std::fmt;

const ALL: &str = "Say one of these. [ ] may be left out; numbers are like 100 or 0x64.\n\
    new .. execution FILE bootstrap FILE   make a station here\n\
    load FILE ADDRESS    put a file's bytes into RAM\n\
    run N                run N steps\n\
    run exception [N]    run until a step enters an exception\n\
    stepi [N], si [N]    run 1 step, or N\n\
    back N, rsi [N]      take back N steps (reverse-stepi, rsi: 1, or N)\n\
    blame ADDRESS        which step last changed this word of RAM?\n\
    before ADDRESS       stand the machine just before that step\n\
    info registers, info cp0, info tlb, info clocks, info printers, info station\n\
    paper [N]            what printer N printed, or all of them\n\
    x/NFU ADDRESS        look at memory; xp/NFU takes a physical address\n\
    compare FOLDER       in what does another station differ?\n\
    save, restore        keep everything; go back to the save before the last\n\
    quit, abandon        leave and save; leave and save nothing\n\
    help WORD            more about a word, as in help blame\n";

const NEW: &str = "new [ram FRAMES] [paper BYTES] [journal STEPS] [scale N] [delay N]\n\
    [printers MAP] execution FILE bootstrap FILE      (in this order, on one line)\n\
    Makes a station in this folder, and resets its machine.\n\
    ram        frames of 4,096 bytes, 1 to 4096 (64 if left out)\n\
    paper      bytes for 8 printers together, 0 to 65536, a multiple of 8 (8192)\n\
    journal    how many steps can be taken back, 0 to 32768 (4096)\n\
    scale      the time scale that programs can read, 1 to 255 (1)\n\
    delay      steps that a printer takes for a command, 1 to 65535 (100)\n\
    printers   bit n is printer n: 0 to 255 (1: printer 0 alone)\n\
    FILE       a ROM's bytes: 4 to 65,536, a multiple of 4\n\
    Example: new printers 3 execution exec.rom bootstrap boot.rom\n";

const LOAD: &str = "load FILE ADDRESS\n\
    Puts a file's bytes into RAM from a physical address on; RAM begins at\n\
    0x20000000. It has to fit whole. What a load writes is no step, so the journal\n\
    is emptied: no step from before it can be taken back.\n\
    Example: load import.bin 0x20001000\n";

const RUN: &str = "run N              runs N steps\n\
    run exception [N]  runs until a step enters an exception, at most N steps\n\
    A step is one instruction, or the entry of an interrupt. Ctrl-C ends a run; what\n\
    it did so far is kept. Without N, run exception goes on until the exception.\n\
    Every run stops before a step for which two entries of the table match.\n\
    Example: run 100000\n";

const STEP: &str = "stepi [N], si [N]  runs 1 step, or N\n\
    Example: si 5\n";

const BACK: &str = "back N             takes back the newest N steps\n\
    reverse-stepi [N], rsi [N]   the same, 1 step if N is left out\n\
    Everything is then as it was before them: registers, RAM, printers, clock. The\n\
    journal keeps the newest steps; those that it has are called on hand. How many:\n\
    info station. To go forward again: run N.\n\
    Example: back 100\n";

const BLAME: &str = "blame ADDRESS\n\
    Says which of the steps on hand last changed the word of RAM at this physical\n\
    address: how many steps ago, at which clock and PC, by which instruction, from\n\
    which value to which; and when its frame, 4,096 bytes, was last changed. A store\n\
    of the value that was there is no change. Nothing moves: the machine stands\n\
    where it stood.\n\
    Example: blame 0x20000100\n";

const BEFORE: &str = "before ADDRESS\n\
    Takes the machine back to just before the step that blame ADDRESS names. Then\n\
    info and x show what that step found, and si runs it again.\n\
    Example: before 0x20000100\n";

const INFO: &str = "info registers   the 32 registers, HI, LO, PC\n\
    info cp0         modes, last exception, interrupts, in words\n\
    info tlb         the translation table\n\
    info clocks      clock, timer, time scale, printer delay\n\
    info printers    what each printer does\n\
    info station     the sizes of everything, and the steps on hand\n";

const PAPER: &str = "paper [N]\n\
    Shows what printer N printed, or what each installed printer printed. Bytes that\n\
    are no printable characters are shown as \\xNN.\n\
    Example: paper 0\n";

const EXAMINE: &str = "x/NFU ADDRESS    an address as the machine now sees it, through its table\n\
    xp/NFU ADDRESS   a physical address\n\
    N is how many (1), F how they are shown: x hex, d signed, u unsigned, c as a\n\
    character; U how wide they are: b byte, h half, w word (w; c is always bytes).\n\
    RAM is from 0x20000000 on, the ROMs from 0x00000000 and 0x1fc00000 on.\n\
    Example: x/8xw 0x20000000\n";

const COMPARE: &str = "compare FOLDER\n\
    Shows in what the station in another folder differs from this one: words of the\n\
    state, and how many bytes of RAM, paper and journal. Nothing changes.\n\
    Example: compare ../station2\n";

const SAVE: &str = "save\n\
    Keeps everything as it is now. The save before stays too: see help restore.\n";

const RESTORE: &str = "restore\n\
    Goes back to the save before the last one. What was not saved is lost.\n";

const QUIT: &str = "quit\n\
    Saves what has changed, and leaves. To leave without saving: abandon.\n";

const ABANDON: &str = "abandon\n\
    Leaves and saves nothing: the station stays as it was saved last.\n";

// What is said of a topic.
#[derive(Clone, Copy)]
pub struct Help(pub Topic);

impl Help {
    fn text(self) -> &'static str {
        match self.0 {
            Topic::All => ALL,
            Topic::New => NEW,
            Topic::Load => LOAD,
            Topic::Run => RUN,
            Topic::Step => STEP,
            Topic::Back => BACK,
            Topic::Blame => BLAME,
            Topic::Before => BEFORE,
            Topic::Info => INFO,
            Topic::Paper => PAPER,
            Topic::Examine => EXAMINE,
            Topic::Compare => COMPARE,
            Topic::Save => SAVE,
            Topic::Restore => RESTORE,
            Topic::Quit => QUIT,
            Topic::Abandon => ABANDON,
        }
    }
}

impl fmt::Display for Help {
    fn fmt<W: fmt::Write>(&self, f: &mut fmt::Formatter<W>) -> fmt::Result {
        f.write_str(self.text())
    }
}
