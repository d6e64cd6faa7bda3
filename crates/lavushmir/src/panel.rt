// The calls for C, as include/lavushmir.h declares them.
ghost use Rattle.turn.specs.Buffers.{buffers_of, buffers_back};
ghost use Rattle.std.specs.Prelude.{length};
ghost use Rattle.convert.specs.Convert.{PackedConvertIs};
ghost use Rattle.lavushmir.specs.Panel.{PackedResetIs, PackedIs, PackedLastWriteIs};
ghost use Rattle.forward.specs.Run.{run_leaves};
ghost use Rattle.backward.specs.Back.{back_leaves};

use answer::packed;
use backward::take_back;
use convert::convert_packed;
use forward::run;
use lastwrite::last_write;
use reset::reset;

#[unsafe(no_mangle)]
pub extern "C" fn lavushmir_reset(
    image: &mut [u8],
    index: &mut [u8],
    time_scale: u64,
    printer_delay: u64,
    installed: u64,
) -> u64
    ensures { PackedResetIs image.old index.old time_scale printer_delay installed result image.new index.new }
{
    packed(reset(image, index, time_scale, printer_delay, installed))
}

#[unsafe(no_mangle)]
pub extern "C" fn lavushmir_convert(
    old: &[u8],
    image: &mut [u8],
    paper: &[u8],
    journal: &[u8],
) -> u64
    ensures { PackedConvertIs old.now image.old (length paper.now) (length journal.now) result image.new }
{
    convert_packed(old, image, paper, journal)
}

#[unsafe(no_mangle)]
pub extern "C" fn lavushmir_run(
    image: &mut [u8],
    execution_rom: &[u8],
    bootstrap_rom: &[u8],
    ram: &mut [u8],
    paper: &mut [u8],
    journal: &mut [u8],
    index: &mut [u8],
    budget: u64,
    stop_at_exceptions: u64,
) -> u64
    ensures { PackedIs
        (run_leaves
        (buffers_of image.old execution_rom.now bootstrap_rom.now ram.old paper.old journal.old index.old)
        budget stop_at_exceptions)
        result
        (buffers_of image.new execution_rom.now bootstrap_rom.now ram.new paper.new journal.new index.new) }
{
    packed(run(
        image,
        execution_rom,
        bootstrap_rom,
        ram,
        paper,
        journal,
        index,
        budget,
        stop_at_exceptions,
    ))
}

#[unsafe(no_mangle)]
pub extern "C" fn lavushmir_take_back(
    image: &mut [u8],
    ram: &mut [u8],
    paper: &mut [u8],
    journal: &[u8],
    index: &mut [u8],
    steps: u64,
) -> u64
    ensures { PackedIs (back_leaves (buffers_back image.old ram.old paper.old journal.now index.old) steps)
        result
        (buffers_back image.new ram.new paper.new journal.now index.new) }
{
    packed(take_back(image, ram, paper, journal, index, steps))
}

#[unsafe(no_mangle)]
pub extern "C" fn lavushmir_last_write(
    image: &[u8],
    ram: &[u8],
    paper: &[u8],
    journal: &[u8],
    index: &[u8],
    address: u64,
    answer: &mut [u8],
) -> u64
    ensures { PackedLastWriteIs (buffers_back image.now ram.now paper.now journal.now index.now) address
        answer.old result answer.new }
{
    packed(last_write(image, ram, paper, journal, index, address, answer))
}
