// The call for a station that was saved by the version before.
ghost use Rattle.std.specs.Prelude.{length};
ghost use Rattle.convert.specs.Convert.{PackedConvertIs};

use convert::convert_packed;

// Its image becomes one of this version: the call that liblavushmir.a exports, in this archive too, so that the program links with one.
// Stays: the parameters and the number that is answered are those of the C call lavushmir_convert in include/lavushmir.h.
#[unsafe(no_mangle)]
pub extern "C" fn lavushmir_convert(
    old: &[u8],
    image: &mut [u8],
    paper: &[u8],
    journal: &[u8],
) -> u64
    ensures { PackedConvertIs old.now image.old (length paper.now) (length journal.now) result image.new }
{
    convert_packed(old, image, paper, journal)
}
