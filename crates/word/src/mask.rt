// A word written under a mask: what the mask covers is new, all else stays.
ghost use Rattle.std.specs.Prelude.{◌≡◌};
ghost use Rattle.word.specs.Mask.{overlaid_of};

#[tactic(auto, unfolding(crate::specs::Mask::overlaid_of))]
pub fn overlaid(mask: u32, old: u32, new: u32) -> u32
    ensures { result ≡ overlaid_of mask old new }
{
    (old & !mask) | (new & mask)
}
