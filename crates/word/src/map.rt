// A map of devices: bit k is device k's.
ghost use Rattle.std.specs.Prelude.{◌≡◌, ◌<◌};
ghost use Rattle.word.specs.Map.{bit, with_bit};

pub fn has_bit(k: usize, map: u32) -> bool
    requires { k < 32 }
    ensures { result ≡ bit k map }
{
    (map >> k) % 2 == 1
}

#[tactic(auto, unfolding(crate::specs::Map::with_bit))]
pub fn with_bit(k: usize, on: bool, map: u32) -> u32
    requires { k < 32 }
    ensures { result ≡ with_bit k on map }
{
    if has_bit(k, map) == on {
        return map;
    }
    map ^ (1 << k)
}
