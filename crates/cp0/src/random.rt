// Random's move in each step. Its field is bits 8-13, and its other bits are 0.
ghost use Rattle.std.specs.Prelude.{◌≡◌};
ghost use Rattle.cp0.specs.Random.{random_of, top_entry};

// The table's last entry.
const TOP: u32 = 15;

pub fn next_random(random: u32) -> u32
    ensures { result ≡ random_of top_entry random }
{
    let field = random / 256;
    if field <= 1 {
        return TOP * 256;
    }
    (field - 1) * 256
}
