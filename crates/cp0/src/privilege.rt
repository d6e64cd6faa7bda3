// KUc and VMc: what decides which addresses are allowed, and which are translated.
ghost use Rattle.std.specs.Prelude.{◌≡◌};
ghost use Rattle.cp0.specs.Privilege.{mode_of, usable_of};

use word::map::has_bit;

#[derive(Clone, Copy)]
pub struct Mode {
    pub user: bool,
    pub vm: bool,
}

pub fn mode_of(status: u32) -> Mode
    ensures { result ≡ mode_of status }
{
    Mode {
        user: has_bit(1, status),
        vm: has_bit(24, status),
    }
}

// Whether CP0 may be used.
pub fn usable(status: u32) -> bool
    ensures { result ≡ usable_of status }
{
    !has_bit(1, status) | has_bit(28, status)
}
