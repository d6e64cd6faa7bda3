// What the branches test. Against 0 the number is signed.
ghost use Rattle.std.specs.Prelude.{◌≡◌};
ghost use Rattle.alu.specs.Condition.{eq_of, ne_of, lez_of, gtz_of, ltz_of, gez_of};

pub fn eq(x: u32, y: u32) -> bool
    ensures { result ≡ eq_of x y }
{
    x == y
}

pub fn ne(x: u32, y: u32) -> bool
    ensures { result ≡ ne_of x y }
{
    x != y
}

pub fn lez(x: u32) -> bool
    ensures { result ≡ lez_of x }
{
    x.cast_signed() <= 0
}

pub fn gtz(x: u32) -> bool
    ensures { result ≡ gtz_of x }
{
    0 < x.cast_signed()
}

pub fn ltz(x: u32) -> bool
    ensures { result ≡ ltz_of x }
{
    x.cast_signed() < 0
}

pub fn gez(x: u32) -> bool
    ensures { result ≡ gez_of x }
{
    0 <= x.cast_signed()
}
