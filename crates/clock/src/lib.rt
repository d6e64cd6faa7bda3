// The clock group: the 64-bit bus clock as two words, and the interval timer.
#![tactic(auto)]

ghost use Rattle.std.specs.Prelude.{◌≡◌, cond, ◌==◌};
ghost use Rattle.clock.specs.Tick.{time_of, up, ticked_of};

#[derive(Clone, Copy)]
pub struct Clock {
    pub high: u32,
    pub low: u32,
    pub timer: u32,
}

// The clock one step later, and whether the timer passed from 0 to 0xFFFFFFFF.
#[derive(Clone, Copy)]
pub struct Beat {
    pub clock: Clock,
    pub rang: bool,
}

// The two clock words as one number.
pub fn time(c: Clock) -> u64
    ensures { result ≡ time_of c }
{
    u64::from(c.high) * 4294967296 + u64::from(c.low)
}

// The high word one step later, where `low` is the low word then: it moves on where that one wrapped.
fn carried(high: u32, low: u32) -> u32
    ensures { result ≡ cond (low == 0) (up 32 high) high }
{
    if low == 0 {
        return high.wrapping_add(1);
    }
    high
}

// The work, by value, so that all that is to be shown is arithmetic. Word by word: the count is
// never made one number and taken apart again.
pub fn ticked(c: Clock) -> Beat
    ensures { result ≡ ticked_of c }
{
    let low = c.low.wrapping_add(1);
    Beat {
        clock: Clock {
            high: carried(c.high, low),
            low,
            timer: c.timer.wrapping_sub(1),
        },
        rang: c.timer == 0,
    }
}

// Stays: document 01 asks for the clock behind a reference, moved on in place.
pub fn tick(c: &mut Clock) -> bool
    ensures { (result ≡ (ticked_of c.old).rang) × (c.new ≡ (ticked_of c.old).clock) }
{
    let was = *c;
    let t = ticked(was);
    *c = t.clock;
    t.rang
}

// Above it, with plain values: the clock comes in and goes out by value.
pub fn tick_of(c: Clock) -> Beat
    ensures { result ≡ ticked_of c }
{
    let mut k = c;
    let rang = tick(&mut k);
    Beat { clock: k, rang }
}
