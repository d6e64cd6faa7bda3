// Little-endian bytes, halves and words of a lent slice. Each width is stored as two of the half of it.
#![tactic(auto)]

pub mod words; // a list of words

ghost use Rattle.std.specs.Prelude.{◌≡◌, ◌+◌, ◌≤◌, length};
ghost use Rattle.memory.specs.Memory.{load_at, stored_at};

pub fn load_byte(m: &[u8], at: usize) -> u8
    requires { at + 1 ≤ length m.now }
    ensures { result ≡ load_at 1 m.now at }
{
    m[at]
}

pub fn load_half(m: &[u8], at: usize) -> u16
    requires { at + 2 ≤ length m.now }
    ensures { result ≡ load_at 2 m.now at }
{
    u16::from_le_bytes([m[at], m[at + 1]])
}

pub fn load_word(m: &[u8], at: usize) -> u32
    requires { at + 4 ≤ length m.now }
    ensures { result ≡ load_at 4 m.now at }
{
    u32::from_le_bytes([m[at], m[at + 1], m[at + 2], m[at + 3]])
}

pub fn store_byte(m: &mut [u8], at: usize, x: u8)
    requires { at + 1 ≤ length m.old }
    ensures { m.new ≡ stored_at 1 m.old at x }
{
    m[at] = x;
}

pub fn store_half(m: &mut [u8], at: usize, x: u16)
    requires { at + 2 ≤ length m.old }
    ensures { m.new ≡ stored_at 2 m.old at x }
{
    let [low, high] = x.to_le_bytes();
    store_byte(m, at, low);
    store_byte(m, at + 1, high);
}

pub fn store_word(m: &mut [u8], at: usize, x: u32)
    requires { at + 4 ≤ length m.old }
    ensures { m.new ≡ stored_at 4 m.old at x }
{
    store_half(m, at, (x % 65536) as u16);
    store_half(m, at + 2, (x / 65536) as u16);
}
