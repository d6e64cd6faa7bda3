// Device (line, number) has its four registers at 0x50 + (line - 3) * 0x80 + number * 0x10.
ghost use Rattle.std.specs.Prelude.{◌≡◌, ◌≤◌};
ghost use Rattle.bus.specs.Offset.{line_of, number_of, field_of};

// Where the device registers start.
pub const DEVICES: u32 = 0x50;

// The printers' line.
pub const PRINTERS: u32 = 6;

pub fn line(offset: u32) -> u32
    requires { 0x50 ≤ offset }
    ensures { result ≡ line_of offset }
{
    3 + (offset - DEVICES) / 0x80
}

pub fn number(offset: u32) -> usize
    requires { 0x50 ≤ offset }
    ensures { result ≡ number_of offset }
{
    ((offset - DEVICES) / 0x10 % 8) as usize
}

pub fn field(offset: u32) -> u32
    requires { 0x50 ≤ offset }
    ensures { result ≡ field_of offset }
{
    (offset - DEVICES) / 4 % 4
}
