// Whether the disks of a lent image keep their rules.
ghost use Rattle.std.specs.Prelude.{◌≡◌};
ghost use Rattle.disks.specs.Rules.{line_keeps};

use crate::Line;
use disk::rules::disk_keeps;
use word::map::has_bit;

// `room` is the length of the RAM lent.
pub fn line_keeps(line: Line, installed: u32, delay: u32, room: usize) -> bool
    ensures { result ≡ line_keeps installed delay room line }
{
    let pending = line.pending;
    let each = line.disks.iter().enumerate().all(|(n, &d)| {
        disk_keeps(has_bit(n, installed), has_bit(n, pending), delay, room, d)
    });
    (pending & !installed == 0) & each
}
