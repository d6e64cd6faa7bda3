// The numbers that a packet has.
use base16::number;

// Two numbers with a sign between them, as ADDRESS,LENGTH, and the place behind them.
#[derive(Clone, Copy, Default)]
pub struct Both {
    pub first: u64,
    pub second: u64,
    pub to: usize,
}

// Those at a place; None where they do not stand there.
pub fn two(packet: &[u8], from: usize, sign: u8) -> Option<Both> {
    let first = number(packet, from);
    if first.to == from {
        return None;
    }
    if packet.get(first.to).copied() != Some(sign) {
        return None;
    }
    let behind = first.to.wrapping_add(1);
    let second = number(packet, behind);
    if second.to == behind {
        return None;
    }
    Some(Both {
        first: first.value,
        second: second.value,
        to: second.to,
    })
}
