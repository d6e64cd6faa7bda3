// Numbers and bytes as gdb's packets write them: in base 16, with no mark before them.
#![tactic(auto)]

use text::{digit, put_digit};

// What was read: the value modulo 2^64, and the place behind the last digit. That is where it was looked for if there is no digit.
#[derive(Clone, Copy)]
pub struct Digits {
    pub value: u64,
    pub to: usize,
}

// The number at a place of a packet.
pub fn number(packet: &[u8], from: usize) -> Digits {
    let mut value: u64 = 0;
    for to in from..packet.len() {
        let Some(d) = digit(packet[to]) else {
            return Digits { value, to };
        };
        value = value % 0x1000_0000_0000_0000 * 16 + d;
    }
    Digits {
        value,
        to: from.max(packet.len()),
    }
}

// The byte that two digits at a place write.
pub fn pair(packet: &[u8], at: usize) -> Option<u8> {
    let [high, low, ..] = packet.get(at..)? else {
        return None;
    };
    Some((digit(*high)? * 16 + digit(*low)?) as u8)
}

// The word that eight digits write, its lowest byte first.
pub fn word(packet: &[u8], at: usize) -> Option<u32> {
    let at = at % 0x1_0000_0000;
    Some(u32::from_le_bytes([
        pair(packet, at)?,
        pair(packet, at + 2)?,
        pair(packet, at + 4)?,
        pair(packet, at + 6)?,
    ]))
}

// A byte as two digits. Answers the place behind them, as all functions do that lay something.
pub fn put_pair(out: &mut [u8], at: usize, byte: u64) -> usize {
    let next = put_digit(out, at, byte / 16 % 16);
    put_digit(out, next, byte % 16)
}

// A word as eight digits, its lowest byte first.
pub fn put_word(out: &mut [u8], at: usize, word: u64) -> usize {
    put_bytes(out, at, low(word).to_le_bytes())
}

// An address as eight digits, its highest first.
pub fn put_address(out: &mut [u8], at: usize, address: u64) -> usize {
    put_bytes(out, at, low(address).to_be_bytes())
}

fn put_bytes(out: &mut [u8], at: usize, bytes: [u8; 4]) -> usize {
    let mut next = at;
    for byte in bytes {
        next = put_pair(out, next, u64::from(byte));
    }
    next
}

fn low(value: u64) -> u32 {
    (value % 0x1_0000_0000) as u32
}

// The first `count` bytes become their digits, from the last byte on, so that none is overwritten before it is read. Answers how many there are: no more than fit.
pub fn spread(text: &mut [u8], count: usize) -> usize {
    let count = count.min(text.len() / 2);
    for at in (0..count).rev() {
        let byte = u64::from(text[at]);
        put_pair(text, at * 2, byte);
    }
    count * 2
}

// The bytes that the digits from `from` on write are laid from the start on. Answers how many, up to the first that is no pair of digits.
pub fn gather(packet: &mut [u8], from: usize) -> usize {
    let most = packet.len() / 2;
    for at in 0..most {
        let Some(byte) = pair(packet, from.saturating_add(at * 2)) else {
            return at;
        };
        packet[at] = byte;
    }
    most
}
