// What stands at the start of the bytes that gdb sent.
#[derive(Clone, Copy)]
pub enum Heard {
    // Nothing whole yet: more bytes are needed.
    More,
    // `+`: one byte.
    Ack,
    // `-`: one byte.
    Nak,
    // The byte 3: one byte.
    Interrupt,
    // Any other byte outside of a packet: one byte, to be passed over.
    Noise,
    // A packet: the bytes that it takes, and the length of its payload, which is laid down.
    Packet(usize, usize),
    // A packet that says nothing: the bytes that it takes.
    Damaged(usize),
}
