// What an instruction asks of an address.
#[derive(Clone, Copy, PartialEq, Eq)]
pub enum Kind {
    Fetch,
    Load,
    Store,
}

// Part is LWL, LWR, SWL, SWR: a part of the aligned word around the address.
#[derive(Clone, Copy, PartialEq, Eq)]
pub enum Width {
    One,
    Two,
    Four,
    Part,
}

#[derive(Clone, Copy)]
pub struct Access {
    pub kind: Kind,
    pub width: Width,
}
