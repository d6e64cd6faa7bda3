// What a turn is lent of a station: its seven buffers, which go from function to function together.
ghost use Rattle.image.specs.Lent.{IsSeen};

// Each is lent for one turn, and none twice. The two ROMs are only read.
#[derive(Drop)]
pub struct Lent<'a> {
    pub image: &'a mut [u8],
    pub execution: &'a [u8],
    pub bootstrap: &'a [u8],
    pub ram: &'a mut [u8],
    pub paper: &'a mut [u8],
    pub journal: &'a mut [u8],
    pub index: &'a mut [u8],
}

// The same seven, only read.
#[derive(Clone, Copy)]
pub struct Seen<'a> {
    pub image: &'a [u8],
    pub execution: &'a [u8],
    pub bootstrap: &'a [u8],
    pub ram: &'a [u8],
    pub paper: &'a [u8],
    pub journal: &'a [u8],
    pub index: &'a [u8],
}

impl<'a> Lent<'a> {
    pub fn seen(&self) -> Seen<'_>
        ensures { IsSeen self.now result }
    {
        Seen {
            image: self.image,
            execution: self.execution,
            bootstrap: self.bootstrap,
            ram: self.ram,
            paper: self.paper,
            journal: self.journal,
            index: self.index,
        }
    }
}
