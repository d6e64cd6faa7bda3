// The Status register as a small struct; both stack moves hand back a new one by value.
ghost use Rattle.std.specs.Prelude.{◌≡◌, ◌<◌};
ghost use Rattle.cp0.specs.Word.{modes_of, vm_of, with_stacks, pushed_of, popped_of};

#[derive(Clone, Copy)]
pub struct Status {
    pub word: u32,
}

impl Status {
    // Exception entry: each stack is pushed, and a 0 comes in as current.
    #[tactic(auto, unfolding(crate::specs::Word::pushed_of))]
    pub fn pushed(self) -> Status
        ensures { result ≡ pushed_of self }
    {
        self.with_stacks(self.modes() * 4 % 64, self.vm() * 2 % 8)
    }

    // RFE: previous to current and old to previous; old stays.
    #[tactic(auto, unfolding(crate::specs::Word::popped_of))]
    pub fn popped(self) -> Status
        ensures { result ≡ popped_of self }
    {
        let m = self.modes();
        let v = self.vm();
        self.with_stacks(
            m / 4 % 4 + m / 16 * 4 + m / 16 * 16,
            v / 2 % 2 + v / 4 * 2 + v / 4 * 4,
        )
    }

    fn modes(self) -> u32
        ensures { result ≡ modes_of self.word }
    {
        self.word % 64
    }

    fn vm(self) -> u32
        ensures { result ≡ vm_of self.word }
    {
        self.word / 0x1000000 % 8
    }

    // The one place that puts the word together again.
    fn with_stacks(self, modes: u32, vm: u32) -> Status
        requires { (modes < 64) × (vm < 8) }
        ensures { result ≡ with_stacks self modes vm }
    {
        let middle = self.word / 64 % 0x40000;
        let above = self.word / 0x8000000;
        Status {
            word: modes + middle * 64 + vm * 0x1000000 + above * 0x8000000,
        }
    }
}
