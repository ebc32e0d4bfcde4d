// Well-formed UTF-8 (Unicode, Table 3-7), as a machine that takes one byte at a time.
#![tactic(auto)]

ghost use Rattle.std.specs.Prelude.{◌≡◌, true};
ghost use Rattle.utf8.specs.Machine.{stepped, accepts, well_formed};
ghost use Rattle.utf8.specs.Table.{AcceptsTable, AcceptsText};

#[derive(Clone, Copy, PartialEq, Eq, Debug)]
pub enum State {
    Start,
    One,
    Two,
    Three,
    E0,
    Ed,
    F0,
    F4,
    Bad,
}

impl State {
    pub fn step(&mut self, byte: u8)
        ensures { self.new ≡ stepped self.old byte }
    {
        *self = match (*self, byte) {
            (State::Start, 0x00..=0x7f) => State::Start,
            (State::Start, 0xc2..=0xdf) => State::One,
            (State::Start, 0xe0) => State::E0,
            (State::Start, 0xed) => State::Ed,
            (State::Start, 0xe1..=0xef) => State::Two,
            (State::Start, 0xf0) => State::F0,
            (State::Start, 0xf1..=0xf3) => State::Three,
            (State::Start, 0xf4) => State::F4,
            (State::One, 0x80..=0xbf) => State::Start,
            (State::Two, 0x80..=0xbf) => State::One,
            (State::Three, 0x80..=0xbf) => State::Two,
            (State::E0, 0xa0..=0xbf) => State::One,
            (State::Ed, 0x80..=0x9f) => State::One,
            (State::F0, 0x90..=0xbf) => State::Two,
            (State::F4, 0x80..=0x8f) => State::Two,
            _ => State::Bad,
        };
    }

    pub fn whole(self) -> bool
        ensures { result ≡ accepts self }
    {
        self == State::Start
    }
}

#[tactic(auto, unfolding(crate::specs::Machine::next))]
pub fn is_utf8(bytes: &[u8]) -> bool
    ensures { result ≡ well_formed bytes.now }
{
    let mut state = State::Start;
    for byte in bytes {
        state.step(*byte);
    }
    state.whole()
}

// The fold accepts the sequences of Table 3-7, and no others; and those are the texts of `str`.
pub fn table_stands() -> bool
    ensures answer { result ≡ true }
    ensures table { AcceptsTable }
    ensures text { AcceptsText }
{
    true
}
