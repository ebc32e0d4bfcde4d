// The formats of MessagePack: what item some bytes begin with.
#![tactic(auto)]

ghost use Rattle.std.specs.Prelude.{◌≡◌, true};
ghost use Rattle.msgpack.specs.Laws.{Agrees, Behind};

mod formats;
mod heads;
mod numbers;

pub use heads::{item_at, read_item};

// An item, as its head tells it. Of a text, of bytes and of an extension it is the number of bytes that follow,
// of an array the number of items, of a map the number of pairs. A float is its bits.
#[derive(Clone, Copy, PartialEq, Eq, Debug)]
pub enum Item {
    Nil,
    Bool(bool),
    Unsigned(u64),
    Signed(i64),
    Float(u32),
    Double(u64),
    Str(u32),
    Bin(u32),
    Array(u32),
    Map(u32),
    Ext(u32),
}

// What is read is what the formats say, at the start of bytes and at an offset.
#[tactic(auto, using(crate::proofs::Places::agrees, crate::proofs::Places::behind))]
pub fn formats_stand() -> bool
    ensures agrees { Agrees }
    ensures behind { Behind }
    ensures answer { result ≡ true }
{
    true
}
