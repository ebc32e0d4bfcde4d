// The bytes with a place in them, and what reading fills: the table of texts and the pools.
ghost use Rattle.std.specs.Prelude.{◌≡◌};

use crate::Buffer;
use span::{Records, StringTable};

#[derive(Drop)]
pub struct Decoder<'b, 'i, 's, 't, 'r, 'p> {
    pub buf: &'b mut Buffer<'i>,
    pub table: &'s mut StringTable<'t>,
    pub records: &'r mut Records<'p>,
}

impl Decoder<'_, '_, '_, '_, '_, '_> {
    // Where the next item begins.
    pub fn offset(&self) -> usize
        ensures { result ≡ self.now.buf.now.at }
    {
        self.buf.offset()
    }
}
