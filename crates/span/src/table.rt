// The texts that have a number, in their order; number 0 is the empty text.
use crate::{Place, Pool};

#[derive(Drop)]
pub struct StringTable<'a> {
    pub(crate) texts: Pool<'a, Place>,
}
