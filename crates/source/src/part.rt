// A text or a binary, by its place.
ghost use Rattle.std.specs.Prelude.{◌≡◌};
ghost use Rattle.source.specs.Shows.{part_of, text_shown};

use crate::{BAD_RECORD, Source};
use refusal::Refusal;
use span::Place;

// The bytes at the place. A place that leaves the bytes is BadRecord.
pub fn text<'a>(source: Source<'a>, place: Place) -> Result<&'a [u8], Refusal>
    ensures { part_of result ≡ text_shown source.entry.bytes.now place }
{
    let rest = source.bytes.get(place.offset..).ok_or(BAD_RECORD)?;
    rest.get(..place.length).ok_or(BAD_RECORD)
}
