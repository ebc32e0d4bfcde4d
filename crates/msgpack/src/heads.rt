// The head of an item: its marker, and what stands between that and what follows.
ghost use Rattle.std.specs.Prelude.{◌≡◌, ◌<◌, length, IfSome};
ghost use Rattle.std.specs.Option.{option_map};
ghost use Rattle.msgpack.specs.Items.{front, item_mark, item_at, item_from, Within};

use crate::Item;
use crate::formats::read_format;

// The item whose marker is m, over the bytes behind the marker.
fn read_marked(m: u8, s: &[u8]) -> Option<(Item, &[u8])>
    ensures { option_map front result ≡ item_mark m s.now }
{
    match m {
        0x00..=0x7f => Some((Item::Unsigned(m.into()), s)),
        0x80..=0x8f => Some((Item::Map((m - 0x80).into()), s)),
        0x90..=0x9f => Some((Item::Array((m - 0x90).into()), s)),
        0xa0..=0xbf => Some((Item::Str((m - 0xa0).into()), s)),
        0xc0..=0xdf => read_format(m, s),
        0xe0..=0xff => Some((Item::Signed(m.cast_signed().into()), s)),
    }
}

// The item that the bytes begin with, and what follows its head.
pub fn read_item(s: &[u8]) -> Option<(Item, &[u8])>
    ensures is { option_map front result ≡ item_at s.now }
    ensures shorter { IfSome result (λ p. length p.1.now < length s.now) }
{
    let [m, rest @ ..] = s else {
        return None;
    };
    read_marked(*m, rest)
}

// The item at an offset of the input, and the offset behind its head. What follows a head is shorter than what
// begins with it, so the offset needs no test.
#[tactic(auto, unfolding(crate::specs::Items::item_from))]
pub fn item_at(input: &[u8], at: usize) -> Option<(Item, usize)>
    ensures is { result ≡ item_from input.now at }
    ensures within { Within at input.now result }
{
    let (item, rest) = read_item(input.get(at..)?)?;
    Some((item, input.len() - rest.len()))
}
