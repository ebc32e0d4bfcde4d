// The formats that have a marker of their own, behind that marker.
ghost use Rattle.std.specs.Prelude.{◌≡◌, ◌<◌, ◌≤◌};
ghost use Rattle.std.specs.Option.{option_map};
ghost use Rattle.msgpack.specs.Items.{front, typed, item_mark};

use crate::Item;
use crate::numbers::{BigEndian, told};

// An extension of n bytes, over its type.
fn over_type(n: u32, s: &[u8]) -> Option<(Item, &[u8])>
    ensures { option_map front result ≡ typed n s.now }
{
    let [_, rest @ ..] = s else {
        return None;
    };
    Some((Item::Ext(n), rest))
}

// The item whose marker is m, over the bytes behind the marker: a line for each format. 0xc1 is never used. The three
// lines of sized extensions stay three: what joins them would need a law of `Into` for each type of number.
pub(crate) fn read_format(m: u8, s: &[u8]) -> Option<(Item, &[u8])>
    requires { (0xc0 ≤ m) × (m < 0xe0) }
    ensures { option_map front result ≡ item_mark m s.now }
{
    match m {
        0xc0 => Some((Item::Nil, s)),
        0xc2 => Some((Item::Bool(false), s)),
        0xc3 => Some((Item::Bool(true), s)),
        0xc4 => told(s, |n: u8| Item::Bin(n.into())),
        0xc5 => told(s, |n: u16| Item::Bin(n.into())),
        0xc6 => told(s, Item::Bin),
        0xc7 => u8::split(s).and_then(|(n, rest)| over_type(n.into(), rest)),
        0xc8 => u16::split(s).and_then(|(n, rest)| over_type(n.into(), rest)),
        0xc9 => u32::split(s).and_then(|(n, rest)| over_type(n, rest)),
        0xca => told(s, Item::Float),
        0xcb => told(s, Item::Double),
        0xcc => told(s, |n: u8| Item::Unsigned(n.into())),
        0xcd => told(s, |n: u16| Item::Unsigned(n.into())),
        0xce => told(s, |n: u32| Item::Unsigned(n.into())),
        0xcf => told(s, Item::Unsigned),
        0xd0 => told(s, |n: u8| Item::Signed(n.cast_signed().into())),
        0xd1 => told(s, |n: u16| Item::Signed(n.cast_signed().into())),
        0xd2 => told(s, |n: u32| Item::Signed(n.cast_signed().into())),
        0xd3 => told(s, |n: u64| Item::Signed(n.cast_signed())),
        0xd4 => over_type(1, s),
        0xd5 => over_type(2, s),
        0xd6 => over_type(4, s),
        0xd7 => over_type(8, s),
        0xd8 => over_type(16, s),
        0xd9 => told(s, |n: u8| Item::Str(n.into())),
        0xda => told(s, |n: u16| Item::Str(n.into())),
        0xdb => told(s, Item::Str),
        0xdc => told(s, |n: u16| Item::Array(n.into())),
        0xdd => told(s, Item::Array),
        0xde => told(s, |n: u16| Item::Map(n.into())),
        0xdf => told(s, Item::Map),
        _ => None,
    }
}
