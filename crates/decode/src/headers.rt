// Booleans, doubles and headers. Each is refused as InvalidFormat at its first byte.
ghost use Rattle.decode.specs.State.{Ran};
ghost use Rattle.decode.specs.Items.{item_of, is_bool, is_double, is_map, is_array};

use crate::Buffer;
use msgpack::Item;
use refusal::{Layer, Refusal};

pub fn read_bool(buf: &mut Buffer<'_>, layer: Layer) -> Result<bool, Refusal>
    ensures { Ran (λ input. item_of is_bool input layer) buf.old buf.new result }
{
    buf.take(layer, |item| match item {
        Item::Bool(b) => Some(b),
        _ => None,
    })
}

// The 64 bits of a double.
pub fn read_f64(buf: &mut Buffer<'_>, layer: Layer) -> Result<u64, Refusal>
    ensures { Ran (λ input. item_of is_double input layer) buf.old buf.new result }
{
    buf.take(layer, |item| match item {
        Item::Double(bits) => Some(bits),
        _ => None,
    })
}

pub fn read_map_len(buf: &mut Buffer<'_>, layer: Layer) -> Result<u32, Refusal>
    ensures { Ran (λ input. item_of is_map input layer) buf.old buf.new result }
{
    buf.take(layer, |item| match item {
        Item::Map(count) => Some(count),
        _ => None,
    })
}

pub fn read_array_len(buf: &mut Buffer<'_>, layer: Layer) -> Result<u32, Refusal>
    ensures { Ran (λ input. item_of is_array input layer) buf.old buf.new result }
{
    buf.take(layer, |item| match item {
        Item::Array(count) => Some(count),
        _ => None,
    })
}
