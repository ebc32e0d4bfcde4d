// Integers, in any of the ten formats, if the value fits. Each is refused as InvalidFormat at its first byte.
ghost use Rattle.std.specs.Prelude.{◌≡◌, ◌≤◌, IfOk};
ghost use Rattle.decode.specs.State.{Ran};
ghost use Rattle.decode.specs.Items.{item_of, natural, up_to, integer, signed32};

use crate::Buffer;
use msgpack::Item;
use refusal::{Layer, Refusal};

// An integer from 0 up.
fn natural_of(item: Item) -> Option<u64>
    ensures { result ≡ natural item }
{
    match item {
        Item::Unsigned(n) => Some(n),
        Item::Signed(z) => u64::try_from(z).ok(),
        _ => None,
    }
}

// An integer of 64 bits with a sign.
fn integer_of(item: Item) -> Option<i64>
    ensures { result ≡ integer item }
{
    match item {
        Item::Unsigned(n) => i64::try_from(n).ok(),
        Item::Signed(z) => Some(z),
        _ => None,
    }
}

// An integer of 32 bits with a sign.
fn signed32_of(item: Item) -> Option<i32>
    ensures { result ≡ signed32 item }
{
    i32::try_from(integer_of(item)?).ok()
}

// An integer from 0 to `max`.
pub fn read_int(buf: &mut Buffer<'_>, layer: Layer, max: u64) -> Result<u64, Refusal>
    ensures ran { Ran (λ input. item_of (up_to max) input layer) buf.old buf.new result }
    ensures bound { IfOk result (λ n. n ≤ max) }
{
    buf.take(layer, |item| natural_of(item).filter(|n| *n <= max))
}

// This and the next differ in their type alone. One generic function would need a trait between that type and the
// numbers that contracts speak of, and would be longer than both.
pub fn read_u8(buf: &mut Buffer<'_>, layer: Layer) -> Result<u8, Refusal>
    ensures { Ran (λ input. item_of (up_to 0xff) input layer) buf.old buf.new result }
{
    let n = read_int(buf, layer, 0xff)?;
    Ok(n as u8)
}

pub fn read_u32(buf: &mut Buffer<'_>, layer: Layer) -> Result<u32, Refusal>
    ensures { Ran (λ input. item_of (up_to 0xffff_ffff) input layer) buf.old buf.new result }
{
    let n = read_int(buf, layer, 0xffff_ffff)?;
    Ok(n as u32)
}

pub fn read_i64(buf: &mut Buffer<'_>, layer: Layer) -> Result<i64, Refusal>
    ensures { Ran (λ input. item_of integer input layer) buf.old buf.new result }
{
    buf.take(layer, integer_of)
}

pub fn read_i32(buf: &mut Buffer<'_>, layer: Layer) -> Result<i32, Refusal>
    ensures { Ran (λ input. item_of signed32 input layer) buf.old buf.new result }
{
    buf.take(layer, signed32_of)
}
