// Copyright 2024-Present Datadog, Inc. https://www.datadoghq.com/
// SPDX-License-Identifier: Apache-2.0
// Changed: a text is a place in the bytes, and the formats are read by our own functions.

// Texts: in full, or by the number that an earlier one has taken.
#![tactic(auto)]

ghost use Rattle.std.specs.Prelude.{◌≡◌, ◌≤◌, length};
ghost use Rattle.refusal.specs.Runs.{refusal_at};
ghost use Rattle.refusal.specs.declared.Layer.TheVariants.{Text};
ghost use Rattle.decode.specs.State.{Ran, RanTexts, bytes_of, strings_of};
ghost use Rattle.decode.specs.Texts.{contents, string_at, literal, by_number, text_in};

use decode::Buffer;
use msgpack::Item;
use refusal::{Kind, Layer, Refusal};
use span::{Place, StringTable};
use utf8::is_utf8;

// A text is refused at its first byte, which is where the buffer stands until it is read.
fn refused(buf: &Buffer<'_>, kind: Kind) -> Refusal
    ensures { result ≡ refusal_at kind Text buf.now.at }
{
    Refusal::new(kind, Layer::Text, buf.offset())
}

// The contents of a string, of `n` bytes from the offset on, whose first byte is where the buffer stands.
fn read_contents(buf: &mut Buffer<'_>, offset: usize, n: u32) -> Result<Place, Refusal>
    requires { offset ≤ length (bytes_of buf.old) }
    ensures { Ran (λ input. contents input offset n) buf.old buf.new result }
{
    let length = n as usize;
    let end = offset + length;
    let Some(contents) = buf.bytes().get(offset..end) else {
        return Err(refused(buf, Kind::IOError));
    };
    if !is_utf8(contents) {
        return Err(refused(buf, Kind::Utf8Error));
    }
    buf.seek(end);
    Ok(Place { offset, length })
}

// A string in full. What is no string is InvalidType, and a length that is cut off InvalidConversion. The first bytes of
// strings stand once more in `read_interned_string`: a pattern has no name.
pub fn read_string(buf: &mut Buffer<'_>) -> Result<Place, Refusal>
    ensures { Ran string_at buf.old buf.new result }
{
    match buf.marker() {
        Some(0xa0..=0xbf | 0xd9..=0xdb) => match buf.item() {
            Some((Item::Str(n), offset)) => read_contents(buf, offset, n),
            _ => Err(refused(buf, Kind::InvalidConversion)),
        },
        Some(_) => Err(refused(buf, Kind::InvalidType)),
        None => Err(refused(buf, Kind::InvalidFormat)),
    }
}

// A string in full, which takes the next number. Buffer and table stay two parameters here, so that whoever has no
// records can call.
fn read_literal(buf: &mut Buffer<'_>, table: &mut StringTable<'_>) -> Result<Place, Refusal>
    ensures { RanTexts literal buf.old buf.new table.old table.new result }
{
    let full = refused(buf, Kind::TextsFull);
    let text = read_string(buf)?;
    table.record(text).ok_or(full)?;
    Ok(text)
}

// The text that has the number that stands here, in one of the five unsigned formats. The table is only looked at, so its
// clauses are not `RanTexts`.
fn read_number(buf: &mut Buffer<'_>, table: &StringTable<'_>) -> Result<Place, Refusal>
    ensures ran { (result, strings_of buf.new table.now) ≡ by_number (bytes_of buf.old) (strings_of buf.old table.now) }
    ensures kept { bytes_of buf.new ≡ bytes_of buf.old }
{
    let Some((Item::Unsigned(id), end)) = buf.item() else {
        return Err(refused(buf, Kind::InvalidFormat));
    };
    let text = table.resolve(id).ok_or(refused(buf, Kind::InvalidFormat))?;
    buf.seek(end);
    Ok(text)
}

pub fn read_interned_string(
    buf: &mut Buffer<'_>,
    table: &mut StringTable<'_>,
) -> Result<Place, Refusal>
    ensures { RanTexts text_in buf.old buf.new table.old table.new result }
{
    match buf.marker() {
        Some(0xa0..=0xbf | 0xd9..=0xdb) => read_literal(buf, table),
        Some(0x00..=0x7f | 0xcc..=0xcf) => read_number(buf, table),
        _ => Err(refused(buf, Kind::InvalidFormat)),
    }
}
