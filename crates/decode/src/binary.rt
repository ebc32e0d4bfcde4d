// Copyright 2026-Present Datadog, Inc. https://www.datadoghq.com/
// SPDX-License-Identifier: Apache-2.0
// Changed: a binary is a place in the bytes.

// Binaries: a header and as many bytes. A wrong length is refused at the header's first byte, and so are contents that are cut off.
ghost use Rattle.decode.specs.State.{Ran};
ghost use Rattle.decode.specs.Binary.{bin_at, trace_id_at};

use crate::Buffer;
use msgpack::Item;
use refusal::{Kind, Layer, Refusal};
use span::Place;

pub fn read_bin(buf: &mut Buffer<'_>, layer: Layer) -> Result<Place, Refusal>
    ensures { Ran (λ input. bin_at input layer) buf.old buf.new result }
{
    if let Some((Item::Bin(n), offset)) = buf.item() {
        let length = n as usize;
        if length <= buf.bytes.len() - offset {
            buf.at = offset + length;
            return Ok(Place { offset, length });
        }
    }
    Err(Refusal::new(Kind::InvalidFormat, layer, buf.at))
}

// A binary of 16 bytes.
pub fn read_trace_id(buf: &mut Buffer<'_>, layer: Layer) -> Result<[u8; 16], Refusal>
    ensures { Ran (λ input. trace_id_at input layer) buf.old buf.new result }
{
    let at = buf.at;
    let place = read_bin(buf, layer)?;
    match buf.bytes[place.offset..buf.at].try_into() {
        Ok(id) => Ok(id),
        Err(_) => {
            buf.at = at;
            Err(Refusal::new(Kind::InvalidFormat, layer, at))
        }
    }
}
