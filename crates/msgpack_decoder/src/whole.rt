// Copyright 2026-Present Datadog, Inc. https://www.datadoghq.com/
// SPDX-License-Identifier: Apache-2.0
// Changed: it reads into pools that are lent, within limits, and blanks them where it refuses.

// A payload from bytes.
ghost use Rattle.std.specs.Prelude.{◌≡◌, length};
ghost use Rattle.span.specs.State.{most, rooms_of, held_of, nothing, memory_of, blank_behind};
ghost use Rattle.decode.specs.State.{room_of};
ghost use Rattle.msgpack_decoder.specs.Whole.{records_fit, limits, decoded, StoppedWithin};

use crate::payload::decode_payload;
use decode::{Buffer, Decoder};
use refusal::{Kind, Layer, Refusal};
use span::{Place, Record, Records, StringTable, TracerPayload};

const MOST_BYTES: usize = 16_777_216;

const MOST_RECORDS: usize = 65_535;

// Table and records are two parameters of all functions here, since callers of `from_slice` have them apart.

// What was read, and how many bytes that took.
#[derive(Clone, Copy, PartialEq, Eq, Debug)]
pub struct ReadPayload {
    pub payload: TracerPayload,
    pub read: usize,
}

// Whether no pool has too many records. Of an array of the six and `all`, the check found no proof.
fn records_fit(table: &StringTable<'_>, records: &Records<'_>) -> bool
    ensures { result ≡ records_fit (room_of table.now records.now) }
{
    table.capacity() <= MOST_RECORDS
        && records.chunks.capacity() <= MOST_RECORDS
        && records.spans.capacity() <= MOST_RECORDS
        && records.links.capacity() <= MOST_RECORDS
        && records.events.capacity() <= MOST_RECORDS
        && records.nodes.capacity() <= MOST_RECORDS
}

fn test_limits(input: &[u8], table: &StringTable<'_>, records: &Records<'_>) -> Result<(), Refusal>
    ensures { result ≡ limits (length input.now) (room_of table.now records.now) }
{
    if input.len() > MOST_BYTES {
        return Err(Refusal::new(Kind::TooLong, Layer::NoLayer, 0));
    }
    if table.capacity() == 0 || !records_fit(table, records) {
        return Err(Refusal::new(Kind::BadPool, Layer::NoLayer, 0));
    }
    Ok(())
}

fn blank_all(table: &mut StringTable<'_>, records: &mut Records<'_>)
    ensures held { held_of table.new records.new ≡ nothing }
    ensures room { room_of table.new records.new ≡ room_of table.old records.old }
{
    table.clear();
    records.clear();
}

// Blanks all, reads, and blanks all again if it refuses. No function stands between this and `decode_payload`: it would
// copy the payload once more, which is felt on short inputs.
pub fn from_slice(
    input: &[u8],
    records: &mut Records<'_>,
    table: &mut StringTable<'_>,
) -> Result<ReadPayload, Refusal>
    ensures told { (result, held_of table.new records.new) ≡ decoded input.now (room_of table.old records.old) }
    ensures memory { memory_of table.new records.new ≡ blank_behind (most table.new) (rooms_of records.new) (held_of table.new records.new) }
    ensures room { room_of table.new records.new ≡ room_of table.old records.old }
    ensures within { StoppedWithin input.now result }
{
    blank_all(table, records);
    test_limits(input, table, records)?;
    // number 0 is the empty text
    let _ = table.record(Place::blank());
    let mut buf = Buffer::new(input);
    let mut decoder = Decoder {
        buf: &mut buf,
        table,
        records,
    };
    match decode_payload(&mut decoder) {
        Ok(payload) => Ok(ReadPayload {
            payload,
            read: buf.offset(),
        }),
        Err(refusal) => {
            blank_all(table, records);
            Err(refusal)
        }
    }
}
