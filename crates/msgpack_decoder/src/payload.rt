// Copyright 2026-Present Datadog, Inc. https://www.datadoghq.com/
// SPDX-License-Identifier: Apache-2.0
// Changed: chunks go into a pool, and texts are places.

// The payload map.
ghost use Rattle.decode.specs.State.{Did};
ghost use Rattle.msgpack_decoder.specs.Payload.{payload_field, payload};

use crate::chunk::decode_chunks;
use crate::keys::trace_key;
use crate::payload_text::text_field;
use attributes::{LEVELS, read_attributes_map};
use decode::{Decoder, read_map_len, read_u8};
use refusal::{Kind, Layer, Refusal};
use skipped::skip_unknown_value;
use span::{Range, TracerPayload};
use spans::{Fields, read_fields};
use texts::read_interned_string;

// A payload whose fields are being read. The chunks, which must be there, are kept beside it until all are.
#[derive(Clone, Copy, Default, PartialEq, Eq, Debug)]
pub struct PayloadDraft {
    pub payload: TracerPayload,
    pub chunks: Option<Range>,
}

impl Fields for PayloadDraft {
    ghost field = { payload_field };

    fn read_field(&mut self, decoder: &mut Decoder) -> Result<(), Refusal> {
        let key = read_u8(decoder.buf, Layer::Payload)?;
        if let Some(text) = text_field(&mut self.payload, key) {
            *text = read_interned_string(decoder.buf, decoder.table)?;
            return Ok(());
        }
        match key {
            trace_key::ATTRIBUTES => {
                self.payload.attributes = read_attributes_map(decoder, LEVELS)?;
            }
            trace_key::CHUNKS => self.chunks = Some(decode_chunks(decoder)?),
            _ => skip_unknown_value(decoder.buf, decoder.table)?,
        }
        Ok(())
    }
}

// A payload lies in no pool, so it is no `Pooled`: a trait below that would share three lines.
#[tactic(auto, unfolding(crate::specs::Payload::payload))]
pub fn decode_payload(decoder: &mut Decoder) -> Result<TracerPayload, Refusal>
    ensures { Did payload decoder.old decoder.new result }
{
    let at = decoder.offset();
    let count = read_map_len(decoder.buf, Layer::Payload)?;
    let mut draft = PayloadDraft::default();
    read_fields(decoder, &mut draft, count)?;
    let Some(chunks) = draft.chunks else {
        return Err(Refusal::new(Kind::InvalidFormat, Layer::Payload, at));
    };
    draft.payload.chunks = chunks;
    Ok(draft.payload)
}
