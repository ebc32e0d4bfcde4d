// Copyright 2026-Present Datadog, Inc. https://www.datadoghq.com/
// SPDX-License-Identifier: Apache-2.0
// Changed: the record goes into a pool, and its texts are places.

// Chunks.
ghost use Rattle.std.specs.Prelude.{refl};
ghost use Rattle.refusal.specs.declared.Layer.TheVariants as layers;
ghost use Rattle.decode.specs.Reader.{chunks_part};
ghost use Rattle.decode.specs.State.{Did};
ghost use Rattle.msgpack_decoder.specs.Chunk.{spans_of, chunk_field, no_chunk, finish, chunks};

use crate::keys::chunk_key;
use attributes::{LEVELS, read_attributes_map};
use decode::{Decoder, read_bool, read_i32, read_trace_id, read_u8, read_u32};
use refusal::{Kind, Layer, Refusal};
use skipped::skip_unknown_value;
use span::{Range, Record, Records, TraceChunk};
use spans::{Fields, Pooled, SpanDraft, read_records};
use texts::read_interned_string;

// A chunk whose fields are being read. The two that must be there are kept beside it until all are.
#[derive(Clone, Copy, Default, PartialEq, Eq, Debug)]
pub struct ChunkDraft {
    pub chunk: TraceChunk,
    pub trace_id: Option<[u8; 16]>,
    pub spans: Option<Range>,
}

#[tactic(auto, unfolding(spans::specs::Span::span))]
fn decode_spans(decoder: &mut Decoder) -> Result<Range, Refusal>
    ensures { Did spans_of decoder.old decoder.new result }
{
    read_records::<SpanDraft>(decoder, Layer::Chunk)
}

impl Fields for ChunkDraft {
    ghost field = { chunk_field };

    fn read_field(&mut self, decoder: &mut Decoder) -> Result<(), Refusal> {
        let key = read_u8(decoder.buf, Layer::Chunk)?;
        let buf = &mut *decoder.buf;
        let chunk = &mut self.chunk;
        match key {
            chunk_key::PRIORITY => chunk.priority = Some(read_i32(buf, Layer::Chunk)?),
            chunk_key::ORIGIN => chunk.origin = read_interned_string(buf, decoder.table)?,
            chunk_key::ATTRIBUTES => chunk.attributes = read_attributes_map(decoder, LEVELS)?,
            chunk_key::SPANS => self.spans = Some(decode_spans(decoder)?),
            chunk_key::DROPPED_TRACE => chunk.dropped_trace = read_bool(buf, Layer::Chunk)?,
            chunk_key::TRACE_ID => self.trace_id = Some(read_trace_id(buf, Layer::Chunk)?),
            chunk_key::SAMPLING_MECHANISM => {
                chunk.sampling_mechanism = Some(read_u32(buf, Layer::Chunk)?);
            }
            _ => skip_unknown_value(buf, decoder.table)?,
        }
        Ok(())
    }
}

impl Pooled for ChunkDraft {
    type Record = TraceChunk;

    ghost layer = { layers.Chunk };

    ghost part = { chunks_part };

    ghost first = { no_chunk };

    ghost finish = { finish };

    ghost same = { λ p. refl };

    fn layer() -> Layer {
        Layer::Chunk
    }

    #[tactic(auto, using(span::proofs::Lists::zeros))]
    fn first() -> ChunkDraft {
        ChunkDraft::default()
    }

    fn finish(self, at: usize) -> Result<TraceChunk, Refusal> {
        let (Some(trace_id), Some(spans)) = (self.trace_id, self.spans) else {
            return Err(Refusal::new(Kind::InvalidFormat, Layer::Chunk, at));
        };
        Ok(TraceChunk {
            trace_id,
            spans,
            ..self.chunk
        })
    }

    fn count(records: &Records) -> usize {
        records.chunks.len()
    }

    fn push(records: &mut Records) -> Option<usize> {
        records.chunks.push(TraceChunk::blank())
    }

    fn put(records: &mut Records, index: usize, chunk: TraceChunk) {
        records.chunks.put(index, chunk);
    }
}

#[tactic(auto, unfolding(crate::specs::Chunk::chunks))]
pub fn decode_chunks(decoder: &mut Decoder) -> Result<Range, Refusal>
    ensures { Did chunks decoder.old decoder.new result }
{
    read_records::<ChunkDraft>(decoder, Layer::Payload)
}
