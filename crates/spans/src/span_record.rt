// Copyright 2026-Present Datadog, Inc. https://www.datadoghq.com/
// SPDX-License-Identifier: Apache-2.0
// Changed: the record goes into a pool, and its texts are places.

// Spans.
ghost use Rattle.std.specs.Prelude.{refl};
ghost use Rattle.refusal.specs.declared.Layer.TheVariants as layers;
ghost use Rattle.decode.specs.Reader.{spans_part};
ghost use Rattle.decode.specs.State.{Did};
ghost use Rattle.spans.specs.Span.{span_field, no_span, finish, span};

use crate::event::read_span_events;
use crate::keys::span_key;
use crate::link::read_span_links;
use crate::text::text_field;
use crate::{Fields, Pooled, read_record};
use attributes::{LEVELS, read_attributes_map};
use decode::{Decoder, read_bool, read_int, read_u8, read_u32};
use refusal::{Kind, Layer, Refusal};
use skipped::skip_unknown_value;
use span::{Record, Records, Span};
use texts::read_interned_string;

// The largest start and duration: both are signed, and 0 at least.
const MOST_NANOS: u64 = 0x7fff_ffff_ffff_ffff;

// A span whose fields are being read. The two that must be there are kept beside it until all are.
#[derive(Clone, Copy, Default, PartialEq, Eq, Debug)]
pub struct SpanDraft {
    pub span: Span,
    pub span_id: Option<u64>,
    pub start: Option<i64>,
}

impl Fields for SpanDraft {
    ghost field = { span_field };

    fn read_field(&mut self, decoder: &mut Decoder) -> Result<(), Refusal> {
        let key = read_u8(decoder.buf, Layer::Span)?;
        if let Some(text) = text_field(&mut self.span, key) {
            *text = read_interned_string(decoder.buf, decoder.table)?;
            return Ok(());
        }
        let buf = &mut *decoder.buf;
        let span = &mut self.span;
        match key {
            span_key::SPAN_ID => self.span_id = Some(read_int(buf, Layer::Span, u64::MAX)?),
            span_key::PARENT_ID => span.parent_id = read_int(buf, Layer::Span, u64::MAX)?,
            span_key::START => self.start = Some(read_int(buf, Layer::Span, MOST_NANOS)? as i64),
            span_key::DURATION => span.duration = read_int(buf, Layer::Span, MOST_NANOS)? as i64,
            span_key::ERROR => span.error = read_bool(buf, Layer::Span)?,
            span_key::ATTRIBUTES => span.attributes = read_attributes_map(decoder, LEVELS)?,
            span_key::SPAN_LINKS => span.span_links = read_span_links(decoder)?,
            span_key::SPAN_EVENTS => span.span_events = read_span_events(decoder)?,
            span_key::KIND => span.span_kind = read_u32(buf, Layer::Span)?.into(),
            _ => skip_unknown_value(buf, decoder.table)?,
        }
        Ok(())
    }
}

impl Pooled for SpanDraft {
    type Record = Span;

    ghost layer = { layers.Span };

    ghost part = { spans_part };

    ghost first = { no_span };

    ghost finish = { finish };

    ghost same = { λ p. refl };

    fn layer() -> Layer {
        Layer::Span
    }

    fn first() -> SpanDraft {
        SpanDraft::default()
    }

    fn finish(self, at: usize) -> Result<Span, Refusal> {
        let (Some(span_id), Some(start)) = (self.span_id, self.start) else {
            return Err(Refusal::new(Kind::InvalidFormat, Layer::Span, at));
        };
        Ok(Span {
            span_id,
            start,
            ..self.span
        })
    }

    fn count(records: &Records) -> usize {
        records.spans.len()
    }

    fn push(records: &mut Records) -> Option<usize> {
        records.spans.push(Span::blank())
    }

    fn put(records: &mut Records, index: usize, span: Span) {
        records.spans.put(index, span);
    }
}

#[tactic(auto, unfolding(crate::specs::Span::span))]
pub fn decode_span(decoder: &mut Decoder) -> Result<(), Refusal>
    ensures { Did (λ input room. span input room tt) decoder.old decoder.new result }
{
    read_record::<SpanDraft>(decoder)
}
