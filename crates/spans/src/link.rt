// Copyright 2026-Present Datadog, Inc. https://www.datadoghq.com/
// SPDX-License-Identifier: Apache-2.0
// Changed: the record goes into a pool, and its texts are places.

// Span links.
ghost use Rattle.std.specs.Prelude.{refl};
ghost use Rattle.refusal.specs.Runs.{give};
ghost use Rattle.refusal.specs.declared.Layer.TheVariants as layers;
ghost use Rattle.span.specs.Blank.{blank_link};
ghost use Rattle.decode.specs.Reader.{links_part};
ghost use Rattle.decode.specs.State.{Did};
ghost use Rattle.spans.specs.Link.{link_field, links};

use crate::keys::span_link_key;
use crate::{Fields, Pooled, read_records};
use attributes::{LEVELS, read_attributes_map};
use decode::{Decoder, read_int, read_trace_id, read_u8, read_u32};
use refusal::{Layer, Refusal};
use skipped::skip_unknown_value;
use span::{Range, Record, Records, SpanLink};
use texts::read_interned_string;

impl Fields for SpanLink {
    ghost field = { link_field };

    fn read_field(&mut self, decoder: &mut Decoder) -> Result<(), Refusal> {
        let key = read_u8(decoder.buf, Layer::Link)?;
        let buf = &mut *decoder.buf;
        match key {
            span_link_key::TRACE_ID => self.trace_id = read_trace_id(buf, Layer::Link)?,
            span_link_key::SPAN_ID => self.span_id = read_int(buf, Layer::Link, u64::MAX)?,
            span_link_key::ATTRIBUTES => self.attributes = read_attributes_map(decoder, LEVELS)?,
            span_link_key::TRACE_STATE => {
                self.tracestate = read_interned_string(buf, decoder.table)?;
            }
            span_link_key::FLAGS => self.flags = read_u32(buf, Layer::Link)?,
            _ => skip_unknown_value(buf, decoder.table)?,
        }
        Ok(())
    }
}

impl Pooled for SpanLink {
    type Record = SpanLink;

    ghost layer = { layers.Link };

    ghost part = { links_part };

    ghost first = { blank_link };

    ghost finish = { λ at link. give link };

    ghost same = { λ p. refl };

    fn layer() -> Layer {
        Layer::Link
    }

    fn first() -> SpanLink {
        SpanLink::blank()
    }

    fn finish(self, _at: usize) -> Result<SpanLink, Refusal> {
        Ok(self)
    }

    fn count(records: &Records) -> usize {
        records.links.len()
    }

    fn push(records: &mut Records) -> Option<usize> {
        records.links.push(SpanLink::blank())
    }

    fn put(records: &mut Records, index: usize, link: SpanLink) {
        records.links.put(index, link);
    }
}

#[tactic(auto, unfolding(crate::specs::Link::links))]
pub fn read_span_links(decoder: &mut Decoder) -> Result<Range, Refusal>
    ensures { Did links decoder.old decoder.new result }
{
    read_records::<SpanLink>(decoder, Layer::Span)
}
