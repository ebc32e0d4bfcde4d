// Copyright 2026-Present Datadog, Inc. https://www.datadoghq.com/
// SPDX-License-Identifier: Apache-2.0
// Changed: the record goes into a pool, and its texts are places.

// Span events.
ghost use Rattle.std.specs.Prelude.{refl};
ghost use Rattle.refusal.specs.Runs.{give};
ghost use Rattle.refusal.specs.declared.Layer.TheVariants as layers;
ghost use Rattle.span.specs.Blank.{blank_event};
ghost use Rattle.decode.specs.Reader.{events_part};
ghost use Rattle.decode.specs.State.{Did};
ghost use Rattle.spans.specs.Event.{event_field, events};

use crate::keys::span_event_key;
use crate::{Fields, Pooled, read_records};
use attributes::{LEVELS, read_attributes_map};
use decode::{Decoder, read_int, read_u8};
use refusal::{Layer, Refusal};
use skipped::skip_unknown_value;
use span::{Range, Record, Records, SpanEvent};
use texts::read_interned_string;

impl Fields for SpanEvent {
    ghost field = { event_field };

    fn read_field(&mut self, decoder: &mut Decoder) -> Result<(), Refusal> {
        let key = read_u8(decoder.buf, Layer::Event)?;
        let buf = &mut *decoder.buf;
        match key {
            span_event_key::TIME => self.time_unix_nano = read_int(buf, Layer::Event, u64::MAX)?,
            span_event_key::NAME => self.name = read_interned_string(buf, decoder.table)?,
            span_event_key::ATTRIBUTES => self.attributes = read_attributes_map(decoder, LEVELS)?,
            _ => skip_unknown_value(buf, decoder.table)?,
        }
        Ok(())
    }
}

impl Pooled for SpanEvent {
    type Record = SpanEvent;

    ghost layer = { layers.Event };

    ghost part = { events_part };

    ghost first = { blank_event };

    ghost finish = { λ at event. give event };

    ghost same = { λ p. refl };

    fn layer() -> Layer {
        Layer::Event
    }

    fn first() -> SpanEvent {
        SpanEvent::blank()
    }

    fn finish(self, _at: usize) -> Result<SpanEvent, Refusal> {
        Ok(self)
    }

    fn count(records: &Records) -> usize {
        records.events.len()
    }

    fn push(records: &mut Records) -> Option<usize> {
        records.events.push(SpanEvent::blank())
    }

    fn put(records: &mut Records, index: usize, event: SpanEvent) {
        records.events.put(index, event);
    }
}

#[tactic(auto, unfolding(crate::specs::Event::events))]
pub fn read_span_events(decoder: &mut Decoder) -> Result<Range, Refusal>
    ensures { Did events decoder.old decoder.new result }
{
    read_records::<SpanEvent>(decoder, Layer::Span)
}
