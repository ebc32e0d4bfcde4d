// Copyright 2026-Present Datadog, Inc. https://www.datadoghq.com/
// SPDX-License-Identifier: Apache-2.0
// Changed: the defaults have names that contracts cite.

// Each kind of record as it is before anything is read: the source's defaults.
ghost use Rattle.span.specs.Blank.{no_place, blank_node, blank_link, blank_event, blank_span, blank_chunk, blank_payload};

use crate::{Node, Place, Record, Span, SpanEvent, SpanLink, TraceChunk, TracerPayload};

impl Record for Place {
    ghost blank = { no_place };

    fn blank() -> Place {
        Place::default()
    }
}

impl Record for Node {
    ghost blank = { blank_node };

    fn blank() -> Node {
        Node::default()
    }
}

impl Record for SpanLink {
    ghost blank = { blank_link };

    #[tactic(auto, using(crate::proofs::Lists::zeros))]
    fn blank() -> SpanLink {
        SpanLink::default()
    }
}

impl Record for SpanEvent {
    ghost blank = { blank_event };

    fn blank() -> SpanEvent {
        SpanEvent::default()
    }
}

impl Record for Span {
    ghost blank = { blank_span };

    fn blank() -> Span {
        Span::default()
    }
}

impl Record for TraceChunk {
    ghost blank = { blank_chunk };

    #[tactic(auto, using(crate::proofs::Lists::zeros))]
    fn blank() -> TraceChunk {
        TraceChunk::default()
    }
}

impl Record for TracerPayload {
    ghost blank = { blank_payload };

    fn blank() -> TracerPayload {
        TracerPayload::default()
    }
}
