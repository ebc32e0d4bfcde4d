// Copyright 2026-Present Datadog, Inc. https://www.datadoghq.com/
// SPDX-License-Identifier: Apache-2.0
// Changed: texts and binaries are places in the bytes, collections are ranges of pools, attributes are flat nodes.

// A part of the bytes: a text's or a binary's contents. No slice: the memory of records is lent for longer than the
// bytes are.
#[derive(Clone, Copy, Default, PartialEq, Eq, Debug)]
pub struct Place {
    pub offset: usize,
    pub length: usize,
}

// `count` records of a pool from `first` on; 0 and 0 where there are none. No slice: the pool is still written.
#[derive(Clone, Copy, Default, PartialEq, Eq, Debug)]
pub struct Range {
    pub first: usize,
    pub count: usize,
}

// What an attribute is: the entry of a map, which has a key, or the member of a list, which has none.
// Nodes lie in order of reading: `inside` counts those of its own list or map, which lie right behind it. There is no
// heap to box them on.
#[derive(Clone, Copy, Default, PartialEq, Eq, Debug)]
pub struct Node {
    pub key: Place,
    // 1 to 7, as `AnyValueKey` has them; a blank node has 0. A number: a node that is handed in may have any.
    pub type_number: u8,
    // Bool: 0 or 1. Double: its bits. Int: two's complement. Else 0.
    pub pattern: u64,
    // String, Bytes: the contents
    pub place: Place,
    pub inside: usize,
}

#[derive(Clone, Copy, Default, PartialEq, Eq, Debug)]
pub enum SpanKind {
    #[default]
    Internal,
    Server,
    Client,
    Producer,
    Consumer,
}

#[derive(Clone, Copy, Default, PartialEq, Eq, Debug)]
pub struct SpanLink {
    pub trace_id: [u8; 16],
    pub span_id: u64,
    pub attributes: Range,
    pub tracestate: Place,
    pub flags: u32,
}

#[derive(Clone, Copy, Default, PartialEq, Eq, Debug)]
pub struct SpanEvent {
    pub time_unix_nano: u64,
    pub name: Place,
    pub attributes: Range,
}

#[derive(Clone, Copy, Default, PartialEq, Eq, Debug)]
pub struct Span {
    pub service: Place,
    pub name: Place,
    pub resource: Place,
    pub span_type: Place,
    pub span_id: u64,
    pub parent_id: u64,
    pub start: i64,
    pub duration: i64,
    pub error: bool,
    pub span_kind: SpanKind,
    pub env: Place,
    pub version: Place,
    pub component: Place,
    pub attributes: Range,
    pub span_links: Range,
    pub span_events: Range,
}

#[derive(Clone, Copy, Default, PartialEq, Eq, Debug)]
pub struct TraceChunk {
    pub trace_id: [u8; 16],
    pub priority: Option<i32>,
    pub origin: Place,
    pub sampling_mechanism: Option<u32>,
    pub dropped_trace: bool,
    pub attributes: Range,
    pub spans: Range,
}

#[derive(Clone, Copy, Default, PartialEq, Eq, Debug)]
pub struct TracerPayload {
    pub container_id: Place,
    pub language_name: Place,
    pub language_version: Place,
    pub tracer_version: Place,
    pub runtime_id: Place,
    pub env: Place,
    pub hostname: Place,
    pub app_version: Place,
    pub attributes: Range,
    pub chunks: Range,
}
