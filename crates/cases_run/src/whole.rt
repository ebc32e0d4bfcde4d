// A payload with a record of every kind, and what lies in its records.
use crate::bytes::bytes_of;
use msgpack_decoder::from_slice;
use span::{
    Node, Place, Range, Record, Records, Span, SpanEvent, SpanKind, SpanLink, StringTable,
    TraceChunk, TracerPayload,
};
use std::test::Fail;

// One field or two to a line, but for arrays. The payload's env is the text with number 2, and the chunk's attribute "a"
// the one with number 5, the skipped "x". The last byte lies behind the payload.
pub const INPUT: &str = "
    87
    02 A1 63
    06 A2 72 31
    07 02 09 00
    0A 96 A1 64 03 CB 3F F8 00 00 00 00 00 00 A1 6C 06 94 05 C4 02 AA BB 02 C2
    63 82 A1 78 01 A1 79 C0
    0B 91 87
    01 FE 02 A6 6C 61 6D 62 64 61
    03 93 A1 61 01 05 05 C3
    06 C4 10 01 02 03 04 05 06 07 08 09 0A 0B 0C 0D 0E 0F 10
    07 CE 00 00 00 04 04 91 DE 00 10
    01 A3 73 76 63 02 A2 6F 70 03 A3 47 45 54
    04 CF FF FF FF FF FF FF FF FF 05 CD 01 00
    06 CF 7F FF FF FF FF FF FF FF 07 D1 7F FF 08 C3
    09 93 A1 6E 04 D3 80 00 00 00 00 00 00 00 0A A3 77 65 62
    0B 91 85 01 C4 10 11 12 13 14 15 16 17 18 19 1A 1B 1C 1D 1E 1F 20
    02 07 03 93 A1 6B 02 C3 04 A2 74 73 05 03
    0C 91 83 01 CE 00 01 00 00 02 A2 65 76 03 90
    0D A1 70 0E A1 31 0F A1 78 10 03
    FF
";

const CHUNK_TRACE: [u8; 16] = [1, 2, 3, 4, 5, 6, 7, 8, 9, 10, 11, 12, 13, 14, 15, 16];

const LINK_TRACE: [u8; 16] = [
    17, 18, 19, 20, 21, 22, 23, 24, 25, 26, 27, 28, 29, 30, 31, 32,
];

// Whether the place holds those bytes.
fn holds(input: &[u8], place: Place, expected: &[u8]) -> bool {
    let end = place.offset.saturating_add(place.length);
    input.get(place.offset..end) == Some(expected)
}

fn payload_is_right(input: &[u8], payload: &TracerPayload) -> bool {
    holds(input, payload.container_id, b"c")
        && holds(input, payload.runtime_id, b"r1")
        && holds(input, payload.env, b"r1")
        && holds(input, payload.app_version, b"")
        && payload.attributes == Range::new(0, 4)
        && payload.chunks == Range::new(0, 1)
}

fn chunk_is_right(input: &[u8], chunk: &TraceChunk) -> bool {
    holds(input, chunk.origin, b"lambda")
        && chunk.attributes == Range::new(4, 1)
        && chunk.spans == Range::new(0, 1)
        && chunk.trace_id == CHUNK_TRACE
        && chunk.priority == Some(-2)
        && chunk.sampling_mechanism == Some(4)
        && chunk.dropped_trace
}

fn span_is_right(input: &[u8], span: &Span) -> bool {
    holds(input, span.service, b"svc")
        && holds(input, span.name, b"op")
        && holds(input, span.resource, b"GET")
        && span.span_id == u64::MAX
        && span.parent_id == 256
        && span.start == i64::MAX
        && span.duration == 32_767
        && span.error
        && span.attributes == Range::new(5, 1)
        && holds(input, span.span_type, b"web")
        && span.span_links == Range::new(0, 1)
        && span.span_events == Range::new(0, 1)
        && holds(input, span.env, b"p")
        && holds(input, span.version, b"1")
        && holds(input, span.component, b"x")
        && span.span_kind == SpanKind::Client
}

fn link_is_right(input: &[u8], link: &SpanLink) -> bool {
    link.trace_id == LINK_TRACE
        && link.span_id == 7
        && link.attributes == Range::new(6, 1)
        && holds(input, link.tracestate, b"ts")
        && link.flags == 3
}

fn event_is_right(input: &[u8], event: &SpanEvent) -> bool {
    event.time_unix_nano == 65_536
        && holds(input, event.name, b"ev")
        && event.attributes == Range::new(0, 0)
}

fn nodes_are_right(input: &[u8], nodes: &[Node]) -> bool {
    let [double, list, bytes, _, text, integer, _] = nodes else {
        return false;
    };
    (double.type_number, double.pattern, double.inside) == (3, 0x3ff8_0000_0000_0000, 0)
        && (list.type_number, list.pattern, list.inside) == (6, 0, 2)
        && (bytes.type_number, bytes.pattern, bytes.inside) == (5, 0, 0)
        && (text.type_number, text.pattern, text.inside) == (1, 0, 0)
        && (integer.type_number, integer.pattern, integer.inside) == (4, 0x8000_0000_0000_0000, 0)
        && holds(input, list.key, b"l")
        && holds(input, bytes.place, b"\xaa\xbb")
        && holds(input, text.place, b"x")
}

#[test]
fn every_kind(rt: HostRuntime) -> Result<(), Fail> {
    let input = bytes_of(rt.alloc(), INPUT)?;
    // as many as the input takes, so not the memory of the program
    let mut texts = [Place::blank(); 20];
    let mut chunks = [TraceChunk::blank(); 1];
    let mut spans = [Span::blank(); 1];
    let mut links = [SpanLink::blank(); 1];
    let mut events = [SpanEvent::blank(); 1];
    let mut nodes = [Node::blank(); 7];
    let mut table = StringTable::new(&mut texts);
    let mut records = Records::new(&mut chunks, &mut spans, &mut links, &mut events, &mut nodes);
    let Ok(found) = from_slice(&input, &mut records, &mut table) else {
        return Err(Fail::new("refused"));
    };
    assert!(rt; payload_is_right(&input, &found.payload));
    assert!(rt; chunk_is_right(&input, &records.chunks.get_or(0, TraceChunk::blank())));
    assert!(rt; span_is_right(&input, &records.spans.get_or(0, Span::blank())));
    assert!(rt; link_is_right(&input, &records.links.get_or(0, SpanLink::blank())));
    assert!(rt; event_is_right(&input, &records.events.get_or(0, SpanEvent::blank())));
    assert!(rt; nodes_are_right(&input, records.nodes.as_slice()));
    Ok(())
}
