// The memory of the program check_payload.
ghost use Rattle.std.specs.Prelude.{◌≡◌};
ghost use Rattle.decode.specs.State.{room_of};
ghost use Rattle.summary.specs.Answers.{check_room};
ghost use Rattle.summary.specs.Memory.{blank_memory};

use span::{Node, Place, Record, Records, Span, SpanEvent, SpanLink, StringTable, TraceChunk};

const TEXTS: usize = 1024;

const CHUNKS: usize = 64;

const SPANS: usize = 256;

const LINKS: usize = 64;

const EVENTS: usize = 64;

const NODES: usize = 512;

#[derive(Drop)]
pub struct Memory {
    texts: [Place; TEXTS],
    chunks: [TraceChunk; CHUNKS],
    spans: [Span; SPANS],
    links: [SpanLink; LINKS],
    events: [SpanEvent; EVENTS],
    nodes: [Node; NODES],
}

impl Memory {
    pub fn blank() -> Memory
        ensures { result ≡ blank_memory }
    {
        Memory {
            texts: [Place::blank(); TEXTS],
            chunks: [TraceChunk::blank(); CHUNKS],
            spans: [Span::blank(); SPANS],
            links: [SpanLink::blank(); LINKS],
            events: [SpanEvent::blank(); EVENTS],
            nodes: [Node::blank(); NODES],
        }
    }

    // Pools over it.
    pub fn lend(&mut self) -> (Records<'_>, StringTable<'_>)
        ensures { room_of result.1 result.0 ≡ check_room }
    {
        let Memory {
            texts,
            chunks,
            spans,
            links,
            events,
            nodes,
        } = self;
        (
            Records::new(chunks, spans, links, events, nodes),
            StringTable::new(texts),
        )
    }
}
