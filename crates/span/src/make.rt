// The table and the records, over memory that is lent, which they blank.
ghost use Rattle.std.specs.Prelude.{◌≡◌, [], length};
ghost use Rattle.span.specs.State.{texts_of, most, pools_of, rooms_of, no_pools, lent};

use crate::{Node, Place, Pool, Records, Span, SpanEvent, SpanLink, StringTable, TraceChunk};

impl<'a> StringTable<'a> {
    pub fn new(texts: &'a mut [Place]) -> StringTable<'a>
        ensures held { texts_of result ≡ [] }
        ensures most { most result ≡ length texts.old }
    {
        StringTable {
            texts: Pool::new(texts),
        }
    }
}

impl<'a> Records<'a> {
    pub fn new(
        chunks: &'a mut [TraceChunk],
        spans: &'a mut [Span],
        links: &'a mut [SpanLink],
        events: &'a mut [SpanEvent],
        nodes: &'a mut [Node],
    ) -> Records<'a>
        ensures held { pools_of result ≡ no_pools }
        ensures rooms { rooms_of result ≡ lent chunks.old spans.old links.old events.old nodes.old }
    {
        Records {
            chunks: Pool::new(chunks),
            spans: Pool::new(spans),
            links: Pool::new(links),
            events: Pool::new(events),
            nodes: Pool::new(nodes),
        }
    }

    pub fn clear(&mut self)
        ensures held { pools_of self.new ≡ no_pools }
        ensures rooms { rooms_of self.new ≡ rooms_of self.old }
    {
        self.chunks.clear();
        self.spans.clear();
        self.links.clear();
        self.events.clear();
        self.nodes.clear();
    }
}
