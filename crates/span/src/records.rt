// The pools of all records but texts.
use crate::{Node, Pool, Span, SpanEvent, SpanLink, TraceChunk};

#[derive(Drop)]
pub struct Records<'a> {
    pub chunks: Pool<'a, TraceChunk>,
    pub spans: Pool<'a, Span>,
    pub links: Pool<'a, SpanLink>,
    pub events: Pool<'a, SpanEvent>,
    pub nodes: Pool<'a, Node>,
}
